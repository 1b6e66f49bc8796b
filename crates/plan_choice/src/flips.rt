//! Plans that are under High only while some voxel floats.
ghost use Rattle.std.specs.Prelude.{◌≡◌, IfOk, length};
ghost use Rattle.vox_geom.specs.Counting.{IsBlankOf};
ghost use Rattle.plan_choice.specs.Better.{CanImprove, CanRun, MayStandFor};

use crate::alone::affordable;
use crate::bounds::Bounds;
use crate::choice::cheaper;
use counter_permit::CounterPermit;
use nano_spec::{Command, CommandList, Harmonics, Profile};
use plan_tape::Plan;
use std::alloc::Global;
use std::marker::Brand;
use std::sync::ledger::{Blank, Ledger};
use step_machine::{Machine, StepFault};
use vox_geom::{Memory, Steps};
use vox_planes::Planes;

/// The most steps of a run.
const MOST_STEPS: u32 = 1_073_741_824;

/// The most Flips of a planner's plan, which others replace.
const FLIPS: u64 = 2;

/// Commands in the making, the harmonics after them, and their upkeep: 1 for a step under Low, 10 for one under High.
#[derive(Drop)]
struct Draft {
    commands: CommandList,
    harmonics: Harmonics,
    upkeep: u64,
}

impl Draft {
    /// Adds the upkeep of a step.
    fn pay(&mut self) {
        let upkeep = if self.harmonics == Harmonics::High {
            10
        } else {
            1
        };
        self.upkeep = self.upkeep.saturating_add(upkeep);
    }

    /// Adds a step in which the first bot changes the harmonics and the others wait, if they differ from `wanted`.
    fn set(&mut self, wanted: Harmonics, bots: u8) -> Result<(), Memory> {
        if self.harmonics == wanted {
            return Ok(());
        }
        self.commands.push(Command::Flip)?;
        for _ in 1..bots {
            self.commands.push(Command::Wait)?;
        }
        self.pay();
        self.harmonics = wanted;
        Ok(())
    }

    /// Adds a step.
    fn step(&mut self, commands: &[Command]) -> Result<(), Memory> {
        for command in commands {
            self.commands.push(*command)?;
        }
        self.pay();
        Ok(())
    }
}

/// Returns whether a step is a Flip of a single bot.
fn is_flip(step: &[Command]) -> bool {
    step.len() == 1 && step[0] == Command::Flip
}

/// The work of the machines that run proposals, and its limit. It is counted in voxels: those that each machine starts with, and
/// those that become or stop being grounded.
#[derive(Clone, Copy, Debug)]
pub(crate) struct Work {
    done: u64,
    allowed: u64,
    start: u32,
}

impl Work {
    /// Returns no work, with a limit and the work of a start.
    pub(crate) fn allowing(allowed: u64, start: u32) -> Work {
        Work {
            done: 0,
            allowed,
            start,
        }
    }

    /// Returns no work, without a limit.
    pub(crate) fn any() -> Work {
        Work::allowing(u64::MAX, 0)
    }

    /// Adds the work of a machine that starts.
    pub(crate) fn start(&mut self) {
        self.add(self.start);
    }

    /// Adds some work.
    fn add(&mut self, more: u32) {
        self.done = self.done.saturating_add(u64::from(more));
    }

    /// Returns whether the work exceeds the limit.
    pub(crate) fn is_over(self) -> bool {
        self.done > self.allowed
    }
}

/// Returns the absolute difference of two numbers.
fn difference(a: u32, b: u32) -> u32 {
    a.max(b).saturating_sub(a.min(b))
}

/// Returns the commands with Flips of their own, with touches counted in the ledger. Returns None if their upkeep exceeds that of
/// `most` steps under Low, or if they take more work than the limit.
fn lowered_in<L: Ledger>(
    alloc: Global,
    source: &Planes,
    profile: Profile,
    commands: &[Command],
    most: u64,
    work: &mut Work,
    blank: Blank,
) -> Result<Option<CommandList>, Memory>
    requires run { CanRun source.now profile }
    requires blank { IsBlankOf blank L.name L.parts }
{
    let mut steps: Steps<L> = Steps::new(blank, CounterPermit);
    let mut machine = Machine::start(alloc, source.copy(alloc)?, profile, &mut steps)?;
    let mut draft = Draft {
        commands: CommandList::new(alloc),
        harmonics: Harmonics::Low,
        upkeep: 0,
    };
    work.start();
    let mut floating = 0;
    let mut rest = commands;
    while !rest.is_empty() {
        let bots = machine.active();
        let count = rest.len().min(usize::from(bots));
        if count == 0 || machine.steps_done() >= MOST_STEPS {
            break;
        }
        if draft.upkeep > most || work.is_over() {
            return Ok(None);
        }
        let (step, later) = rest.split_at(count);
        rest = later;
        match machine.step(step, &mut steps) {
            Ok(_) => {}
            Err(StepFault::Memory) => return Err(Memory),
            Err(StepFault::Broken(_) | StepFault::Spent) => break,
        }
        let before = floating;
        floating = machine.forest().floating();
        work.add(difference(before, floating));
        let floats = floating > 0;
        if is_flip(step) {
            continue;
        }
        if floats {
            draft.set(Harmonics::High, bots)?;
        }
        draft.step(step)?;
        if !floats {
            draft.set(Harmonics::Low, machine.active())?;
        }
    }
    Ok(Some(draft.commands))
}

/// Returns a plan's commands with other Flips: harmonics are High only while some full voxel is not grounded. Returns None if their
/// upkeep exceeds that of `most` steps under Low, or if they take more work than the limit. This is a proposal: the definitions
/// judge it in [`cheaper`].
pub(crate) fn lower_commands(
    alloc: Global,
    source: &Planes,
    profile: Profile,
    commands: &[Command],
    most: u64,
    work: &mut Work,
) -> Result<Option<CommandList>, Memory>
    requires { CanRun source.now profile }
{
    lowered_in::<Brand>(alloc, source, profile, commands, most, work, Blank::new(1))
}

/// Returns the plan with Flips of its own if that is accepted with less energy and within the bounds; else the plan.
///
/// A plan of one command, a Halt alone, is returned as it is. Proposals that cannot cost less than the ceiling may be skipped.
pub fn lower(
    alloc: Global,
    source: &Planes,
    target: &Planes,
    profile: Profile,
    plan: Plan,
    most: Bounds,
    ceiling: i64,
) -> Result<Plan, Memory>
    requires { CanImprove source.now target.now profile plan }
    ensures stands { IfOk result (λ it. MayStandFor source.now target.now profile most plan it) }
    ensures alone { length plan.commands ≡ 1 → IfOk result (λ it. it.commands ≡ plan.commands) }
{
    if plan.commands.as_slice().len() == 1 {
        return Ok(plan);
    }
    if u64::from(plan.steps) > affordable(source.resolution(), ceiling).saturating_add(FLIPS) {
        return Ok(plan);
    }
    let room = affordable(source.resolution(), plan.energy.min(ceiling));
    let commands = plan.commands.as_slice();
    let mut work = Work::any();
    let Some(proposal) = lower_commands(alloc, source, profile, commands, room, &mut work)? else {
        return Ok(plan);
    };
    cheaper(alloc, source, target, profile, plan, proposal, most)
}
