//! Making and undoing steps.
ghost use Rattle.std.specs.Prelude.{◌≡◌, [], ◌∷◌, IfSome};
ghost use Rattle.nano_spec.specs.Cutting.{Cutting};
ghost use Rattle.machine_c.specs.Calls.{StepComesTo, ComesTo, IsStepped, IsUndone, changed_by, rule_told, offset_by, status_of_step, status_of_undo};

use crate::handle::Handle;
use crate::reading::high;
use crate::reports::{BrokenReport, StepReport};
use crate::status::{BROKEN, COMMANDS, COUNT, DONE, ENDED, LONG, MEMORY, NO_MACHINE, NO_NOTE};
use kept_machine::{KeptMachine, NoStep, StepDone};
use nano_spec::Command;
use std::alloc::Global;
use trace_codec::{One, TraceFault, TraceRefusal, decode_all, decode_one};

/// The outcome of a step whose commands are given as bytes.
#[derive(Clone, Copy)]
pub enum StepAnswer {
    /// The step was made.
    Made(StepDone),
    /// The machine did not make the step.
    Refused(NoStep),
    /// The bytes were not decoded.
    Unread(TraceFault),
}

impl StepAnswer {
    /// Returns the status of the answer.
    pub fn status(self) -> u32
        ensures { result ≡ status_of_step self }
    {
        match self {
            StepAnswer::Made(_) => DONE,
            StepAnswer::Refused(NoStep::Broken(_)) => BROKEN,
            StepAnswer::Refused(NoStep::Ended) => ENDED,
            StepAnswer::Refused(NoStep::Count) => COUNT,
            StepAnswer::Refused(NoStep::Long) => LONG,
            StepAnswer::Refused(NoStep::Memory) => MEMORY,
            StepAnswer::Unread(TraceFault::Refused(_)) => COMMANDS,
            StepAnswer::Unread(TraceFault::Memory) => MEMORY,
        }
    }

    /// Returns the broken rule, all fields 0 if there is none.
    pub fn broken_rule(self) -> BrokenReport
        ensures { result ≡ rule_told self }
    {
        match self {
            StepAnswer::Refused(NoStep::Broken(broken)) => BrokenReport::of(broken),
            _ => BrokenReport::none(),
        }
    }

    /// Returns the offset of the bad or cut command, or 0 if there is none.
    pub fn offset(self) -> u64
        ensures { result ≡ offset_by self }
    {
        match self {
            StepAnswer::Unread(TraceFault::Refused(TraceRefusal::Bad { offset })) => offset,
            StepAnswer::Unread(TraceFault::Refused(TraceRefusal::Cut { offset })) => offset,
            _ => 0,
        }
    }

    /// Returns the number of voxels that the step changes.
    pub fn changed(self) -> u32
        ensures { result ≡ changed_by self }
    {
        match self {
            StepAnswer::Made(made) => made.changed,
            StepAnswer::Refused(_) | StepAnswer::Unread(_) => 0,
        }
    }
}

/// Returns the command that the bytes spell, if they spell exactly one.
pub fn only_command(bytes: &[u8]) -> Option<Command>
    ensures { IfSome result (λ command. Cutting bytes.now (command ∷ [])) }
{
    match decode_one(bytes) {
        One::Got { command, len } => {
            if usize::from(len) == bytes.len() {
                return Some(command);
            }
            None
        }
        One::More | One::Bad => None,
    }
}

/// Makes the step of these commands.
fn step_of(machine: &mut KeptMachine, commands: &[Command]) -> StepAnswer
    ensures { StepComesTo machine.old commands.now machine.new result }
{
    match machine.step(commands) {
        Ok(made) => StepAnswer::Made(made),
        Err(fault) => StepAnswer::Refused(fault),
    }
}

/// Makes the step that the bytes spell. A single command is decoded without allocation.
fn step_by(alloc: Global, machine: &mut KeptMachine, bytes: &[u8]) -> StepAnswer
    ensures { ComesTo machine.old bytes.now machine.new result }
{
    if let Some(command) = only_command(bytes) {
        return step_of(machine, &[command]);
    }
    match decode_all(alloc, bytes) {
        Ok(commands) => step_of(machine, commands.as_slice()),
        Err(fault) => StepAnswer::Unread(fault),
    }
}

/// Makes one step. The bytes spell one command for each active bot, in rising order of their bids. A refused step leaves the
/// machine as it was.
#[unsafe(no_mangle)]
pub extern "C" fn nanobot_machine_step(
    alloc: Global,
    handle: &mut Handle,
    commands: &[u8],
    told: &mut StepReport,
) -> u32
    ensures { IsStepped handle.old.machine commands.now handle.new.machine told.old told.new result }
{
    let Some(mut machine) = handle.take(alloc) else {
        return NO_MACHINE;
    };
    let answer = step_by(alloc, &mut machine, commands);
    *told = StepReport {
        energy: machine.energy(),
        offset: answer.offset(),
        steps: machine.steps_done(),
        active: u32::from(machine.active()),
        broken: answer.broken_rule(),
        high: high(machine.harmonics()),
        changed: answer.changed(),
    };
    handle.put(machine);
    answer.status()
}

/// Returns the status of an undo.
fn undo_status(is_undone: bool) -> u32
    ensures { result ≡ status_of_undo is_undone }
{
    if is_undone {
        return DONE;
    }
    NO_NOTE
}

/// Undoes the last step, if one is noted.
#[unsafe(no_mangle)]
pub extern "C" fn nanobot_machine_undo(alloc: Global, handle: &mut Handle) -> u32
    ensures { IsUndone handle.old.machine handle.new.machine result }
{
    let Some(mut machine) = handle.take(alloc) else {
        return NO_MACHINE;
    };
    let is_undone = machine.undo();
    handle.put(machine);
    undo_status(is_undone)
}
