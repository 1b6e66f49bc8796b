//! The debugger.
ghost use Rattle.std.specs.Prelude.{◌≡◌, ℕ, ◌+◌, ◌*◌, ◌<◌, ◌≤◌, ◌↔◌, ◌==◌, ◌++◌, ◌∷◌, [], false, true, length, count_by, slice_index, IfOk, IfErr, IfNone, IfSome, IsSomeAnd, OnOk, IsFalse, IsPermutation, None, Err};
ghost use Rattle.nano_spec.specs.Act.{acts};
ghost use Rattle.nano_spec.specs.Group.{leaders};
ghost use Rattle.nano_spec.specs.Grounded.{FirstUngrounded};
ghost use Rattle.nano_spec.specs.Matrix.{is_full};
ghost use Rattle.nano_spec.specs.Rules.{broken};
ghost use Rattle.nano_spec.specs.State.{origin};
ghost use Rattle.nano_spec.specs.Work.{volatile_total};
ghost use Rattle.system_state.specs.Turns.{AreTurns};
ghost use Rattle.vox_geom.specs.Space.{IsInSpace};
ghost use Rattle.step_debugger.specs.Calls.{back_report, group_report, step_report};
ghost use Rattle.step_debugger.specs.Debugging.{situation_of};
ghost use Rattle.step_debugger.specs.Readiness.{IsUnready};
ghost use Rattle.step_debugger.specs.Session.{AnswersLine, Back, Group, Step, middle_state, TriesStep as StepsOf, next_commands as next_of, next_leaders, opened};
ghost use Rattle.step_debugger.specs.Touches.{IfRefused, IsRefusedWithin, IsTouchedBack, IsWithinWorkOf};

use crate::fault::DebugFault;
use crate::middle::full_after;
use crate::steps::{append, drops_groups, next_commands, place_of, take_back, trace_ends};
use arrayvec::ArrayVec;
use bot_crew::{Crew, MOST_BOTS};
use circular_buffer::HeapCircularBuffer;
use nano_spec::{Broken, CommandList, Profile};
use std::alloc::Global;
use std::marker::Model;
use std::sync::ledger::Ledger;
use step_machine::{Machine, StepFault, StepOk, Undo};
use step_order::{groups_take_turns, some_groups};
use system_state::Turns;
use vox_geom::{Coord, Memory, Steps};
use vox_planes::Planes;

/// The most steps that can be undone.
const MOST_HISTORY: usize = 4096;

/// The step debugger over the commands of a trace. Contracts see a session, the commands, and whether it is poisoned (`spent`).
#[derive(Drop)]
pub struct Debugger {
    machine: Machine,
    history: HeapCircularBuffer<Undo>,
    commands: CommandList,
    taken: u32,
    begun: ArrayVec<u8, MOST_BOTS>,
    left: ArrayVec<u8, MOST_BOTS>,
    middle: Crew,
}

impl Model for Debugger {
    ghost use Rattle.step_debugger.specs.Debugging.{Debugging, debugging_of};
    ghost use Rattle.step_debugger.specs.Kept.{IsKept};

    ghost Value = { Debugging };

    ghost view = { λ d. debugging_of d.machine d.history.items d.commands d.taken d.begun.items };

    ghost invariant = { λ d. IsKept d.machine d.history d.commands d.taken d.begun.items d.left.items d.middle };
}

impl Debugger {
    /// Returns the debugger before the first step of a trace, over a source whose full voxels are grounded.
    pub fn start<L: Ledger>(
        alloc: Global,
        source: Planes,
        profile: Profile,
        commands: CommandList,
        steps: &mut Steps<L>,
    ) -> Result<Debugger, Memory>
        requires grounded { FirstUngrounded source None }
        requires seeds { profile.seeds ≤ 39 }
        requires void { IsFalse (is_full source origin) }
        requires few { length commands < 1073741824 }
        ensures { IfOk result
            (λ d. d ≡ record { session = opened source profile; commands = commands; spent = false }) }
    {
        let machine = Machine::start(alloc, source, profile, steps)?;
        let history = HeapCircularBuffer::with_capacity(alloc, MOST_HISTORY)?;
        let middle = machine.crew().copy();
        Ok(Debugger {
            machine,
            history,
            commands,
            taken: 0,
            begun: ArrayVec::new(),
            left: ArrayVec::new(),
            middle,
        })
    }

    /// Returns the machine in the state before the current step.
    pub fn machine(&self) -> &Machine
        requires { self.now.spent ≡ false }
        ensures { result.now ≡ situation_of self.now.session.point false }
    {
        &self.machine
    }

    /// Returns the leaders of the begun groups, in the order in which they began.
    pub fn begun(&self) -> &[u8]
        ensures { result.now ≡ self.now.session.begun }
    {
        self.begun.as_slice()
    }

    /// Returns the number of steps that can be undone, at most 4,096.
    pub fn history(&self) -> u16
        ensures value { result ≡ length self.now.session.past }
        ensures most { result ≤ 4096 }
    {
        self.history.len() as u16
    }

    /// Returns the bots after the begun groups.
    pub fn middle_crew(&self) -> &Crew
        requires { self.now.spent ≡ false }
        ensures { IsSomeAnd (middle_state self.now.commands self.now.session) (λ m. result.now ≡ m.bots) }
    {
        some_groups();
        self.machine.recall();
        &self.middle
    }

    /// Returns whether a voxel is full after the begun groups.
    pub fn middle_full<L: Ledger>(&self, c: Coord, steps: &mut Steps<L>) -> bool
        requires stands { self.now.spent ≡ false }
        requires within { IsInSpace self.now.session.point.state.matrix.resolution c }
        ensures value { IsSomeAnd (middle_state self.now.commands self.now.session) (λ m. result ≡ is_full m.matrix c) }
        ensures touches { steps.new ≤ steps.old + 1 }
    {
        some_groups();
        self.machine.recall();
        if self.begun.is_empty() {
            return self.machine.matrix().full_at(c, steps);
        }
        let count = self.machine.active();
        let next = next_commands(self.commands.as_slice(), self.taken, count);
        full_after(&self.machine, next, self.begun.as_slice(), c, steps)
    }

    /// Returns whether the debugger is poisoned because allocation failed: no further call may be made then.
    pub fn spent(&self) -> bool
        ensures { result ≡ self.now.spent }
    {
        self.machine.spent()
    }

    /// Makes the next step: first the begun groups, and then the others in rising order of their leaders.
    pub fn step<L: Ledger>(&mut self, steps: &mut Steps<L>) -> Result<StepOk, DebugFault>
        requires { self.old.spent ≡ false }
        ensures session { IfSome (step_report self.new.session.point.steps result)
            (AnswersLine self.old.commands Step self.old.session self.new.session) }
        ensures commands { self.new.commands ≡ self.old.commands }
        ensures spent { result ≡ Err DebugFault.Memory ↔ self.new.spent ≡ true }
        ensures touches { IfOk result
            (λ _. IsWithinWorkOf 100 self.old.commands self.old.session.point steps.old steps.new) }
        ensures touches_refused { IfRefused result
            (λ b. IsRefusedWithin 100 self.old.commands self.old.session.point b steps.old steps.new) }
    {
        self.ready()?;
        let order = self.order();
        self.make(order.as_slice(), steps)
    }

    /// Returns an error if the next step cannot be judged: no bot is active, or one has no command.
    fn ready(&self) -> Result<(), DebugFault>
        requires { self.now.spent ≡ false }
        ensures some { OnOk result (1 ≤ length self.now.session.point.state.bots) }
        ensures all { OnOk result
            (length (next_of self.now.commands self.now.session.point) ≡ length self.now.session.point.state.bots) }
        ensures unready { IfErr result (IsUnready self.now.commands self.now.session.point) }
    {
        let count = self.machine.active();
        if count == 0 {
            return Err(DebugFault::Ended);
        }
        let next = next_commands(self.commands.as_slice(), self.taken, count);
        if next.len() < usize::from(count) {
            return Err(DebugFault::Broken(trace_ends(&self.machine, next)));
        }
        Ok(())
    }

    /// Returns the order in which the groups of the next step are applied: first the begun ones, and then the others.
    fn order(&self) -> ArrayVec<u8, MOST_BOTS>
        requires stands { self.now.spent ≡ false }
        requires all { length (next_of self.now.commands self.now.session.point)
            ≡ length self.now.session.point.state.bots }
        ensures { IsPermutation (next_leaders self.now.commands self.now.session.point) result.items }
    {
        self.machine.recall();
        if self.begun.is_empty() {
            let count = self.machine.active();
            return self
                .machine
                .leaders(next_commands(self.commands.as_slice(), self.taken, count));
        }
        let mut order = ArrayVec::new();
        append(&mut order, self.begun.as_slice());
        append(&mut order, self.left.as_slice());
        order
    }

    /// Makes the next step, applying its groups in the given order of their leaders.
    fn make<L: Ledger>(&mut self, order: &[u8], steps: &mut Steps<L>) -> Result<StepOk, DebugFault>
        requires stands { self.old.spent ≡ false }
        requires some { 1 ≤ length self.old.session.point.state.bots }
        requires all { length (next_of self.old.commands self.old.session.point)
            ≡ length self.old.session.point.state.bots }
        requires order { IsPermutation (next_leaders self.old.commands self.old.session.point) order.now }
        ensures session { IfSome (step_report self.new.session.point.steps result)
            (StepsOf self.old.commands self.old.session self.new.session) }
        ensures commands { self.new.commands ≡ self.old.commands }
        ensures spent { result ≡ Err DebugFault.Memory ↔ self.new.spent ≡ true }
        ensures touches { IfOk result
            (λ _. IsWithinWorkOf 100 self.old.commands self.old.session.point steps.old steps.new) }
        ensures touches_refused { IfRefused result
            (λ b. IsRefusedWithin 100 self.old.commands self.old.session.point b steps.old steps.new) }
    {
        let count = self.machine.active();
        let next = next_commands(self.commands.as_slice(), self.taken, count);
        match self.machine.step_noted(next, order, steps) {
            Ok((ok, undo)) => {
                self.history.push_back(undo);
                self.taken += u32::from(count);
                self.begun.clear();
                self.middle = self.machine.crew().copy();
                Ok(ok)
            }
            Err(StepFault::Broken(broken)) => {
                if !drops_groups(&broken) {
                    return Err(DebugFault::Broken(broken));
                }
                self.begun.clear();
                self.middle = self.machine.crew().copy();
                Err(DebugFault::Broken(broken))
            }
            Err(StepFault::Memory) => Err(DebugFault::Memory),
            Err(StepFault::Spent) => Err(DebugFault::Memory),
        }
    }

    /// Applies the group of a leader. The last group makes the step.
    pub fn group<L: Ledger>(
        &mut self,
        leader: u8,
        steps: &mut Steps<L>,
    ) -> Result<Option<StepOk>, DebugFault>
        requires { self.old.spent ≡ false }
        ensures session { IfSome (group_report leader self.new.session.point.steps result)
            (AnswersLine self.old.commands (Group leader) self.old.session self.new.session) }
        ensures commands { self.new.commands ≡ self.old.commands }
        ensures spent { result ≡ Err DebugFault.Memory ↔ self.new.spent ≡ true }
        ensures touches { IfOk result
            (λ _. IsWithinWorkOf 102 self.old.commands self.old.session.point steps.old steps.new) }
        ensures touches_refused { IfRefused result
            (λ b. IsRefusedWithin 102 self.old.commands self.old.session.point b steps.old steps.new) }
    {
        self.ready()?;
        let mut turns = Turns::new();
        if let Some(broken) = self.judge(&mut turns, steps) {
            return Err(DebugFault::Broken(broken));
        }
        let left = self.leaders_left();
        let Some(place) = place_of(left.as_slice(), leader) else {
            return Err(DebugFault::NotLeader { leader });
        };
        if left.as_slice().len() > 1 {
            self.begin(leader, left, place, &turns);
            return Ok(None);
        }
        let order = self.order();
        match self.make(order.as_slice(), steps) {
            Ok(ok) => Ok(Some(ok)),
            Err(fault) => Err(fault),
        }
    }

    /// Returns the rule that the next commands break, of those that are judged at a step's start.
    fn judge<L: Ledger>(&self, turns: &mut Turns, steps: &mut Steps<L>) -> Option<Broken>
        requires stands { self.now.spent ≡ false }
        requires some { 1 ≤ length self.now.session.point.state.bots }
        requires all { length (next_of self.now.commands self.now.session.point)
            ≡ length self.now.session.point.state.bots }
        ensures value { result
            ≡ broken self.now.session.point.state (next_of self.now.commands self.now.session.point)
            (self.now.session.point.steps + 1) }
        ensures turns { IfNone result
            (AreTurns (acts self.now.session.point.state.bots (next_of self.now.commands self.now.session.point))
            (leaders (acts self.now.session.point.state.bots (next_of self.now.commands self.now.session.point)))
            turns.new) }
        ensures touches { steps.new ≤ steps.old + 2 * volatile_total self.now.session.point.state.matrix
            (acts self.now.session.point.state.bots (next_of self.now.commands self.now.session.point)) }
    {
        let count = self.machine.active();
        let next = next_commands(self.commands.as_slice(), self.taken, count);
        let step = self.machine.steps_done() + 1;
        self.machine.system().judge(next, step, turns, steps)
    }

    /// Returns the leaders of the groups that are not begun.
    fn leaders_left(&self) -> ArrayVec<u8, MOST_BOTS>
        requires stands { self.now.spent ≡ false }
        requires all { length (next_of self.now.commands self.now.session.point)
            ≡ length self.now.session.point.state.bots }
        ensures leaders { IsPermutation (next_leaders self.now.commands self.now.session.point)
            (self.now.session.begun ++ result.items) }
        ensures differ { (bid : ℕ)
            → count_by (λ k. k == bid) (next_leaders self.now.commands self.now.session.point) ≤ 1 }
        ensures few { length self.now.session.begun + length result.items ≤ MOST_BOTS }
    {
        self.machine.recall();
        if self.begun.is_empty() {
            let count = self.machine.active();
            return self
                .machine
                .leaders(next_commands(self.commands.as_slice(), self.taken, count));
        }
        let mut left = ArrayVec::new();
        append(&mut left, self.left.as_slice());
        left
    }

    /// Begins the group at an index among those that are not begun.
    fn begin(&mut self, leader: u8, left: ArrayVec<u8, MOST_BOTS>, place: usize, turns: &Turns)
        requires turns { AreTurns
            (acts self.old.session.point.state.bots (next_of self.old.commands self.old.session.point))
            (leaders (acts self.old.session.point.state.bots (next_of self.old.commands self.old.session.point)))
            turns.now }
        requires stands { self.old.spent ≡ false }
        requires keeps { broken self.old.session.point.state (next_of self.old.commands self.old.session.point)
            (self.old.session.point.steps + 1)
            ≡ None }
        requires leaders { IsPermutation (next_leaders self.old.commands self.old.session.point)
            (self.old.session.begun ++ left.items) }
        requires few { length self.old.session.begun + length left.items ≤ MOST_BOTS }
        requires place { place < length left.items }
        requires leader { slice_index left.items place ≡ leader }
        ensures { self.new
            ≡ record self.old { session = record self.old.session { begun = self.old.session.begun ++ leader ∷ [] } } }
    {
        groups_take_turns();
        self.machine.recall();
        let count = self.machine.active();
        let next = next_commands(self.commands.as_slice(), self.taken, count);
        let system = self.machine.system();
        system.move_group(&mut self.middle, next, turns, leader);
        self.left = left;
        self.left.remove(place);
        self.begun.push(leader);
    }

    /// Drops the begun groups, or undoes the last step if there are none.
    pub fn back<L: Ledger>(&mut self, steps: &mut Steps<L>) -> Result<(), DebugFault>
        requires { self.old.spent ≡ false }
        ensures session { IfSome (back_report self.new.session.point result)
            (AnswersLine self.old.commands Back self.old.session self.new.session) }
        ensures commands { self.new.commands ≡ self.old.commands }
        ensures spent { result ≡ Err DebugFault.Memory ↔ self.new.spent ≡ true }
        ensures touches { IfOk result
            (λ _. IsTouchedBack self.old.session.point.state.matrix self.new.session.point.state.matrix steps.old
            steps.new) }
    {
        if !self.begun.is_empty() {
            self.begun.clear();
            self.middle = self.machine.crew().copy();
            return Ok(());
        }
        let Some(undo) = self.history.pop_back() else {
            return Err(DebugFault::NoHistory);
        };
        match take_back(&mut self.machine, undo, steps) {
            Ok(count) => self.taken -= u32::from(count),
            Err(Memory) => return Err(DebugFault::Memory),
        }
        self.middle = self.machine.crew().copy();
        Ok(())
    }
}
