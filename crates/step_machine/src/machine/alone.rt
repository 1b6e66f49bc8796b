//! Fast path: the step of the only bot by a command that needs no other bot, with no list of turns or changes.
ghost use Rattle.std.specs.Prelude.{◌≡◌, ◌≢◌, ℕ, ◌+◌, ◌<◌, ◌≤◌, [], ◌∷◌, false, true, length, None};
ghost use Rattle.nano_spec.specs.declared.commands.Command.TheVariants.{SMove};
ghost use Rattle.nano_spec.specs.declared.system.Harmonics.TheVariants.{Low};
ghost use Rattle.nano_spec.specs.Act.{acts};
ghost use Rattle.nano_spec.specs.Grounded.{FirstUngrounded};
ghost use Rattle.nano_spec.specs.Work.{volatile_total};
ghost use Rattle.step_groups.specs.Judging.{edit_of};
ghost use Rattle.step_machine.specs.Alone.{IsSolo, IsTried};
ghost use Rattle.step_machine.specs.Edits.{is_edit};
ghost use Rattle.step_machine.specs.Settling.{IsDeclined};
ghost use Rattle.step_machine.specs.Stepped.{Stepped, answer_of};
ghost use Rattle.step_machine.specs.declared.machine.StepFault.{StepFault as Fault};

use super::{Machine, StepFault, recall_step};
use crate::support::{settle_at_once, settle_one};
use nano_spec::{Command, Harmonics};
use std::sync::ledger::Ledger;
use step_groups::edit;
use vox_geom::{Long, Near, Steps};

/// The outcome of an attempt at the fast path: made, refused, or not applicable, which changes nothing.
#[derive(Clone, Copy, PartialEq, Eq)]
pub enum Tried {
    Made,
    Refused,
    Declined,
}

impl Machine {
    /// Returns whether each full voxel is grounded, if the harmonics require it.
    #[inline(always)]
    fn is_held(&self) -> bool
        requires { self.now.spent ≡ false }
        ensures { result ≡ true → self.now.state.harmonics ≡ Low → FirstUngrounded self.now.state.matrix None }
    {
        match self.system.harmonics() {
            Harmonics::High => true,
            Harmonics::Low => self.forest.floating() == 0,
        }
    }

    /// Makes the step of the only bot by `SMove`. Most moves are by one or above all full voxels, and take the fast path.
    #[inline(always)]
    fn move_alone<L: Ledger>(
        &mut self,
        d: Long,
        fault: &mut StepFault,
        steps: &mut Steps<L>,
    ) -> bool
        requires alone { IsSolo self.old }
        requires steps { self.old.steps < 1073741824 }
        ensures stepped { Stepped self.old self.new (SMove d ∷ []) (answer_of result self.new.state fault.new)
            steps.old steps.new }
        ensures memory { result ≡ false → fault.new ≡ StepFault.Memory → is_edit (SMove d) ≡ true }
    {
        if self.move_at_once(d, steps) {
            return true;
        }
        self.move_far(d, fault, steps)
    }

    /// Makes the step of an `SMove` whose path is void without a search, and returns whether it did. Changes nothing otherwise.
    #[inline(always)]
    fn move_at_once<L: Ledger>(&mut self, d: Long, steps: &mut Steps<L>) -> bool
        requires alone { IsSolo self.old }
        requires steps { self.old.steps < 1073741824 }
        ensures made { result ≡ true → (fault : Fault)
            → Stepped self.old self.new (SMove d ∷ []) (answer_of true self.new.state fault) steps.old steps.new }
        ensures stays { result ≡ false → self.new ≡ self.old }
        ensures touches { steps.new
            ≤ steps.old + volatile_total self.old.state.matrix (acts self.old.state.bots (SMove d ∷ [])) }
    {
        let step = self.steps + 1;
        self.system.recall();
        recall_step(&self.system, &[Command::SMove(d)]);
        if !self.system.move_at_once(d, steps) {
            return false;
        }
        self.steps = step;
        true
    }

    /// Makes the step of the only bot by `SMove` after the fast path was not applicable.
    #[inline(never)]
    fn move_far<L: Ledger>(&mut self, d: Long, fault: &mut StepFault, steps: &mut Steps<L>) -> bool
        requires alone { IsSolo self.old }
        requires steps { self.old.steps < 1073741824 }
        ensures stepped { (began : ℕ)
            → steps.old ≤ began + volatile_total self.old.state.matrix (acts self.old.state.bots (SMove d ∷ []))
            → Stepped self.old self.new (SMove d ∷ []) (answer_of result self.new.state fault.new) began steps.new }
        ensures memory { result ≡ false → fault.new ≡ StepFault.Memory → is_edit (SMove d) ≡ true }
    {
        let step = self.steps + 1;
        self.system.recall();
        recall_step(&self.system, &[Command::SMove(d)]);
        if let Some(broken) = self.system.move_alone(d, step, steps) {
            *fault = StepFault::Broken(broken);
            return false;
        }
        self.steps = step;
        true
    }

    /// Makes the step in which the only bot fills the voxel (or voids it) if that breaks no rule and changes no other level.
    /// Returns whether it did, and changes nothing otherwise.
    #[inline(always)]
    fn edit_at_once<const FULL: bool, L: Ledger>(&mut self, d: Near, steps: &mut Steps<L>) -> bool
        requires alone { IsSolo self.old }
        requires steps { self.old.steps < 1073741824 }
        ensures made { result ≡ true → (fault : Fault)
            → Stepped self.old self.new (edit_of FULL d ∷ []) (answer_of true self.new.state fault) steps.old
            steps.new }
        ensures stays { result ≡ false → self.new ≡ self.old }
        ensures declined { result ≡ false
            → IsDeclined self.old.state (edit_of FULL d ∷ []) (self.old.steps + 1) steps.old steps.new }
    {
        let step = self.steps + 1;
        let commands = [edit(d, FULL)];
        recall_step(&self.system, &commands);
        let Ok(at) = self.system.judge_edit(d, FULL, step) else {
            return false;
        };
        let bit = self.system.matrix().bit_of(at);
        let forest = &mut self.forest;
        match settle_at_once(
            &self.system,
            &commands,
            d,
            at,
            bit,
            FULL,
            step,
            forest,
            steps,
        ) {
            Some(was) => self.system.edit_alone(at, bit, FULL, was),
            None => return false,
        }
        self.steps = step;
        true
    }

    /// Makes the step in which the only bot fills a voxel (or voids it), after the fast path was not applicable. Out of line for
    /// each value of `FULL`: keeps the rest small enough to inline.
    #[inline(never)]
    fn edit_and_settle<const FULL: bool, L: Ledger>(
        &mut self,
        d: Near,
        fault: &mut StepFault,
        steps: &mut Steps<L>,
    ) -> bool
        requires stands { self.old.spent ≡ false }
        requires one { length self.old.state.bots ≡ 1 }
        requires steps { self.old.steps < 1073741824 }
        ensures { (began : ℕ) → IsDeclined self.old.state (edit_of FULL d ∷ []) (self.old.steps + 1) began steps.old
            → Stepped self.old self.new (edit_of FULL d ∷ []) (answer_of result self.new.state fault.new) began
            steps.new }
    {
        let step = self.steps + 1;
        let commands = [edit(d, FULL)];
        recall_step(&self.system, &commands);
        let at = match self.system.judge_edit(d, FULL, step) {
            Ok(at) => at,
            Err(broken) => {
                *fault = StepFault::Broken(broken);
                return false;
            }
        };
        let forest = &mut self.forest;
        match settle_one(&self.system, &commands, d, at, FULL, step, forest, steps) {
            Ok(was) => {
                let bit = self.system.matrix().bit_of(at);
                self.system.edit_alone(at, bit, FULL, was)
            }
            Err(unsettled) => {
                self.spent = true;
                *fault = unsettled;
                return false;
            }
        }
        self.steps = step;
        true
    }

    /// Makes the step in which the only bot fills a voxel (or voids it). Most such steps change no other level and take the fast
    /// path. Kept out of line: inlined, it would make its caller too large to inline.
    #[inline(never)]
    fn edit_alone<const FULL: bool, L: Ledger>(
        &mut self,
        d: Near,
        fault: &mut StepFault,
        steps: &mut Steps<L>,
    ) -> bool
        requires alone { IsSolo self.old }
        requires steps { self.old.steps < 1073741824 }
        ensures { Stepped self.old self.new (edit_of FULL d ∷ []) (answer_of result self.new.state fault.new)
            steps.old steps.new }
    {
        if self.edit_at_once::<FULL, L>(d, steps) {
            return true;
        }
        self.edit_and_settle::<FULL, L>(d, fault, steps)
    }

    /// Returns whether one bot is left, the machine is not poisoned, and each full voxel is grounded if the harmonics require it.
    #[inline(always)]
    pub fn is_alone(&self) -> bool
        ensures { result ≡ true → IsSolo self.now }
    {
        if self.spent || self.active() != 1 {
            return false;
        }
        self.is_held()
    }

    /// Attempts the step of the only bot by a frequent command. Writes `fault` only if the step is refused.
    #[inline(always)]
    pub fn step_alone<L: Ledger>(
        &mut self,
        command: &Command,
        fault: &mut StepFault,
        steps: &mut Steps<L>,
    ) -> Tried
        requires steps { self.old.steps < 1073741824 }
        ensures tried { IsTried self.old self.new command.now result fault.new steps.old steps.new }
        ensures one { result ≢ Tried.Declined → length self.old.state.bots ≡ 1 }
    {
        if !self.is_alone() {
            return Tried::Declined;
        }
        self.step_frequent(command, fault, steps)
    }

    /// [`Machine::step_alone`] if the bot is alone, which still holds after an accepted step.
    #[inline(always)]
    pub fn step_frequent<L: Ledger>(
        &mut self,
        command: &Command,
        fault: &mut StepFault,
        steps: &mut Steps<L>,
    ) -> Tried
        requires alone { IsSolo self.old }
        requires steps { self.old.steps < 1073741824 }
        ensures tried { IsTried self.old self.new command.now result fault.new steps.old steps.new }
        ensures alone { result ≡ Tried.Made → IsSolo self.new }
    {
        match command {
            Command::SMove(d) => {
                if self.move_alone(*d, fault, steps) {
                    return Tried::Made;
                }
                Tried::Refused
            }
            Command::Fill(d) => {
                if self.edit_alone::<true, L>(*d, fault, steps) {
                    return Tried::Made;
                }
                Tried::Refused
            }
            Command::Void(d) => {
                if self.edit_alone::<false, L>(*d, fault, steps) {
                    return Tried::Made;
                }
                Tried::Refused
            }
            _ => Tried::Declined,
        }
    }
}
