//! One more command: it is pending, or completes a step.
ghost use Rattle.std.specs.Prelude.{◌≡◌, ◌≢◌, ◌+◌, ◌<◌, ◌≤◌, ◌∷◌, [], ◌++◌, length, count_by, IfOk, IfSome};
ghost use Rattle.step_machine.specs.Edits.{is_edit};
ghost use Rattle.step_machine.specs.Stepped.{Stepped};
ghost use Rattle.trace_judge.specs.Course.{answer_to};

use crate::pending::Pending;
use nano_spec::Command;
use std::sync::ledger::Ledger;
use step_machine::{Machine, StepFault};
use vox_geom::Steps;

/// The outcome of one more command: it is pending, its step was made and left some bot or none, or its step was refused.
#[derive(Clone, Copy, PartialEq, Eq)]
pub(crate) enum Taken {
    Waits,
    Made,
    Halted,
    Refused,
}

/// Takes one more command for the next step, and makes the step once each bot has one. Writes `fault` only if it is refused.
#[inline(always)]
pub(crate) fn take<L: Ledger>(
    machine: &mut Machine,
    pending: &mut Pending,
    command: Command,
    fault: &mut StepFault,
    steps: &mut Steps<L>,
) -> Taken
    requires lacks { length pending.old < length machine.old.state.bots }
    requires steps { machine.old.steps < 1073741824 }
    ensures full { result ≢ Taken.Waits → length pending.old + 1 ≡ length machine.old.state.bots }
    ensures stepped { IfSome (answer_to result machine.new.state fault.new)
        (λ answer. Stepped machine.old machine.new (pending.old ++ command ∷ []) answer steps.old steps.new) }
    ensures cleared { IfSome (answer_to result machine.new.state fault.new)
        (λ answer. IfOk answer (λ _. pending.new ≡ [])) }
    ensures kept { result ≡ Taken.Refused → pending.new ≡ pending.old ++ command ∷ [] }
    ensures memory { result ≡ Taken.Refused → fault.new ≡ StepFault.Memory
        → 1 ≤ count_by is_edit (pending.old ++ command ∷ []) }
    ensures lacks { result ≡ Taken.Waits → length pending.old + 1 < length machine.old.state.bots }
    ensures joins { result ≡ Taken.Waits → pending.new ≡ pending.old ++ command ∷ [] }
    ensures stays { result ≡ Taken.Waits → machine.new ≡ machine.old }
    ensures untouched { result ≡ Taken.Waits → steps.new ≡ steps.old }
{
    machine.recall();
    pending.push(command);
    if pending.as_slice().len() < usize::from(machine.active()) {
        return Taken::Waits;
    }
    match machine.make_step(pending.as_slice(), None, steps) {
        Ok(ok) => {
            pending.clear();
            if ok.halted {
                return Taken::Halted;
            }
            Taken::Made
        }
        Err(refusal) => {
            *fault = refusal;
            Taken::Refused
        }
    }
}
