//! Errors of a kept machine.
ghost use Rattle.std.specs.Prelude.{◌≡◌};
ghost use Rattle.kept_machine.specs.Calls.{no_step_of};
ghost use Rattle.kept_machine.specs.declared.fault.NoLevel.TheVariants as no_level;
ghost use Rattle.kept_machine.specs.declared.fault.NoStep.TheVariants as no_step;

use nano_spec::Broken;
use step_machine::StepFault;
use vox_geom::Memory;

/// The reason why the machine did not make a step.
#[derive(Clone, Copy, PartialEq, Eq, Debug)]
pub enum NoStep {
    /// The commands break this rule.
    Broken(Broken),
    /// No bot is active.
    Ended,
    /// There are more or fewer commands than active bots.
    Count,
    /// The machine has made 2^30 steps, and makes no more.
    Long,
    /// Out of memory.
    Memory,
}

impl NoStep {
    /// Returns the error for a step that the machine did not make.
    pub(crate) fn of(fault: StepFault) -> NoStep
        ensures { result ≡ no_step_of fault }
    {
        match fault {
            StepFault::Broken(broken) => NoStep::Broken(broken),
            StepFault::Memory => NoStep::Memory,
            StepFault::Spent => NoStep::Memory,
        }
    }
}

impl From<Memory> for NoStep {
    ghost from_gives = { λ _ fault. fault ≡ no_step.Memory };

    fn from(_memory: Memory) -> NoStep {
        NoStep::Memory
    }
}

/// The reason why the machine did not return a level.
#[derive(Clone, Copy, PartialEq, Eq, Debug)]
pub enum NoLevel {
    /// The coordinate is outside the matrix.
    Outside,
    /// Out of memory.
    Memory,
}

impl From<Memory> for NoLevel {
    ghost from_gives = { λ _ fault. fault ≡ no_level.Memory };

    fn from(_memory: Memory) -> NoLevel {
        NoLevel::Memory
    }
}
