//! The reasons why a call of the debugger fails.
ghost use Rattle.std.specs.Prelude.{◌≡◌};
ghost use Rattle.step_debugger.specs.Calls.{debug_fault_number};

use nano_spec::Broken;

/// The reason why a call of the debugger failed.
#[derive(Clone, Copy, PartialEq, Eq, Debug)]
pub enum DebugFault {
    /// The next commands break this rule.
    Broken(Broken),
    /// No bot is active.
    Ended,
    /// There is no earlier step to undo.
    NoHistory,
    /// The bid is no leader of the step, or its group is begun.
    NotLeader { leader: u8 },
    /// Allocation failed: no further call may be made.
    Memory,
}

impl DebugFault {
    /// Returns the number of the fault.
    pub fn number(self) -> u8
        ensures { result ≡ debug_fault_number self }
    {
        match self {
            DebugFault::Broken(_) => 1,
            DebugFault::Ended => 2,
            DebugFault::NoHistory => 3,
            DebugFault::NotLeader { .. } => 4,
            DebugFault::Memory => 5,
        }
    }
}
