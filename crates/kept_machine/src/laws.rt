//! Laws of kept machines, each the contract of a function without effect.
ghost use Rattle.std.specs.Prelude.{◌≡◌, List, Some};
ghost use Rattle.nano_spec.specs.declared.commands.Command.{Command};
ghost use Rattle.nano_spec.specs.declared.system.Profile.{Profile};
ghost use Rattle.nano_spec.specs.Matrix.{Matrix};
ghost use Rattle.kept_machine.specs.History.{IsLedTo, RunsThrough};
ghost use Rattle.kept_machine.specs.Kept.{Kept};

/// Whatever calls have led to a machine, the commands of its trace lead from the source to its state.
pub fn a_trace_leads_to_its_machine()
    ensures { (source : Matrix) (profile : Profile) (k : Kept) (made : List Command)
        → IsLedTo source profile k → k.trace ≡ Some made → RunsThrough source profile made k }
{}
