//! The verdict on a trace, command by command.
ghost use Rattle.std.specs.Prelude.{List};
ghost use Rattle.nano_spec.specs.declared.commands.Command.{Command};
ghost use Rattle.nano_spec.specs.declared.outcomes.Verdict.{Verdict};
ghost use Rattle.nano_spec.specs.declared.system.Profile.{Profile};
ghost use Rattle.nano_spec.specs.Matrix.{Matrix};
ghost use Rattle.nano_spec.specs.Verdict.{VerdictOf};
ghost use Rattle.run_progress.specs.Progress.{Comes, Finishes, Progress};

/// The progress after all commands, one after another from the opening, finishes with the verdict on the whole trace.
pub fn the_progress_is_the_verdict()
    ensures { (source target : Matrix) (profile : Profile) (commands : List Command) (progress : Progress)
        (verdict : Verdict)
        → Comes source profile commands progress → Finishes target progress verdict
        → VerdictOf source target commands profile verdict }
{}
