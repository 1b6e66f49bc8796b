//! The laws of work, and of the touches that it pays for.
ghost use Rattle.std.specs.Prelude.{◌≡◌, ℕ, ◌+◌, ◌*◌, ◌≤◌, List, [], ◌∷◌, ◌++◌, Option};
ghost use Rattle.nano_spec.specs.declared.commands.Command.{Command as CommandOf};
ghost use Rattle.nano_spec.specs.declared.system.Profile.{Profile};
ghost use Rattle.nano_spec.specs.Matrix.{Matrix};
ghost use Rattle.nano_spec.specs.Model.{volume};
ghost use Rattle.nano_spec.specs.State.{State};
ghost use Rattle.nano_spec.specs.Work.{Levels, Work, WorkOfStep};
ghost use Rattle.run_progress.specs.Progress.{Progress, Pushes, begun};
ghost use Rattle.trace_judge.specs.Payment.{IsPaid, Touches};
ghost use Rattle.trace_judge.specs.Worked.{WorkedTouches};

/// Every matrix has its levels, and so every step and every run has a work.
pub fn every_run_has_work()
    ensures levels { (m : Matrix) → (levels : List (Option ℕ)) × Levels m levels }
    ensures step { (s : State) (commands : List CommandOf) (step : ℕ) → (n : ℕ) × WorkOfStep s commands step n }
    ensures run { (source : Matrix) (commands : List CommandOf) (profile : Profile)
        → (n : ℕ) × Work source commands profile n }
{}

/// The work of a run pays for its touches, command by command: from its opening on, after each more command, and so in total,
/// except one search of the matrix.
pub fn the_work_pays()
    ensures first { (source : Matrix) (profile : Profile) (p : Progress) (start : ℕ) → p ≡ begun source profile
        → IsPaid source profile [] p start start }
    ensures push { (source : Matrix) (profile : Profile) (commands : List CommandOf) (p q : Progress)
        (command : CommandOf) (start before after : ℕ)
        → p.state.matrix.resolution ≡ source.resolution → Pushes p command q → Touches p q command before after
        → IsPaid source profile commands p start before
        → IsPaid source profile (commands ++ command ∷ []) q start after }
    ensures all { (source : Matrix) (profile : Profile) (commands rest : List CommandOf) (p : Progress)
        (start now n : ℕ)
        → IsPaid source profile commands p start now → Work source (commands ++ rest) profile n
        → now ≤ start + 100 * n + volume source.resolution }
{}

/// Worked examples of the touches that the work of a run pays for.
pub fn worked_touches()
    ensures { WorkedTouches }
{}
