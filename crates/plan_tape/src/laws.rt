//! Laws of the states that commands reach: a bound on the bots, and the run through them.
ghost use Rattle.std.specs.Prelude.{ℕ, ◌+◌, ℤ, ◌++◌, ◌↔◌, List, count_by};
ghost use Rattle.nano_spec.specs.declared.commands.Command.{Command};
ghost use Rattle.nano_spec.specs.declared.outcomes.Verdict.{Verdict};
ghost use Rattle.nano_spec.specs.declared.outcomes.Verdict.TheVariants.{Accepted};
ghost use Rattle.nano_spec.specs.declared.system.Profile.{Profile};
ghost use Rattle.nano_spec.specs.Cutting.{AreCommands};
ghost use Rattle.nano_spec.specs.Matrix.{Matrix};
ghost use Rattle.nano_spec.specs.State.{State};
ghost use Rattle.nano_spec.specs.Verdict.{Run, VerdictOf};
ghost use Rattle.vox_planes.specs.Voxel.{IsWhole};
ghost use Rattle.plan_tape.specs.Fissions.{is_fission};
ghost use Rattle.plan_tape.specs.Reaches.{HasAtMost, IsDecided, Reaches, ReachesTarget};
ghost use Rattle.plan_tape.specs.Worked.{WorkedCrews};

/// A state that commands reach, every step accepted, has at most as many bots as the profile has seeds, and one more.
pub fn seeds_bound_the_bots()
    ensures { (source : Matrix) (profile : Profile) (commands : List Command) → IsWhole source → AreCommands commands
        → HasAtMost source profile commands (profile.seeds + 1) }
{}

/// A state that commands reach has at most as many bots as there are Fissions among the commands, and one more.
pub fn fissions_bound_the_bots()
    ensures { (source : Matrix) (profile : Profile) (commands : List Command)
        → HasAtMost source profile commands (1 + count_by is_fission commands) }
{}

/// A run of the definitions goes through the states that its commands reach. The verdict on a trace is that on the rest of it, from
/// a state that a prefix reaches (onward); each verdict is decided at such a state (decided); and the definitions accept a trace
/// exactly if all of it reaches a state without bots whose voxels are those of the target (accepted).
pub fn runs_go_through_reached_states()
    ensures onward { (source target : Matrix) (profile : Profile) (before rest : List Command) (s : State) (done : ℕ)
        (verdict : Verdict)
        → Reaches source profile before s done
        → (VerdictOf source target (before ++ rest) profile verdict ↔ Run target s rest done verdict) }
    ensures decided { (source target : Matrix) (profile : Profile) (commands : List Command) (verdict : Verdict)
        → VerdictOf source target commands profile verdict → IsDecided source target profile commands verdict }
    ensures accepted { (source target : Matrix) (profile : Profile) (commands : List Command) (energy : ℤ) (steps : ℕ)
        →
        (VerdictOf source target commands profile (Accepted energy steps)
        ↔ ReachesTarget source target profile commands energy steps) }
{}

/// Worked examples of commands that exceed a number of bots.
pub fn worked_crews()
    ensures { WorkedCrews }
{}
