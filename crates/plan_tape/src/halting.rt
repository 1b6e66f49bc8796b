//! The plan that changes nothing.
ghost use Rattle.std.specs.Prelude.{◌≡◌, ℕ, ◌≤◌, [], ◌∷◌, IfOk, IsTrue};
ghost use Rattle.nano_spec.specs.Grounded.{FirstUngrounded};
ghost use Rattle.nano_spec.specs.Matrix.{Matrix as MatrixValue};
ghost use Rattle.nano_spec.specs.Profile.{is_allowed};
ghost use Rattle.plan_tape.specs.Progress.{AreAlike, IsAccepted};
ghost use Rattle.plan_tape.specs.Reaches.{HasAtMost};

use crate::tape::{Plan, Tape};
use nano_spec::{Command, Profile};
use std::alloc::Global;
use vox_geom::Memory;
use vox_planes::Planes;

/// Returns a Halt alone, if the source is grounded: the plan of every target with the source's voxels.
pub fn halt_alone(alloc: Global, source: Planes, profile: Profile) -> Result<Plan, Memory>
    requires grounded { FirstUngrounded source None }
    requires seeds { profile.seeds ≤ 39 }
    requires allowed { IsTrue (is_allowed profile Command.Halt) }
    ensures accepted { IfOk result (λ plan. (target : MatrixValue) → AreAlike source target
        → IsAccepted source target plan.commands profile plan.energy plan.steps) }
    ensures commands { IfOk result (λ plan. plan.commands ≡ Command.Halt ∷ []) }
    ensures steps { IfOk result (λ plan. plan.steps ≡ 1) }
    ensures few { IfOk result (λ plan. (most : ℕ) → 1 ≤ most → HasAtMost source profile plan.commands most) }
{
    let mut tape = Tape::start_as(alloc, source, profile)?;
    tape.halt()?;
    Ok(tape.finish())
}
