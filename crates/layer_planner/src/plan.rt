//! The plan.
ghost use Rattle.std.specs.Prelude.{◌≡◌, ◌+◌, ◌*◌, ◌≤◌, [], ◌∷◌, IfOk, OnOk, length};
ghost use Rattle.nano_spec.specs.Legal.{IsLegal};
ghost use Rattle.nano_spec.specs.Profile.{full_profile};
ghost use Rattle.nano_spec.specs.Spelling.{spellings};
ghost use Rattle.plan_tape.specs.Frame.{HasRisen};
ghost use Rattle.plan_tape.specs.Models.{AreLegalModels};
ghost use Rattle.plan_tape.specs.Progress.{IsAccepted, IsVoidFrom};
ghost use Rattle.plan_tape.specs.Lowest.{IsLowest};
ghost use Rattle.plan_tape.specs.Reaches.{HasAtMost};
ghost use Rattle.layer_planner.specs.Phases.{IsRebuilt};

use crate::paint::{build, clear};
use nano_spec::{Command, Profile};
use plan_tape::{Plan, Tape, close, halt_alone, lowest_difference, rise};
use std::alloc::Global;
use vox_geom::Memory;
use vox_planes::Planes;

/// Voids the source down to the lowest layer in which it differs from the target, and builds the target from there.
fn rebuild(tape: &mut Tape, nothing: &Planes, target: &Planes, low: u16) -> Result<(), Memory>
    requires risen { HasRisen tape.old }
    requires source { IsLegal tape.old.source }
    requires target { IsLegal target.now }
    requires same { target.now.resolution ≡ tape.old.source.resolution }
    requires size { nothing.now.resolution ≡ tape.old.source.resolution }
    requires nothing { IsVoidFrom nothing.now 0 }
    requires lowest { IsLowest tape.old.source target.now low }
    ensures source { OnOk result (tape.new.source ≡ tape.old.source) }
    ensures rebuilt { OnOk result (IsRebuilt tape.new target.now) }
{
    target.recall();
    clear(tape, nothing, low)?;
    build(tape, target, low)?;
    tape.recall_whole();
    Ok(())
}

/// Plans from the source to the target, both legal, for one bot. The commands have at most 8 * r * r * r + 200 bytes at resolution
/// r, and at no time is more than one bot active. If both models are the same, they are a Halt alone. Layers below the lowest one
/// in which the models differ are left alone.
pub fn plan_layers(alloc: Global, source: &Planes, target: &Planes) -> Result<Plan, Memory>
    requires { AreLegalModels source.now target.now }
    ensures accepted { IfOk result
        (λ plan. IsAccepted source.now target.now plan.commands full_profile plan.energy plan.steps) }
    ensures bytes { IfOk result
        (λ plan. length (spellings plan.commands) ≤ 8 * source.now.resolution * source.now.resolution *
        source.now.resolution + 200) }
    ensures few { IfOk result (λ plan. HasAtMost source.now full_profile plan.commands 1) }
    ensures halt_alone { source.now ≡ target.now → IfOk result (λ plan. plan.commands ≡ Command.Halt ∷ []) }
{
    let Some(low) = lowest_difference(source, target) else {
        return halt_alone(alloc, source.copy(alloc)?, Profile::full());
    };
    let nothing = Planes::empty(alloc, target.resolution())?;
    let mut tape = rise(alloc, source.copy(alloc)?)?;
    rebuild(&mut tape, &nothing, target, low)?;
    close(tape)
}
