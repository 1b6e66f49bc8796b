//! The plan.
ghost use Rattle.std.specs.Prelude.{◌≡◌, ◌*◌, ◌≤◌, [], ◌∷◌, IfOk, OnOk, length};
ghost use Rattle.nano_spec.specs.Legal.{IsLegal};
ghost use Rattle.nano_spec.specs.Profile.{full_profile};
ghost use Rattle.nano_spec.specs.Spelling.{spellings};
ghost use Rattle.plan_tape.specs.Models.{AreLegalModels};
ghost use Rattle.plan_tape.specs.Progress.{IsAccepted};
ghost use Rattle.plan_tape.specs.Lowest.{IsLowest};
ghost use Rattle.plan_tape.specs.Reaches.{HasAtMost};
ghost use Rattle.group_planner.specs.Phases.{PairIsOpened, PairHasRebuilt};
ghost use Rattle.group_planner.specs.Bounds.{most_bytes, most_group_steps};

use crate::opening::{gather, open};
use crate::sweep::{build, clear};
use nano_spec::{Command, Profile};
use plan_tape::{Plan, Tape, close, halt_alone, lowest_difference};
use std::alloc::Global;
use vox_geom::Memory;
use vox_planes::Planes;

/// Voids the source down to a layer and builds the target from there.
fn rebuild(tape: &mut Tape, source: &Planes, target: &Planes, low: u16) -> Result<(), Memory>
    requires opened { PairIsOpened tape.old }
    requires source { tape.old.source ≡ source.now }
    requires legal_source { IsLegal source.now }
    requires legal_target { IsLegal target.now }
    requires same { target.now.resolution ≡ source.now.resolution }
    requires lowest { IsLowest source.now target.now low }
    ensures { OnOk result (PairHasRebuilt tape.new source.now target.now) }
{
    source.recall();
    target.recall();
    clear(tape, source, low)?;
    build(tape, target, low)?;
    tape.recall_whole();
    Ok(())
}

/// Plans from the source to the target, both legal, for two bots: at no time are more active. With the runs and rows of both
/// models together, the plan has at most 8 * runs + 160 * rows + 200 * r + 400 steps at resolution r, twice as many commands, and
/// 36 * runs + 640 * rows + 800 * r + 1600 bytes. If both models are the same, the commands are a Halt alone.
pub fn plan_groups(alloc: Global, source: &Planes, target: &Planes) -> Result<Plan, Memory>
    requires { AreLegalModels source.now target.now }
    ensures accepted { IfOk result
        (λ plan. IsAccepted source.now target.now plan.commands full_profile plan.energy plan.steps) }
    ensures steps { IfOk result (λ plan. plan.steps ≤ most_group_steps source.now target.now) }
    ensures commands { IfOk result (λ plan. length plan.commands ≤ 2 * most_group_steps source.now target.now) }
    ensures bytes { IfOk result (λ plan. length (spellings plan.commands) ≤ most_bytes source.now target.now) }
    ensures few { IfOk result (λ plan. HasAtMost source.now full_profile plan.commands 2) }
    ensures halt_alone { source.now ≡ target.now → IfOk result (λ plan. plan.commands ≡ Command.Halt ∷ []) }
{
    source.recall();
    let Some(low) = lowest_difference(source, target) else {
        return halt_alone(alloc, source.copy(alloc)?, Profile::full());
    };
    let mut tape = open(alloc, source.copy(alloc)?)?;
    rebuild(&mut tape, source, target, low)?;
    gather(&mut tape)?;
    close(tape)
}
