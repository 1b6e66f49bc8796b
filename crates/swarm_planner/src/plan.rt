//! The plan.
ghost use Rattle.std.specs.Prelude.{◌≡◌, ◌≢◌, ◌+◌, ◌*◌, ◌<◌, ◌≤◌, [], ◌∷◌, IfOk, OnOk};
ghost use Rattle.nano_spec.specs.Legal.{IsLegal};
ghost use Rattle.nano_spec.specs.Matrix.{empty};
ghost use Rattle.nano_spec.specs.Profile.{full_profile, light_profile};
ghost use Rattle.plan_tape.specs.Progress.{IsAccepted, IsVoidFrom};
ghost use Rattle.plan_tape.specs.Reaches.{HasAtMost};
ghost use Rattle.swarm_planner.specs.Phases.{IsErected, SwarmIsOpened};
ghost use Rattle.swarm_planner.specs.Bounds.{width};

use crate::crew::{gather, spread};
use crate::paint::build;
use nano_spec::{Command, Profile, full_accepts_what_light_accepts};
use plan_tape::{Plan, Tape, close, halt_alone, lowest_difference, seeds_bound_the_bots};
use std::alloc::Global;
use vox_geom::{Coord, Memory};
use vox_planes::Planes;

/// Returns the tape with the bot in the first column, above the floor, under High.
fn open(alloc: Global, nothing: Planes) -> Result<Tape, Memory>
    requires some { 3 ≤ nothing.resolution }
    requires void { IsVoidFrom nothing 0 }
    ensures { IfOk result (λ t. SwarmIsOpened t nothing) }
{
    nothing.recall();
    let mut tape = Tape::start_as(alloc, nothing, Profile::light())?;
    tape.flip()?;
    tape.go(Coord { x: 1, y: 1, z: 0 })?;
    Ok(tape)
}

/// Spreads the crew, builds the target, and gathers the crew again.
fn erect(tape: &mut Tape, target: &Planes) -> Result<(), Memory>
    requires opened { SwarmIsOpened tape.old tape.old.source }
    requires target { IsLegal target.now }
    requires same { target.now.resolution ≡ tape.old.source.resolution }
    ensures source { OnOk result (tape.new.source ≡ tape.old.source) }
    ensures erected { OnOk result (IsErected tape.new target.now) }
{
    target.recall();
    spread(tape)?;
    build(tape, target)?;
    gather(tape)?;
    tape.recall_whole();
    Ok(())
}

/// Returns the plan of the swarm for a target that is not empty.
fn plan_from(alloc: Global, nothing: Planes, target: &Planes) -> Result<Plan, Memory>
    requires target { IsLegal target.now }
    requires same { nothing.resolution ≡ target.now.resolution }
    requires void { IsVoidFrom nothing 0 }
    requires differ { nothing ≢ target.now }
    ensures accepted { IfOk result
        (λ plan. IsAccepted nothing target.now plan.commands light_profile plan.energy plan.steps) }
    ensures few { IfOk result (λ plan. HasAtMost nothing light_profile plan.commands 20) }
    ensures steps { IfOk result
        (λ plan. plan.steps ≤ 4 * width target.now.resolution * target.now.resolution * target.now.resolution + 8 *
        target.now.resolution + 2000) }
{
    seeds_bound_the_bots();
    nothing.recall();
    target.recall();
    let mut tape = open(alloc, nothing)?;
    erect(&mut tape, target)?;
    close(tape)
}

/// Plans for up to 20 bots that build a target from nothing, under the light profile, and so under the full one. The target is
/// legal.
///
/// If the widest strip has s columns, the plan takes at most 4 * s * r * r + 8 * r + 2000 steps at resolution r. It has at most 20
/// bots at a time. If the target is empty, its commands are a Halt alone.
pub fn plan_swarm(alloc: Global, target: &Planes) -> Result<Plan, Memory>
    requires { IsLegal target.now }
    ensures light { IfOk result
        (λ plan. IsAccepted (empty target.now.resolution) target.now plan.commands light_profile plan.energy
        plan.steps) }
    ensures full { IfOk result
        (λ plan. IsAccepted (empty target.now.resolution) target.now plan.commands
        full_profile plan.energy plan.steps) }
    ensures steps { IfOk result
        (λ plan. plan.steps ≤ 4 * width target.now.resolution * target.now.resolution * target.now.resolution + 8 *
        target.now.resolution + 2000) }
    ensures few { IfOk result (λ plan. HasAtMost (empty target.now.resolution) light_profile plan.commands 20) }
    ensures halt_alone { target.now ≡ empty target.now.resolution
        → IfOk result (λ plan. plan.commands ≡ Command.Halt ∷ []) }
{
    full_accepts_what_light_accepts();
    let nothing = Planes::empty(alloc, target.resolution())?;
    let Some(_) = lowest_difference(&nothing, target) else {
        return halt_alone(alloc, nothing, Profile::light());
    };
    plan_from(alloc, nothing, target)
}
