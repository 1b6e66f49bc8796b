//! The plan.
ghost use Rattle.std.specs.Prelude.{◌≡◌, ◌+◌, ◌*◌, ◌≤◌, ◌∷◌, [], All, IfErr, IfOk, None};
ghost use Rattle.nano_spec.specs.Legal.{IsLegal};
ghost use Rattle.nano_spec.specs.Matrix.{empty, full_count};
ghost use Rattle.nano_spec.specs.Profile.{full_profile, light_profile};
ghost use Rattle.plan_tape.specs.Progress.{IsAccepted, starting};
ghost use Rattle.plan_tape.specs.Reaches.{HasAtMost};
ghost use Rattle.low_planner.specs.Build.{IsFinished};
ghost use Rattle.low_planner.specs.Commands.{IsEmpty, IsPlain};
ghost use Rattle.low_planner.specs.Fault.{HasCause};
ghost use Rattle.low_planner.specs.Supported.{FirstUnsupported};

use crate::build::{build, go};
use crate::fault::LowFault;
use crate::survey::first_unsupported;
use crate::sweep::Sweep;
use nano_spec::{Command, Profile, full_accepts_what_light_accepts};
use plan_tape::{Plan, Tape};
use std::alloc::Global;
use vox_geom::{Coord, Memory};
use vox_planes::Planes;

/// Returns the tape before the first command, over the empty model of this resolution.
fn start(alloc: Global, target: &Planes) -> Result<Tape, Memory>
    ensures { IfOk result (λ t. t ≡ starting (empty target.now.resolution) light_profile) }
{
    let nothing = Planes::empty(alloc, target.resolution())?;
    Tape::start_as(alloc, nothing, Profile::light())
}

/// Returns the tape after building.
fn erect(alloc: Global, target: &Planes) -> Result<Tape, Memory>
    requires legal { IsLegal target.now }
    requires supported { FirstUnsupported target.now None }
    ensures { IfOk result (IsFinished target.now) }
{
    let mut tape = start(alloc, target)?;
    let mut sweep = Sweep::begin(alloc, target)?;
    build(&mut tape, &mut sweep, target)?;
    Ok(tape)
}

/// Returns the plan, once the bot is home.
fn close(mut tape: Tape, target: &Planes) -> Result<Plan, Memory>
    requires finished { IsFinished target.now tape }
    requires legal { IsLegal target.now }
    ensures accepted { IfOk result
        (λ plan. IsAccepted (empty target.now.resolution) target.now plan.commands light_profile plan.energy
        plan.steps) }
    ensures plain { IfOk result (λ plan. All IsPlain plan.commands) }
    ensures steps { IfOk result
        (λ plan. plan.steps ≤ 4 * full_count target.now + target.now.resolution * target.now.resolution *
        target.now.resolution + 200) }
    ensures halt_alone { IsEmpty target.now → IfOk result (λ plan. plan.commands ≡ Command.Halt ∷ []) }
{
    target.recall();
    go(&mut tape, Coord { x: 0, y: 0, z: 0 })?;
    tape.halt()?;
    Ok(tape.finish())
}

/// Plans for one bot that builds the target, which is legal, under Low all the time. Returns `Unsupported` exactly if some part is
/// unsupported.
///
/// The commands have no Flip and no Fission, so at no time is more than one bot active. They take at most
/// 4 * full + r * r * r + 200 steps at resolution r, full being the number of full voxels. If the target is empty, they are a
/// Halt alone.
pub fn plan_low(alloc: Global, target: &Planes) -> Result<Plan, LowFault>
    requires { IsLegal target.now }
    ensures unsupported { IfErr result (HasCause target.now) }
    ensures supported { IfOk result (λ _. FirstUnsupported target.now None) }
    ensures accepted { IfOk result
        (λ plan. IsAccepted (empty target.now.resolution) target.now plan.commands light_profile plan.energy
        plan.steps) }
    ensures accepted_in_full { IfOk result
        (λ plan. IsAccepted (empty target.now.resolution) target.now plan.commands
        full_profile plan.energy plan.steps) }
    ensures plain { IfOk result (λ plan. All IsPlain plan.commands) }
    ensures steps { IfOk result
        (λ plan. plan.steps ≤ 4 * full_count target.now + target.now.resolution * target.now.resolution *
        target.now.resolution + 200) }
    ensures few { IfOk result (λ plan. HasAtMost (empty target.now.resolution) light_profile plan.commands 1) }
    ensures halt_alone { IsEmpty target.now → IfOk result (λ plan. plan.commands ≡ Command.Halt ∷ []) }
{
    full_accepts_what_light_accepts();
    if let Some(at) = first_unsupported(alloc, target)? {
        return Err(LowFault::Unsupported { at });
    }
    let plan = close(erect(alloc, target)?, target)?;
    Ok(plan)
}
