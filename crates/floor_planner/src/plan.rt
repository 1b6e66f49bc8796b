//! The plan: the way out, the sweep and the way home.
ghost use Rattle.std.specs.Prelude.{IfOk};
ghost use Rattle.nano_spec.specs.Legal.{IsLegal};
ghost use Rattle.nano_spec.specs.Matrix.{empty};
ghost use Rattle.nano_spec.specs.Profile.{full_profile};
ghost use Rattle.plan_tape.specs.Progress.{IsAccepted};
ghost use Rattle.floor_planner.specs.Floor.{IsFlat, IsSweptTo};

use crate::sweep::fill_floor;
use plan_tape::{Plan, Tape, close};
use std::alloc::Global;
use vox_geom::Memory;
use vox_planes::Planes;

/// Returns the tape from the empty model, under High.
fn open(alloc: Global, target: &Planes) -> Result<Tape, Memory>
    ensures { IfOk result (λ tape. IsSweptTo tape target.now 0 0) }
{
    let nothing = Planes::empty(alloc, target.resolution())?;
    let mut tape = Tape::start(alloc, nothing)?;
    tape.flip()?;
    Ok(tape)
}

/// Plans for one bot that builds a legal model that lies on the floor from the empty model.
pub fn plan_floor(alloc: Global, target: &Planes) -> Result<Plan, Memory>
    requires legal { IsLegal target.now }
    requires flat { IsFlat target.now }
    ensures accepted { IfOk result
        (λ plan. IsAccepted (empty target.now.resolution) target.now plan.commands
        full_profile plan.energy plan.steps) }
{
    target.recall();
    let mut tape = open(alloc, target)?;
    fill_floor(&mut tape, target)?;
    close(tape)
}
