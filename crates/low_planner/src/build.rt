//! Moves the bot along a sweep, and fills the voxels that the sweep visits.
ghost use Rattle.std.specs.Prelude.{◌≡◌, ◌+◌, ◌<◌, ◌≤◌, OnOk, None, true};
ghost use Rattle.vox_geom.specs.Space.{IsInSpace};
ghost use Rattle.nano_spec.specs.Legal.{IsLegal};
ghost use Rattle.vox_planes.specs.Voxel.{with_voxel};
ghost use Rattle.plan_tape.specs.Leg.{AreVoidTo, moves_to};
ghost use Rattle.plan_tape.specs.Progress.{spot};
ghost use Rattle.low_planner.specs.Build.{CanFill, CanGoAbove, IsBuilt, IsFinished, IsWorking, Works, above};
ghost use Rattle.low_planner.specs.Supported.{FirstUnsupported};
ghost use Rattle.low_planner.specs.Sweep.{IsSweep};

use crate::sweep::{Sweep, Visit};
use plan_tape::Tape;
use vox_geom::{Coord, Memory, Near};
use vox_planes::Planes;

/// Moves the bot to a coordinate, along three legs that must be void.
pub fn go(tape: &mut Tape, to: Coord) -> Result<(), Memory>
    requires working { IsWorking tape.old }
    requires within { IsInSpace tape.old.matrix.resolution to }
    requires ways { AreVoidTo tape.old.matrix (spot tape.old.bots) to }
    requires limit { tape.old.steps + moves_to (spot tape.old.bots) to ≤ 1073741824 }
    ensures works { OnOk result (Works tape.old tape.new to tape.old.matrix (moves_to (spot tape.old.bots) to)) }
    ensures stays { spot tape.old.bots ≡ to → OnOk result (tape.new.commands ≡ tape.old.commands) }
{
    tape.go(to)
}

/// Moves the bot to the coordinate right above a voxel.
fn go_above(tape: &mut Tape, c: Coord) -> Result<(), Memory>
    requires { CanGoAbove tape.old c }
    ensures { OnOk result
        (Works tape.old tape.new (above c) tape.old.matrix (moves_to (spot tape.old.bots) (above c))) }
{
    tape.recall_whole();
    go(tape, Coord { y: c.y + 1, ..c })
}

/// Moves the bot right above a voxel, and fills that voxel.
fn fill(tape: &mut Tape, c: Coord) -> Result<(), Memory>
    requires { CanFill tape.old c }
    ensures { OnOk result
        (Works tape.old tape.new (above c) (with_voxel tape.old.matrix c true)
        (moves_to (spot tape.old.bots) (above c) + 1)) }
{
    tape.recall_ready();
    go_above(tape, c)?;
    tape.fill(Near::down())
}

/// Moves the bot above each voxel that the sweep visits, and fills those that are not full yet.
pub fn build(tape: &mut Tape, sweep: &mut Sweep, target: &Planes) -> Result<(), Memory>
    requires legal { IsLegal target.now }
    requires supported { FirstUnsupported target.now None }
    requires sweep { IsSweep target.now sweep.old }
    requires built { IsBuilt target.now sweep.old tape.old }
    ensures { OnOk result (IsFinished target.now tape.new) }
{
    target.recall();
    while let Some(visit) = sweep.next(target)? {
        match visit {
            Visit::First(c) => fill(tape, c)?,
            Visit::Onward(c) => fill(tape, c)?,
            Visit::Back(c) => go_above(tape, c)?,
        }
    }
    Ok(())
}
