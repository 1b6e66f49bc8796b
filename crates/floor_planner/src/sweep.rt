//! The sweep: row by row over the floor, a layer above it.
ghost use Rattle.std.specs.Prelude.{◌≡◌, ◌+◌, ◌<◌, OnOk};
ghost use Rattle.nano_spec.specs.Legal.{IsLegal};
ghost use Rattle.floor_planner.specs.Floor.{IsFlat, IsSweptTo};

use plan_tape::Tape;
use vox_geom::{Coord, Memory, Near};
use vox_planes::Planes;
use voxel_reads::is_full;

/// Fills the voxel of the floor at x and z, if the target has it.
fn fill_voxel(tape: &mut Tape, target: &Planes, x: u16, z: u16) -> Result<(), Memory>
    requires legal { IsLegal target.now }
    requires flat { IsFlat target.now }
    requires x { x < target.now.resolution }
    requires z { z < target.now.resolution }
    requires swept { IsSweptTo tape.old target.now x z }
    ensures { OnOk result (IsSweptTo tape.new target.now x (z + 1)) }
{
    target.recall();
    if !is_full(target, Coord { x, y: 0, z }) {
        return Ok(());
    }
    tape.go(Coord { x, y: 1, z })?;
    tape.fill(Near::down())
}

/// Fills the row of x.
fn fill_row(tape: &mut Tape, target: &Planes, x: u16) -> Result<(), Memory>
    requires legal { IsLegal target.now }
    requires flat { IsFlat target.now }
    requires x { x < target.now.resolution }
    requires swept { IsSweptTo tape.old target.now x 0 }
    ensures { OnOk result (IsSweptTo tape.new target.now (x + 1) 0) }
{
    for z in 0..target.resolution() {
        fill_voxel(tape, target, x, z)?;
    }
    Ok(())
}

/// Fills all rows.
pub fn fill_floor(tape: &mut Tape, target: &Planes) -> Result<(), Memory>
    requires legal { IsLegal target.now }
    requires flat { IsFlat target.now }
    requires swept { IsSweptTo tape.old target.now 0 0 }
    ensures { OnOk result (IsSweptTo tape.new target.now target.now.resolution 0) }
{
    for x in 0..target.resolution() {
        fill_row(tape, target, x)?;
    }
    Ok(())
}
