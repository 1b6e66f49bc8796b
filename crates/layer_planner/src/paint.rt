//! Changes voxels, rows and layers into those of a goal, from one layer above.
ghost use Rattle.std.specs.Prelude.{◌≡◌, ◌+◌, ◌-◌, ◌*◌, ◌<◌, OnOk};
ghost use Rattle.vox_geom.specs.declared.coordinate.Coord.{Coord as Coordinate};
ghost use Rattle.nano_spec.specs.Matrix.{is_full as is_full_of};
ghost use Rattle.plan_tape.specs.Progress.{IsVoidFrom, top};
ghost use Rattle.layer_planner.specs.Painting.{CanPaint, CanSweep, Paints, layer_bytes, row_bytes, sweep_steps_to};
ghost use Rattle.plan_tape.specs.Parts.{below_layer, from_layer, layer, is_in_line, voxel};
ghost use Rattle.layer_planner.specs.Phases.{end};
ghost use Rattle.vox_geom.specs.Point.{coord};

use plan_tape::Tape;
use vox_geom::{Coord, Memory, Near};
use vox_planes::Planes;
use voxel_reads::is_full;

/// Changes one voxel into the goal's, if it differs.
fn paint_voxel(tape: &mut Tape, goal: &Planes, x: u16, y: u16, z: u16) -> Result<(), Memory>
    requires ready { CanPaint tape.old goal.now y }
    requires x { x < tape.old.matrix.resolution }
    requires z { z < tape.old.matrix.resolution }
    requires limit { sweep_steps_to tape.old (coord x (y + 1) z) < 1073741824 }
    ensures { OnOk result (Paints tape.old tape.new goal.now (voxel x y z) (coord x (y + 1) z) (coord x (y + 1) z) 1) }
{
    let c = Coord { x, y, z };
    let is_wanted = is_full(goal, c);
    if is_full(tape.matrix(), c) == is_wanted {
        return Ok(());
    }
    tape.go(Coord { x, y: y + 1, z })?;
    if is_wanted {
        tape.fill(Near::down())
    } else {
        tape.void(Near::down())
    }
}

/// Changes the row of x and y into the goal's.
fn paint_row(tape: &mut Tape, goal: &Planes, x: u16, y: u16) -> Result<(), Memory>
    requires ready { CanPaint tape.old goal.now y }
    requires x { x < tape.old.matrix.resolution }
    requires limit { sweep_steps_to tape.old (coord x (y + 1) 0) + 3 * tape.old.matrix.resolution < 1073741824 }
    ensures { OnOk result
        (Paints tape.old tape.new goal.now (is_in_line x y) (coord x (y + 1) 0)
        (coord x (y + 1) tape.old.matrix.resolution) (3 * tape.old.matrix.resolution)) }
{
    for z in 0..goal.resolution() {
        paint_voxel(tape, goal, x, y, z)?;
    }
    Ok(())
}

/// Changes the layer of y into the goal's.
fn paint_layer(tape: &mut Tape, goal: &Planes, y: u16) -> Result<(), Memory>
    requires ready { CanPaint tape.old goal.now y }
    requires limit { sweep_steps_to tape.old (coord 0 (y + 1) 0)
        + tape.old.matrix.resolution * row_bytes tape.old.matrix.resolution
        < 1073741824 }
    ensures { OnOk result
        (Paints tape.old tape.new goal.now (layer y) (coord 0 (y + 1) 0) (coord tape.old.matrix.resolution (y + 1) 0)
        (tape.old.matrix.resolution * row_bytes tape.old.matrix.resolution)) }
{
    for x in 0..goal.resolution() {
        paint_row(tape, goal, x, y)?;
    }
    Ok(())
}

/// Voids all layers from the top down to one.
pub fn clear(tape: &mut Tape, nothing: &Planes, low: u16) -> Result<(), Memory>
    requires ready { CanSweep tape.old nothing.now }
    requires top { IsVoidFrom tape.old.matrix (tape.old.matrix.resolution - 1) }
    requires nothing { IsVoidFrom nothing.now 0 }
    requires low { low < tape.old.matrix.resolution }
    requires limit { sweep_steps_to tape.old (top tape.old.matrix)
        + (tape.old.matrix.resolution - 1) * layer_bytes tape.old.matrix.resolution
        < 1073741824 }
    ensures { OnOk result
        (Paints tape.old tape.new nothing.now (from_layer low) (top tape.old.matrix) (coord 0 low 0)
        ((tape.old.matrix.resolution - 1) * layer_bytes tape.old.matrix.resolution)) }
{
    let mut y = nothing.resolution() - 1;
    while y > low {
        y -= 1;
        paint_layer(tape, nothing, y)?;
    }
    Ok(())
}

/// Changes all layers from one up into the goal's. Those below are the goal's already.
pub fn build(tape: &mut Tape, goal: &Planes, low: u16) -> Result<(), Memory>
    requires ready { CanSweep tape.old goal.now }
    requires low { low < tape.old.matrix.resolution }
    requires below { (c : Coordinate) → c.y < low → is_full_of tape.old.matrix c ≡ is_full_of goal.now c }
    requires void { IsVoidFrom tape.old.matrix low }
    requires limit { sweep_steps_to tape.old (coord 0 (low + 1) 0)
        + (tape.old.matrix.resolution - 1) * layer_bytes tape.old.matrix.resolution
        < 1073741824 }
    ensures { OnOk result
        (Paints tape.old tape.new goal.now (below_layer (tape.old.matrix.resolution - 1)) (coord 0 (low + 1) 0)
        (end tape.old.matrix) ((tape.old.matrix.resolution - 1) * layer_bytes tape.old.matrix.resolution)) }
{
    for y in low..goal.resolution() - 1 {
        paint_layer(tape, goal, y)?;
    }
    Ok(())
}
