//! Builds voxels, lines and layers from one layer above.
ghost use Rattle.std.specs.Prelude.{◌≡◌, ◌+◌, ◌-◌, ◌*◌, ◌≤◌, ◌<◌, OnOk};
ghost use Rattle.plan_tape.specs.Leg.{component_of, distance, gap, put};
ghost use Rattle.plan_tape.specs.Progress.{spot, IsVoidFrom};
ghost use Rattle.swarm_planner.specs.Building.{Builds, CanBuild, CanFillLayer, are_wanted, cell, swarm_layer_steps, layers, line, line_steps, in_first_lines, crew_steps_to};
ghost use Rattle.swarm_planner.specs.Crew.{InRow, IsSwarm, MayLead, RowGoes};
ghost use Rattle.swarm_planner.specs.Strips.{strip_row};
ghost use Rattle.swarm_planner.specs.Bounds.{width};
ghost use Rattle.vox_geom.specs.Point.{coord};

use crate::steps::{fill_below, is_wanted, move_row};
use crate::strips::{strip_count, strip_width};
use plan_tape::{Axis, Tape, component, next_stop, with_component};
use vox_geom::{Coord, Memory};
use vox_planes::Planes;

/// Returns the position of the first bot.
pub fn first_place(tape: &Tape) -> Coord
    requires { InRow tape.now }
    ensures { result ≡ spot tape.now.bots }
{
    let bot = tape.crew().bots()[0];
    bot.pos
}

/// Moves the row along an axis, by the fewest moves.
fn go_along(tape: &mut Tape, axis: Axis, to: u16) -> Result<(), Memory>
    requires swarm { IsSwarm tape.old }
    requires row { InRow tape.old }
    requires void { IsVoidFrom tape.old.matrix (spot tape.old.bots).y }
    requires leads { MayLead tape.old.matrix.resolution (put axis (spot tape.old.bots) to) }
    requires up { (spot tape.old.bots).y ≤ (put axis (spot tape.old.bots) to).y }
    requires limit { tape.old.steps + gap (component_of axis (spot tape.old.bots)) to ≤ 1073741824 }
    ensures { OnOk result
        (RowGoes tape.old tape.new (put axis (spot tape.old.bots) to)
        (gap (component_of axis (spot tape.old.bots)) to)) }
{
    let from = first_place(tape);
    let mut at = component(axis, from);
    while at != to {
        at = next_stop(at, to);
        move_row(tape, axis, with_component(axis, from, at))?;
    }
    Ok(())
}

/// Moves the row along x, then y, then z, until the first bot is at `to`.
pub fn go(tape: &mut Tape, to: Coord) -> Result<(), Memory>
    requires swarm { IsSwarm tape.old }
    requires row { InRow tape.old }
    requires void { IsVoidFrom tape.old.matrix (spot tape.old.bots).y }
    requires leads { MayLead tape.old.matrix.resolution to }
    requires up { (spot tape.old.bots).y ≤ to.y }
    requires limit { tape.old.steps + distance (spot tape.old.bots) to ≤ 1073741824 }
    ensures { OnOk result (RowGoes tape.old tape.new to (distance (spot tape.old.bots) to)) }
{
    go_along(tape, Axis::X, to.x)?;
    go_along(tape, Axis::Y, to.y)?;
    go_along(tape, Axis::Z, to.z)
}

/// Returns whether a bot has a voxel to fill, once the row has moved to `to`.
fn has_wanted(tape: &Tape, target: &Planes, to: Coord) -> bool
    requires same { target.now.resolution ≡ tape.now.matrix.resolution }
    requires leads { MayLead tape.now.matrix.resolution to }
    requires up { 1 ≤ to.y }
    ensures { result ≡ are_wanted tape.now.matrix target.now (strip_row tape.now.matrix.resolution to) }
{
    let r = target.resolution();
    let mut x = to.x;
    for _strip in 0..strip_count(r) {
        let place = Coord {
            x: x.min(r - 2),
            ..to
        };
        if is_wanted(tape.matrix(), target, place) {
            return true;
        }
        x += strip_width(r);
    }
    false
}

/// Fills, in all strips, the voxel of y and z below the row if its first bot is at x.
fn paint_cell(tape: &mut Tape, target: &Planes, x: u16, y: u16, z: u16) -> Result<(), Memory>
    requires ready { CanFillLayer tape.old target.now y }
    requires first { 1 ≤ x }
    requires wide { x ≤ width tape.old.matrix.resolution }
    requires z { z < tape.old.matrix.resolution }
    requires limit { crew_steps_to tape.old (coord x (y + 1) z) < 1073741824 }
    ensures { OnOk result
        (Builds tape.old tape.new target.now (cell tape.old.matrix.resolution x y z) (coord x (y + 1) z)
        (coord x (y + 1) z) 1) }
{
    let to = Coord { x, y: y + 1, z };
    if !has_wanted(tape, target, to) {
        return Ok(());
    }
    go(tape, to)?;
    fill_below(tape, target)
}

/// Fills, in all strips, the line of y below the row if its first bot is at x.
fn paint_line(tape: &mut Tape, target: &Planes, x: u16, y: u16) -> Result<(), Memory>
    requires ready { CanFillLayer tape.old target.now y }
    requires first { 1 ≤ x }
    requires wide { x ≤ width tape.old.matrix.resolution }
    requires limit { crew_steps_to tape.old (coord x (y + 1) 0) + 2 * tape.old.matrix.resolution < 1073741824 }
    ensures { OnOk result
        (Builds tape.old tape.new target.now (line tape.old.matrix.resolution x y) (coord x (y + 1) 0)
        (coord x (y + 1) tape.old.matrix.resolution) (2 * tape.old.matrix.resolution)) }
{
    for z in 0..target.resolution() {
        paint_cell(tape, target, x, y, z)?;
    }
    Ok(())
}

/// Builds the layer of y.
fn paint_layer(tape: &mut Tape, target: &Planes, y: u16) -> Result<(), Memory>
    requires ready { CanFillLayer tape.old target.now y }
    requires limit { crew_steps_to tape.old (coord 1 (y + 1) 0)
        + width tape.old.matrix.resolution * line_steps tape.old.matrix.resolution
        < 1073741824 }
    ensures { OnOk result
        (Builds tape.old tape.new target.now
        (in_first_lines tape.old.matrix.resolution (width tape.old.matrix.resolution) y) (coord 1 (y + 1) 0)
        (coord (width tape.old.matrix.resolution + 1) (y + 1) 0)
        (width tape.old.matrix.resolution * line_steps tape.old.matrix.resolution)) }
{
    for x in 0..strip_width(target.resolution()) {
        paint_line(tape, target, x + 1, y)?;
    }
    Ok(())
}

/// Builds all layers, from the floor up.
pub fn build(tape: &mut Tape, target: &Planes) -> Result<(), Memory>
    requires ready { CanBuild tape.old target.now }
    requires void { IsVoidFrom tape.old.matrix 0 }
    requires low { (spot tape.old.bots).y ≤ 1 }
    requires limit { crew_steps_to tape.old (coord 1 1 0)
        + (tape.old.matrix.resolution - 1) * swarm_layer_steps tape.old.matrix.resolution
        < 1073741824 }
    ensures { OnOk result
        (Builds tape.old tape.new target.now (layers tape.old.matrix.resolution (tape.old.matrix.resolution - 1))
        (coord 1 1 0) (coord 1 tape.old.matrix.resolution 0)
        ((tape.old.matrix.resolution - 1) * swarm_layer_steps tape.old.matrix.resolution)) }
{
    for y in 0..target.resolution() - 1 {
        paint_layer(tape, target, y)?;
    }
    Ok(())
}
