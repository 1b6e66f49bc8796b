//! Voids tiles, strips and layers, from one layer above.
ghost use Rattle.std.specs.Prelude.{◌≡◌, ◌+◌, ◌-◌, ◌*◌, ◌<◌, ◌≤◌, IfOk, OnOk, not};
ghost use Rattle.void_planner.specs.Square.{CanVoidLayers, Clears, IsRectangle, voiding_steps, steps_to, strip_steps};
ghost use Rattle.void_planner.specs.Tiles.{IsVoidBefore, IsVoidStrip, IsVoidTile, edge, far_of};
ghost use Rattle.void_planner.specs.Bounds.{tiles_of};
ghost use Rattle.vox_geom.specs.Point.{coord};
ghost use Rattle.plan_tape.specs.Progress.{IsVoidFrom};

use crate::four::{go, void_below};
use crate::tiles::{far, is_void, place, tiles, turn_number};
use plan_tape::Tape;
use vox_geom::{Coord, Memory};

/// Voids a tile, if it is not void.
fn void_tile(tape: &mut Tape, x: u16, y: u16, z: u16) -> Result<(), Memory>
    requires ready { CanVoidLayers tape.old y }
    requires x { x + far_of tape.old.matrix.resolution < tape.old.matrix.resolution }
    requires z { z + far_of tape.old.matrix.resolution < tape.old.matrix.resolution }
    requires limit { steps_to tape.old (coord x (y + 1) z) < 1073741824 }
    ensures clears { OnOk result (Clears tape.old tape.new (coord x (y + 1) z) (coord x (y + 1) z) 1) }
    ensures void { OnOk result (IsVoidTile tape.new.matrix (far_of tape.old.matrix.resolution) x y z) }
{
    if is_void(tape.matrix(), Coord { x, y, z }) {
        return Ok(());
    }
    go(tape, Coord { x, y: y + 1, z })?;
    let far = far(tape.matrix().resolution());
    void_below(tape, far)
}

/// Voids the tiles of one x, forward or back along z.
fn void_strip(tape: &mut Tape, x: u16, y: u16, back: bool) -> Result<(), Memory>
    requires ready { CanVoidLayers tape.old y }
    requires x { x + far_of tape.old.matrix.resolution < tape.old.matrix.resolution }
    requires limit { steps_to tape.old (coord x (y + 1) (edge tape.old.matrix.resolution back))
        + 4 * tiles_of tape.old.matrix.resolution
        < 1073741824 }
    ensures clears { OnOk result
        (Clears tape.old tape.new (coord x (y + 1) (edge tape.old.matrix.resolution back))
        (coord x (y + 1) (edge tape.old.matrix.resolution (not back))) (4 * tiles_of tape.old.matrix.resolution)) }
    ensures void { OnOk result
        (IsVoidStrip tape.new.matrix (far_of tape.old.matrix.resolution) x y tape.old.matrix.resolution) }
{
    let r = tape.matrix().resolution();
    let count = tiles(r);
    for k in 0..count {
        void_tile(tape, x, y, place(r, turn_number(count, back, k)))?;
    }
    Ok(())
}

/// Voids a layer, forward or back along x. The strips alternate forward and back along z, the first one by `back`. Returns the
/// direction of the next one.
fn void_layer(tape: &mut Tape, y: u16, turn: bool, back: bool) -> Result<bool, Memory>
    requires ready { CanVoidLayers tape.old y }
    requires limit { steps_to tape.old
        (coord (edge tape.old.matrix.resolution turn) (y + 1) (edge tape.old.matrix.resolution back))
        + strip_steps tape.old.matrix.resolution * tiles_of tape.old.matrix.resolution
        < 1073741824 }
    ensures clears { IfOk result
        (λ next. Clears tape.old tape.new
        (coord (edge tape.old.matrix.resolution turn) (y + 1) (edge tape.old.matrix.resolution back))
        (coord (edge tape.old.matrix.resolution (not turn)) (y + 1) (edge tape.old.matrix.resolution next))
        (strip_steps tape.old.matrix.resolution * tiles_of tape.old.matrix.resolution)) }
    ensures void { IfOk result (λ next. IsVoidBefore tape.new.matrix tape.old.matrix.resolution y) }
{
    let r = tape.matrix().resolution();
    let count = tiles(r);
    let mut next = back;
    for k in 0..count {
        void_strip(tape, place(r, turn_number(count, turn, k)), y, next)?;
        next = !next;
    }
    Ok(next)
}

/// Voids all layers, from the top down, each starting at the end of the one above.
pub fn void_all(tape: &mut Tape) -> Result<(), Memory>
    requires square { IsRectangle tape.old (far_of tape.old.matrix.resolution) (far_of tape.old.matrix.resolution) }
    requires top { IsVoidFrom tape.old.matrix (tape.old.matrix.resolution - 1) }
    requires limit { steps_to tape.old (coord 0 (tape.old.matrix.resolution - 1) 0) +
        (tape.old.matrix.resolution - 1) * voiding_steps tape.old.matrix.resolution < 1073741824 }
    ensures clears { OnOk result
        (Clears tape.old tape.new (coord 0 (tape.old.matrix.resolution - 1) 0) (coord 0 0 0)
        ((tape.old.matrix.resolution - 1) * voiding_steps tape.old.matrix.resolution)) }
    ensures void { OnOk result (IsVoidFrom tape.new.matrix 0) }
{
    let mut y = tape.matrix().resolution() - 1;
    let mut turn = false;
    let mut back = false;
    while y > 0 {
        y -= 1;
        back = void_layer(tape, y, turn, back)?;
        turn = !turn;
    }
    Ok(())
}
