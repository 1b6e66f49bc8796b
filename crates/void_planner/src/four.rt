//! Steps of four bots at the corners of a rectangle.
ghost use Rattle.std.specs.Prelude.{◌≡◌, ◌≢◌, ◌+◌, ◌-◌, ◌<◌, ◌≤◌, OnOk, false, pos, length, IsTrue};
ghost use Rattle.vox_geom.specs.Difference.{is_far};
ghost use Rattle.plan_tape.specs.Leg.{component_of, moves as moves_of, moves_to as moves_to_of, put};
ghost use Rattle.plan_tape.specs.Progress.{spot};
ghost use Rattle.step_order.specs.Acting.{with_region};
ghost use Rattle.void_planner.specs.Square.{CanStand, FourGo, FourVoid, IsRectangle};
ghost use Rattle.void_planner.specs.Tiles.{far_of, tile};
ghost use Rattle.vox_geom.specs.Point.{coord};

use nano_spec::Command;
use plan_tape::{Axis, Tape, component, next_stop, towards};
use vox_geom::{Coord, Diff, Far, Memory, Near};

/// Returns the position of the first bot.
pub fn corner(tape: &Tape) -> Coord
    requires { 1 ≤ length tape.now.bots }
    ensures { result ≡ spot tape.now.bots }
{
    tape.crew().bots()[0].pos
}

/// Makes the same move along an axis with all four.
fn shift(tape: &mut Tape, axis: Axis, at: u16, next: u16) -> Result<(), Memory>
    requires square { IsRectangle tape.old (far_of tape.old.matrix.resolution) (far_of tape.old.matrix.resolution) }
    requires at { component_of axis (spot tape.old.bots) ≡ at }
    requires differ { at ≢ next }
    requires near { (next ≤ at + 15) × (at ≤ next + 15) }
    requires stand { CanStand tape.old.matrix (far_of tape.old.matrix.resolution) (far_of tape.old.matrix.resolution)
        (put axis (spot tape.old.bots) next) }
    requires limit { tape.old.steps < 1073741824 }
    ensures { OnOk result
        (FourGo tape.old tape.new (far_of tape.old.matrix.resolution) (far_of tape.old.matrix.resolution)
        (put axis (spot tape.old.bots) next) 1) }
{
    tape.recall_whole();
    tape.move_all(&[
        Command::SMove(towards(axis, at, next)),
        Command::SMove(towards(axis, at, next)),
        Command::SMove(towards(axis, at, next)),
        Command::SMove(towards(axis, at, next)),
    ])
}

/// Moves all four along an axis until the first bot is at `to`.
fn go_along(tape: &mut Tape, axis: Axis, to: u16) -> Result<(), Memory>
    requires square { IsRectangle tape.old (far_of tape.old.matrix.resolution) (far_of tape.old.matrix.resolution) }
    requires stand { CanStand tape.old.matrix (far_of tape.old.matrix.resolution) (far_of tape.old.matrix.resolution)
        (put axis (spot tape.old.bots) to) }
    requires limit { tape.old.steps + moves_of (component_of axis (spot tape.old.bots)) to ≤ 1073741824 }
    ensures { OnOk result
        (FourGo tape.old tape.new (far_of tape.old.matrix.resolution) (far_of tape.old.matrix.resolution)
        (put axis (spot tape.old.bots) to) (moves_of (component_of axis (spot tape.old.bots)) to)) }
{
    let mut at = component(axis, corner(tape));
    while at != to {
        let next = next_stop(at, to);
        shift(tape, axis, at, next)?;
        at = next;
    }
    Ok(())
}

/// Moves all four until the first bot is at `to`.
pub fn go(tape: &mut Tape, to: Coord) -> Result<(), Memory>
    requires square { IsRectangle tape.old (far_of tape.old.matrix.resolution) (far_of tape.old.matrix.resolution) }
    requires stand { CanStand tape.old.matrix (far_of tape.old.matrix.resolution) (far_of tape.old.matrix.resolution)
        to }
    requires limit { tape.old.steps + moves_to_of (spot tape.old.bots) to ≤ 1073741824 }
    ensures { OnOk result
        (FourGo tape.old tape.new (far_of tape.old.matrix.resolution) (far_of tape.old.matrix.resolution) to
        (moves_to_of (spot tape.old.bots) to)) }
{
    go_along(tape, Axis::X, to.x)?;
    go_along(tape, Axis::Y, to.y)?;
    go_along(tape, Axis::Z, to.z)
}

/// Makes the same move along x with the second and the third bot.
fn widen(tape: &mut Tape, at: u16, next: u16) -> Result<(), Memory>
    requires rectangle { IsRectangle tape.old at 1 }
    requires differ { at ≢ next }
    requires near { (next ≤ at + 15) × (at ≤ next + 15) }
    requires some { 1 ≤ next }
    requires within { (spot tape.old.bots).x + next < tape.old.matrix.resolution }
    requires limit { tape.old.steps < 1073741824 }
    ensures { OnOk result (FourGo tape.old tape.new next 1 (spot tape.old.bots) 1) }
{
    tape.recall_whole();
    tape.move_all(&[
        Command::Wait,
        Command::SMove(towards(Axis::X, at, next)),
        Command::SMove(towards(Axis::X, at, next)),
        Command::Wait,
    ])
}

/// Makes the same move along z with the third and the fourth bot.
fn deepen(tape: &mut Tape, at: u16, next: u16) -> Result<(), Memory>
    requires rectangle { IsRectangle tape.old (far_of tape.old.matrix.resolution) at }
    requires differ { at ≢ next }
    requires near { (next ≤ at + 15) × (at ≤ next + 15) }
    requires some { 1 ≤ next }
    requires within { (spot tape.old.bots).z + next < tape.old.matrix.resolution }
    requires limit { tape.old.steps < 1073741824 }
    ensures { OnOk result (FourGo tape.old tape.new (far_of tape.old.matrix.resolution) next (spot tape.old.bots) 1) }
{
    tape.recall_whole();
    tape.move_all(&[
        Command::Wait,
        Command::Wait,
        Command::SMove(towards(Axis::Z, at, next)),
        Command::SMove(towards(Axis::Z, at, next)),
    ])
}

/// Changes the width of the rectangle along x.
pub fn set_width(tape: &mut Tape, from: u16, to: u16) -> Result<(), Memory>
    requires rectangle { IsRectangle tape.old from 1 }
    requires some { 1 ≤ to }
    requires within { (spot tape.old.bots).x + to < tape.old.matrix.resolution }
    requires limit { tape.old.steps + moves_of from to ≤ 1073741824 }
    ensures { OnOk result (FourGo tape.old tape.new to 1 (spot tape.old.bots) (moves_of from to)) }
{
    let mut at = from;
    while at != to {
        let next = next_stop(at, to);
        widen(tape, at, next)?;
        at = next;
    }
    Ok(())
}

/// Changes the depth of the rectangle along z.
pub fn set_depth(tape: &mut Tape, from: u16, to: u16) -> Result<(), Memory>
    requires rectangle { IsRectangle tape.old (far_of tape.old.matrix.resolution) from }
    requires some { 1 ≤ to }
    requires within { (spot tape.old.bots).z + to < tape.old.matrix.resolution }
    requires limit { tape.old.steps + moves_of from to ≤ 1073741824 }
    ensures { OnOk result
        (FourGo tape.old tape.new (far_of tape.old.matrix.resolution) to (spot tape.old.bots) (moves_of from to)) }
{
    let mut at = from;
    while at != to {
        let next = next_stop(at, to);
        deepen(tape, at, next)?;
        at = next;
    }
    Ok(())
}

/// Returns the difference from a corner of a tile to the opposite one.
fn across(dx: i16, dz: i16) -> Far
    requires { IsTrue (is_far (record { dx = dx; dy = pos 0; dz = dz })) }
    ensures { result ≡ record { dx = dx; dy = pos 0; dz = dz } }
{
    let Some(far) = Far::of(Diff { dx, dy: 0, dz }) else {
        unreachable!()
    };
    far
}

/// Voids the tile below all four.
pub fn void_below(tape: &mut Tape, far: u16) -> Result<(), Memory>
    requires far { far ≡ far_of tape.old.matrix.resolution }
    requires square { IsRectangle tape.old far far }
    requires above { 1 ≤ (spot tape.old.bots).y }
    requires limit { tape.old.steps < 1073741824 }
    ensures { OnOk result
        (FourVoid tape.old tape.new far
        (tile far (coord (spot tape.old.bots).x ((spot tape.old.bots).y - 1) (spot tape.old.bots).z))
        (with_region tape.old.matrix
        (tile far (coord (spot tape.old.bots).x ((spot tape.old.bots).y - 1) (spot tape.old.bots).z)) false)) }
{
    let far = far as i16;
    tape.paint_all(&[
        Command::GVoid(Near::down(), across(far, far)),
        Command::GVoid(Near::down(), across(-far, far)),
        Command::GVoid(Near::down(), across(-far, -far)),
        Command::GVoid(Near::down(), across(far, -far)),
    ])
}
