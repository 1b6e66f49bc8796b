//! The pair: two bots in one row along z, the one at the rear and the other at the front.
ghost use Rattle.std.specs.Prelude.{◌≡◌, ◌≢◌, ◌⊎◌, ◌+◌, ◌*◌, ◌-◌, ◌<◌, ◌≤◌, IfSome, OnOk, length, pos};
ghost use Rattle.vox_geom.specs.declared.TheConstants.{MOST_R};
ghost use Rattle.plan_tape.specs.Leg.{component_of, moves, put};
ghost use Rattle.group_planner.specs.Pair.{PairGoes, IsPair, MaySlide, Slides, front as front_of, rear as rear_of};
ghost use Rattle.plan_tape.specs.Progress.{IsVoidFrom};

use nano_spec::Command;
use plan_tape::{Axis, Tape, next_stop, towards};
use vox_geom::{Coord, Memory};

/// Returns the position of the rear bot.
pub fn rear(tape: &Tape) -> Coord
    requires { IsPair tape.now }
    ensures value { result ≡ rear_of tape.now }
    ensures most { tape.now.matrix.resolution ≤ MOST_R }
{
    tape.recall_whole();
    tape.crew().bots()[0].pos
}

/// Returns the position of the front bot.
pub fn front(tape: &Tape) -> Coord
    requires { IsPair tape.now }
    ensures value { result ≡ front_of tape.now }
    ensures most { tape.now.matrix.resolution ≤ MOST_R }
{
    tape.recall_whole();
    tape.crew().bots()[1].pos
}

/// Makes the same move along x or y with both bots.
fn both_move(tape: &mut Tape, axis: Axis, at: u16, next: u16) -> Result<(), Memory>
    requires pair { IsPair tape.old }
    requires flat { (axis ≡ Axis.X) ⊎ (axis ≡ Axis.Y) }
    requires here { component_of axis (rear_of tape.old) ≡ at }
    requires differ { at ≢ next }
    requires near { (next ≤ at + 15) × (at ≤ next + 15) }
    requires within { next < tape.old.matrix.resolution }
    requires free { IsVoidFrom tape.old.matrix (put axis (rear_of tape.old) next).y }
    requires limit { tape.old.steps < 1073741824 }
    ensures { OnOk result
        (PairGoes tape.old tape.new (put axis (rear_of tape.old) next) (put axis (front_of tape.old) next) 1) }
{
    tape.recall_whole();
    tape.move_all(&[
        Command::SMove(towards(axis, at, next)),
        Command::SMove(towards(axis, at, next)),
    ])
}

/// Moves the front bot to a z past the rear one, which waits.
fn front_moves(tape: &mut Tape, at: u16, next: u16) -> Result<(), Memory>
    requires pair { IsPair tape.old }
    requires here { (front_of tape.old).z ≡ at }
    requires differ { at ≢ next }
    requires near { (next ≤ at + 15) × (at ≤ next + 15) }
    requires within { next < tape.old.matrix.resolution }
    requires past { (rear_of tape.old).z < next }
    requires limit { tape.old.steps < 1073741824 }
    ensures { OnOk result (PairGoes tape.old tape.new (rear_of tape.old) (put Axis.Z (front_of tape.old) next) 1) }
{
    tape.recall_whole();
    tape.move_all(&[Command::Wait, Command::SMove(towards(Axis::Z, at, next))])
}

/// Moves the rear bot to a z before the front one, which waits.
fn rear_moves(tape: &mut Tape, at: u16, next: u16) -> Result<(), Memory>
    requires pair { IsPair tape.old }
    requires here { (rear_of tape.old).z ≡ at }
    requires differ { at ≢ next }
    requires near { (next ≤ at + 15) × (at ≤ next + 15) }
    requires before { next < (front_of tape.old).z }
    requires limit { tape.old.steps < 1073741824 }
    ensures { OnOk result (PairGoes tape.old tape.new (put Axis.Z (rear_of tape.old) next) (front_of tape.old) 1) }
{
    tape.recall_whole();
    tape.move_all(&[Command::SMove(towards(Axis::Z, at, next)), Command::Wait])
}

/// Moves both bots along x or y.
fn both_go(tape: &mut Tape, axis: Axis, from: u16, to: u16) -> Result<(), Memory>
    requires pair { IsPair tape.old }
    requires flat { (axis ≡ Axis.X) ⊎ (axis ≡ Axis.Y) }
    requires here { component_of axis (rear_of tape.old) ≡ from }
    requires within { to < tape.old.matrix.resolution }
    requires free { IsVoidFrom tape.old.matrix (put axis (rear_of tape.old) to).y }
    requires limit { tape.old.steps + moves from to ≤ 1073741824 }
    ensures { OnOk result
        (PairGoes tape.old tape.new (put axis (rear_of tape.old) to) (put axis (front_of tape.old) to)
        (moves from to)) }
{
    let mut at = from;
    while at != to {
        let next = next_stop(at, to);
        both_move(tape, axis, at, next)?;
        at = next;
    }
    Ok(())
}

/// Moves both bots to a row, along x, then y.
pub fn go_to_row(tape: &mut Tape, x: u16, y: u16) -> Result<(), Memory>
    requires pair { IsPair tape.old }
    requires x { x < tape.old.matrix.resolution }
    requires y { y < tape.old.matrix.resolution }
    requires free { IsVoidFrom tape.old.matrix y }
    requires limit { tape.old.steps + moves (rear_of tape.old).x x + moves (rear_of tape.old).y y ≤ 1073741824 }
    ensures { OnOk result
        (PairGoes tape.old tape.new (record { x = x; y = y; z = (rear_of tape.old).z })
        (record { x = x; y = y; z = (front_of tape.old).z })
        (moves (rear_of tape.old).x x + moves (rear_of tape.old).y y)) }
{
    let from = rear(tape);
    both_go(tape, Axis::X, from.x, x)?;
    both_go(tape, Axis::Y, from.y, y)
}

/// Moves the front bot to a z past the rear one.
pub fn front_goes(tape: &mut Tape, to: u16) -> Result<(), Memory>
    requires pair { IsPair tape.old }
    requires within { to < tape.old.matrix.resolution }
    requires past { (rear_of tape.old).z < to }
    requires limit { tape.old.steps + moves (front_of tape.old).z to ≤ 1073741824 }
    ensures { OnOk result
        (PairGoes tape.old tape.new (rear_of tape.old) (put Axis.Z (front_of tape.old) to)
        (moves (front_of tape.old).z to)) }
{
    let mut at = front(tape).z;
    while at != to {
        let next = next_stop(at, to);
        front_moves(tape, at, next)?;
        at = next;
    }
    Ok(())
}

/// Moves the rear bot to a z before the front one.
pub fn rear_goes(tape: &mut Tape, to: u16) -> Result<(), Memory>
    requires pair { IsPair tape.old }
    requires before { to < (front_of tape.old).z }
    requires limit { tape.old.steps + moves (rear_of tape.old).z to ≤ 1073741824 }
    ensures { OnOk result
        (PairGoes tape.old tape.new (put Axis.Z (rear_of tape.old) to) (front_of tape.old)
        (moves (rear_of tape.old).z to)) }
{
    let mut at = rear(tape).z;
    while at != to {
        let next = next_stop(at, to);
        rear_moves(tape, at, next)?;
        at = next;
    }
    Ok(())
}

/// Makes a move along z with both bots, the rear one behind the path of the front one.
fn both_slide(
    tape: &mut Tape,
    behind: u16,
    rear_next: u16,
    ahead: u16,
    front_next: u16,
) -> Result<(), Memory>
    requires pair { IsPair tape.old }
    requires rear_here { (rear_of tape.old).z ≡ behind }
    requires rear_differs { behind ≢ rear_next }
    requires rear_near { (rear_next ≤ behind + 15) × (behind ≤ rear_next + 15) }
    requires front_here { (front_of tape.old).z ≡ ahead }
    requires front_differs { ahead ≢ front_next }
    requires front_near { (front_next ≤ ahead + 15) × (ahead ≤ front_next + 15) }
    requires within { front_next < tape.old.matrix.resolution }
    requires clear { rear_next < ahead }
    requires past { behind < front_next }
    requires order { rear_next < front_next }
    requires limit { tape.old.steps < 1073741824 }
    ensures { OnOk result
        (PairGoes tape.old tape.new (put Axis.Z (rear_of tape.old) rear_next)
        (put Axis.Z (front_of tape.old) front_next) 1) }
{
    tape.recall_whole();
    tape.move_all(&[
        Command::SMove(towards(Axis::Z, behind, rear_next)),
        Command::SMove(towards(Axis::Z, ahead, front_next)),
    ])
}

/// Returns the ends of both bots' next moves along z, if they may make them in one step.
fn next_slide(behind: u16, rear_to: u16, ahead: u16, front_to: u16) -> Option<(u16, u16)>
    ensures { IfSome result (λ next. MaySlide behind next.0 rear_to ahead next.1 front_to) }
{
    if behind == rear_to {
        return None;
    }
    if ahead == front_to {
        return None;
    }
    let rear_next = next_stop(behind, rear_to);
    let front_next = next_stop(ahead, front_to);
    if rear_next >= ahead {
        return None;
    }
    if behind >= front_next {
        return None;
    }
    if rear_next >= front_next {
        return None;
    }
    Some((rear_next, front_next))
}

/// Moves both bots along z together, as far as neither gets in the other's way.
fn slide(tape: &mut Tape, rear_to: u16, front_to: u16) -> Result<(), Memory>
    requires pair { IsPair tape.old }
    requires within { front_to < tape.old.matrix.resolution }
    requires limit { tape.old.steps + moves (rear_of tape.old).z rear_to + moves (front_of tape.old).z front_to
        ≤ 1073741824 }
    ensures { OnOk result (Slides tape.old tape.new rear_to front_to) }
{
    let mut behind = rear(tape).z;
    let mut ahead = front(tape).z;
    while let Some((rear_next, front_next)) = next_slide(behind, rear_to, ahead, front_to) {
        both_slide(tape, behind, rear_next, ahead, front_next)?;
        behind = rear_next;
        ahead = front_next;
    }
    Ok(())
}

/// Moves the bots to two positions in their row, together as far as possible. Then the one that is not in the other's way moves
/// first.
pub fn spread(tape: &mut Tape, rear_to: u16, front_to: u16) -> Result<(), Memory>
    requires pair { IsPair tape.old }
    requires order { rear_to < front_to }
    requires within { front_to < tape.old.matrix.resolution }
    requires limit { tape.old.steps + moves (rear_of tape.old).z rear_to + moves (front_of tape.old).z front_to
        ≤ 1073741824 }
    ensures { OnOk result
        (PairGoes tape.old tape.new (put Axis.Z (rear_of tape.old) rear_to) (put Axis.Z (front_of tape.old) front_to)
        (moves (rear_of tape.old).z rear_to + moves (front_of tape.old).z front_to)) }
{
    slide(tape, rear_to, front_to)?;
    if rear(tape).z < front_to {
        front_goes(tape, front_to)?;
        rear_goes(tape, rear_to)
    } else {
        rear_goes(tape, rear_to)?;
        front_goes(tape, front_to)
    }
}
