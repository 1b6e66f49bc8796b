//! An axis: components, differences and moves along it.
ghost use Rattle.std.specs.Prelude.{◌≡◌, ◌≢◌, ◌⊎◌, ℕ, ◌+◌, ◌*◌, List, ◌++◌, pos, neg_ℤ, ◌≤ℤ◌, ◌-ℤ◌, ◌<◌, ◌≤◌, vec_capacity, vec_len};
ghost use Rattle.vox_geom.specs.Space.{IsInSpace};
ghost use Rattle.nano_spec.specs.declared.commands.Command.{Command as CommandOf};
ghost use Rattle.plan_tape.specs.Leg.{IsLeastLeg, IsOnward, along, component_of, put, distance as distance_of, gap as gap_of, moves as moves_of, moves_to as moves_to_of};

use nano_spec::Command;
use vox_geom::{Coord, Diff, Long, MOST_R, Near};

/// An axis.
#[derive(Clone, Copy, PartialEq, Eq, Debug)]
pub enum Axis {
    X,
    Y,
    Z,
}

/// Returns the component of a coordinate on an axis.
pub fn component(axis: Axis, c: Coord) -> u16
    ensures { result ≡ component_of axis c }
{
    match axis {
        Axis::X => c.x,
        Axis::Y => c.y,
        Axis::Z => c.z,
    }
}

/// Returns the coordinate with another component on an axis.
pub fn with_component(axis: Axis, c: Coord, v: u16) -> Coord
    ensures { result ≡ put axis c v }
{
    match axis {
        Axis::X => Coord { x: v, ..c },
        Axis::Y => Coord { y: v, ..c },
        Axis::Z => Coord { z: v, ..c },
    }
}

/// The longest distance of one move.
const MOST_MOVE: u16 = 15;

/// Returns the distance of two components.
fn gap(a: u16, b: u16) -> u16
    ensures { result ≡ gap_of a b }
{
    if a < b { b - a } else { a - b }
}

/// Returns the least number of moves from one component to another.
fn moves(a: u16, b: u16) -> u32
    ensures { result ≡ moves_of a b }
{
    (u32::from(gap(a, b)) + 14) / 15
}

/// Returns the least number of moves along x, y and z from one coordinate to another.
pub fn moves_to(a: Coord, b: Coord) -> u32
    requires from { IsInSpace MOST_R a }
    requires to { IsInSpace MOST_R b }
    ensures value { result ≡ moves_to_of a b }
    ensures most { result ≤ 81 }
{
    moves(a.x, b.x) + moves(a.y, b.y) + moves(a.z, b.z)
}

/// Returns the distance of two coordinates along the axes.
fn distance(a: Coord, b: Coord) -> u32
    ensures { result ≡ distance_of a b }
{
    u32::from(gap(a.x, b.x)) + u32::from(gap(a.y, b.y)) + u32::from(gap(a.z, b.z))
}

/// Returns the cost of moves along the axes from one coordinate to another, without their upkeep.
pub fn cost_of_way(a: Coord, b: Coord) -> i64
    ensures value { result ≡ pos (2 * distance_of a b) }
    ensures most { result ≤ℤ pos (30 * moves_to_of a b) }
{
    2 * i64::from(distance(a, b))
}

/// Returns the end of the next move toward a component.
pub fn next_stop(at: u16, to: u16) -> u16
    requires differ { at ≢ to }
    ensures onward { IsOnward at result to }
    ensures near { (result ≤ at + 15) × (at ≤ result + 15) }
    ensures count { moves_of at to ≡ moves_of result to + 1 }
{
    if at < to {
        if to - at <= MOST_MOVE {
            to
        } else {
            at + MOST_MOVE
        }
    } else if at - to <= MOST_MOVE {
        to
    } else {
        at - MOST_MOVE
    }
}

/// Returns the signed difference from one component to another.
pub fn signed_gap(from: u16, to: u16) -> i16
    requires from { from ≤ MOST_R }
    requires to { to ≤ MOST_R }
    ensures { result ≡ pos to -ℤ pos from }
{
    to as i16 - from as i16
}

/// Returns the difference along an axis.
fn difference(axis: Axis, by: i16) -> Diff
    ensures { result ≡ along axis by }
{
    let none = Diff {
        dx: 0,
        dy: 0,
        dz: 0,
    };
    match axis {
        Axis::X => Diff { dx: by, ..none },
        Axis::Y => Diff { dy: by, ..none },
        Axis::Z => Diff { dz: by, ..none },
    }
}

/// Returns the difference from one component to another along an axis.
pub fn towards(axis: Axis, at: u16, next: u16) -> Long
    requires differ { at ≢ next }
    requires at { at ≤ MOST_R }
    requires next { next ≤ MOST_R }
    requires near { (next ≤ at + 15) × (at ≤ next + 15) }
    ensures { result ≡ along axis (pos next -ℤ pos at) }
{
    let Some(long) = Long::of(difference(axis, signed_gap(at, next))) else {
        unreachable!()
    };
    long
}

/// Returns the difference along an axis to the next voxel.
pub fn ahead(axis: Axis) -> Near
    ensures { result ≡ along axis (pos 1) }
{
    let Some(near) = Near::of(difference(axis, 1)) else {
        unreachable!()
    };
    near
}

/// Returns the difference along an axis to the previous voxel.
pub fn behind(axis: Axis) -> Near
    ensures { result ≡ along axis (neg_ℤ (pos 1)) }
{
    let Some(near) = Near::of(difference(axis, -1)) else {
        unreachable!()
    };
    near
}

/// Appends the least moves along an axis from one component to another. The capacity suffices.
pub fn push_leg(commands: &mut Vec<Command>, axis: Axis, from: u16, to: u16)
    requires from { from ≤ MOST_R }
    requires to { to ≤ MOST_R }
    requires room { vec_len commands.old + moves_of from to ≤ vec_capacity commands.old }
    ensures leg { (moves : List CommandOf) × IsLeastLeg axis from to moves
        × (commands.new.items ≡ commands.old.items ++ moves) }
    ensures len { vec_len commands.new ≡ vec_len commands.old + moves_of from to }
    ensures capacity { vec_capacity commands.new ≡ vec_capacity commands.old }
{
    let mut at = from;
    while at != to {
        let next = next_stop(at, to);
        commands.push_reserved(Command::SMove(towards(axis, at, next)));
        at = next;
    }
}
