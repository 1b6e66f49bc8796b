//! The indices of a voxel's neighbors, and of the voxels of a line.
ghost use Rattle.std.specs.Prelude.{◌≡◌, ℕ, ◌+◌, ◌*◌, ◌/◌, ◌%◌, ◌<◌, ◌≤◌, MatchBool};
ghost use Rattle.support_forest.specs.FillingOne.{EndsBrick};
ghost use Rattle.support_forest.specs.Indices.{IsBrickBeside, IsIndexNext, StaysInBrick, voxel_of};

use crate::cells::{BRICK_SIDE, BRICK_WORDS};

/// Returns whether the voxel at an index is the last of its brick in a direction.
#[inline(always)]
pub fn ends_brick<const D: u8>(index: u32) -> bool
    requires { (0 < D) × (D ≤ 6) }
    ensures { (side : ℕ) → MatchBool result (EndsBrick (voxel_of side index) D) (StaysInBrick (voxel_of side index) D) }
{
    match D {
        1 => index % 64 < 8,
        2 => index % 64 >= 56,
        3 => index % 512 < 64,
        4 => index % 512 >= 448,
        5 => index % 8 < 1,
        _ => index % 8 >= 7,
    }
}

/// Returns the index one step lower, in the previous brick if `part` is within the first step. `part` is the index modulo eight
/// steps.
#[inline(always)]
fn index_before(index: u32, part: u32, step: u32, bricks: u32) -> u32
    requires fits { (index < 134217728) × (step ≤ 64) × (bricks < 4096) }
    requires within { step ≤ part → step ≤ index }
    requires over { part < step → 512 * bricks ≤ index }
    ensures within { step ≤ part → result + step ≡ index }
    ensures over { part < step → result + 512 * bricks ≡ index + 7 * step }
{
    if part < step {
        return index + 7 * step - BRICK_WORDS * bricks;
    }
    index - step
}

/// Returns the index one step higher, in the next brick if `part` is within the last step.
#[inline(always)]
fn index_behind(index: u32, part: u32, step: u32, bricks: u32) -> u32
    requires fits { (index < 134217728) × (step ≤ 64) × (bricks < 4096) }
    requires over { 7 * step ≤ part → 7 * step ≤ index }
    ensures within { part < 7 * step → result ≡ index + step }
    ensures over { 7 * step ≤ part → result + 7 * step ≡ index + 512 * bricks }
{
    if part >= 7 * step {
        return index + BRICK_WORDS * bricks - 7 * step;
    }
    index + step
}

/// Returns the index of the neighbor in a direction, which lies in a brick of the table.
///
/// `side` is the number of bricks along an axis.
#[inline(always)]
pub fn index_toward<const D: u8>(index: u32, side: u16) -> u32
    requires direction { (0 < D) × (D ≤ 6) }
    requires few { side ≤ 51 }
    requires within { index / 512 < side * side * side }
    requires some { IsBrickBeside side index D }
    ensures { IsIndexNext side index D result }
{
    let row = u32::from(side);
    let wall = row * row;
    match D {
        1 => index_before(index, index % 64, 8, wall),
        2 => index_behind(index, index % 64, 8, wall),
        3 => index_before(index, index % 512, 64, row),
        4 => index_behind(index, index % 512, 64, row),
        5 => index_before(index, index % 8, 1, 1),
        _ => index_behind(index, index % 8, 1, 1),
    }
}

/// Returns the index of the voxel at `z` on a line along z, whose first voxel has the index `line`.
#[inline(always)]
pub fn index_along(line: u32, z: u16) -> u32
    requires fits { line < 67917312 }
    ensures { result ≡ line + 512 * (z / 8) + z % 8 }
{
    line + BRICK_WORDS * u32::from(z / BRICK_SIDE) + u32::from(z % BRICK_SIDE)
}
