//! The word of a voxel's neighbor in one direction, and the index of a neighbor in another brick.
ghost use Rattle.std.specs.Prelude.{◌≡◌, ◌+◌, ◌*◌, ◌/◌, ◌%◌, ◌^◌, ◌<◌, ◌≤◌, ℕ, IfSome, MatchOption, Some};
ghost use Rattle.vox_geom.specs.Space.{IsInSpace};
ghost use Rattle.vox_geom.specs.declared.coordinate.Coord.{Coord};
ghost use Rattle.support_forest.specs.Access.{LieInSpace, ReadsToward};
ghost use Rattle.support_forest.specs.Grid.{slot_of, word_at};
ghost use Rattle.support_forest.specs.FillingOne.{EndsBrick, IsMovedOffsetToward, IsIndexAcross, IsWordToward, NoneToward};
ghost use Rattle.support_forest.specs.Indices.{IsReadAt, voxel_of, voxel_in};

use crate::cells::{BRICK_LAYER, BRICK_WORDS, Cells, offset_in_slot};
use brick_arena::Chunk;
use std::sync::ledger::Ledger;
use vox_geom::{Coord, Steps};

/// Returns the offset one step lower, or `None` if `part` is within the first step. `part` is the index modulo eight steps.
#[inline(always)]
fn offset_below(part: usize, at: usize, step: usize) -> Option<usize>
    requires { step ≤ part → step ≤ at }
    ensures { MatchOption result (part < step) (λ i. (step ≤ part) × (i + step ≡ at)) }
{
    if part < step {
        return None;
    }
    Some(at - step)
}

/// Returns the offset one step higher, or `None` if `part` is within the last step.
#[inline(always)]
fn offset_above(part: usize, at: usize, step: usize) -> Option<usize>
    requires { (at < 2 ^ 31) × (step ≤ 64) }
    ensures { MatchOption result (7 * step ≤ part) (λ i. (part < 7 * step) × (i ≡ at + step)) }
{
    if part >= 7 * step {
        return None;
    }
    Some(at + step)
}

/// Returns the offset of the word of the neighbor in a direction, if it lies in the same brick. `at` is the offset of the voxel's
/// own word.
#[inline(always)]
pub fn offset_toward<const D: u8>(index: u32, at: usize) -> Option<usize>
    requires direction { (0 < D) × (D ≤ 6) }
    requires own { index % 512 ≤ at }
    requires fits { at < 2 ^ 31 }
    ensures { (side : ℕ) → MatchOption result (EndsBrick (voxel_of side index) D)
        (IsMovedOffsetToward (voxel_of side index) D (index % 512) at) }
{
    match D {
        1 => offset_below((index % 64) as usize, at, 8),
        2 => offset_above((index % 64) as usize, at, 8),
        3 => offset_below((index % 512) as usize, at, 64),
        4 => offset_above((index % 512) as usize, at, 64),
        5 => offset_below((index % 8) as usize, at, 1),
        _ => offset_above((index % 8) as usize, at, 1),
    }
}

/// Returns the index that lies this many bricks before one, if there are as many.
#[inline(always)]
fn index_less(index: u32, bricks: u32) -> Option<u32>
    requires { bricks < 4096 }
    ensures { MatchOption result (index / 512 < bricks) (λ less. less + 512 * bricks ≡ index) }
{
    if index < BRICK_WORDS * bricks {
        return None;
    }
    Some(index - BRICK_WORDS * bricks)
}

/// Returns the index of the neighbor in a direction, which lies in another brick.
///
/// Checks no bound of space: if no neighbor lies in space, the index is that of a voxel beyond space, or `None`.
#[inline(always)]
pub fn index_across<const D: u8>(cells: &Cells, index: u32) -> Option<u32>
    requires direction { (0 < D) × (D ≤ 6) }
    requires within { IsInSpace cells.now.resolution (voxel_in cells.now index) }
    requires last { EndsBrick (voxel_in cells.now index) D }
    ensures across { MatchOption result (NoneToward cells.now.resolution (voxel_in cells.now index) D)
        (IsIndexAcross cells.now.resolution (voxel_in cells.now index) D) }
    ensures line { IfSome result (λ next. D ≤ 4 → next % 8 ≡ index % 8) }
{
    cells.recall();
    let row = u32::from(cells.side());
    let wall = row * row;
    match D {
        1 => index_less(index + 56, wall),
        2 => Some(index - 56 + BRICK_WORDS * wall),
        3 => index_less(index + 448, row),
        4 => Some(index - 448 + BRICK_WORDS * row),
        5 => index_less(index + 7, 1),
        _ => Some(index - 7 + BRICK_WORDS),
    }
}

/// Returns the word of the neighbor in a direction, which lies in another brick; 0 if there is none.
#[inline(always)]
fn word_across<const D: u8, L: Ledger>(cells: &Cells, index: u32, steps: &mut Steps<L>) -> u32
    requires direction { (0 < D) × (D ≤ 6) }
    requires inside { LieInSpace cells.now (voxel_in cells.now index) }
    requires last { EndsBrick (voxel_in cells.now index) D }
    ensures { ReadsToward cells.now index D result steps.old steps.new }
{
    cells.recall();
    match index_across::<D>(cells, index) {
        Some(next) => cells.word_at_index(next, steps),
        None => 0,
    }
}

/// Like [`word_across`], but out of line for each direction, so that the path within a brick stays small.
#[inline(never)]
fn word_apart<const D: u8, L: Ledger>(cells: &Cells, index: u32, steps: &mut Steps<L>) -> u32
    requires direction { (0 < D) × (D ≤ 6) }
    requires inside { LieInSpace cells.now (voxel_in cells.now index) }
    requires last { EndsBrick (voxel_in cells.now index) D }
    ensures { ReadsToward cells.now index D result steps.old steps.new }
{
    word_across::<D, L>(cells, index, steps)
}

/// Returns the word of the neighbor in a direction, 0 if there is none, of a voxel whose brick may have no slot.
#[inline(always)]
pub fn word_beyond<const D: u8, L: Ledger>(cells: &Cells, index: u32, steps: &mut Steps<L>) -> u32
    requires direction { (0 < D) × (D ≤ 6) }
    requires inside { LieInSpace cells.now (voxel_in cells.now index) }
    ensures { ReadsToward cells.now index D result steps.old steps.new }
{
    cells.recall();
    if let Some(next) = offset_toward::<D>(index, index as usize) {
        return cells.word_at_index(next as u32, steps);
    }
    word_across::<D, L>(cells, index, steps)
}

/// Returns the word of the neighbor in a direction; 0 if there is none.
///
/// `chunk` contains the slot of the voxel's brick, and `at` is the offset of its word there: it is looked up once for several
/// words. The path to another brick is inlined too.
#[inline(always)]
pub fn word_toward<const D: u8, L: Ledger>(
    cells: &Cells,
    index: u32,
    slot: u32,
    chunk: &Chunk,
    at: usize,
    steps: &mut Steps<L>,
) -> u32
    requires direction { (0 < D) × (D ≤ 6) }
    requires read { IsReadAt cells.now index slot chunk.now at }
    ensures { ReadsToward cells.now index D result steps.old steps.new }
{
    cells.recall();
    if let Some(i) = offset_toward::<D>(index, at) {
        return chunk.word(i, steps);
    }
    word_across::<D, L>(cells, index, steps)
}

/// Like [`word_toward`], but calls the path to another brick, so that the path within a brick stays small.
///
/// A constant parameter in its place would keep the other path in the size that the compiler measures before it inlines.
#[inline(always)]
pub fn word_beside<const D: u8, L: Ledger>(
    cells: &Cells,
    index: u32,
    slot: u32,
    chunk: &Chunk,
    at: usize,
    steps: &mut Steps<L>,
) -> u32
    requires direction { (0 < D) × (D ≤ 6) }
    requires read { IsReadAt cells.now index slot chunk.now at }
    ensures { ReadsToward cells.now index D result steps.old steps.new }
{
    cells.recall();
    if let Some(i) = offset_toward::<D>(index, at) {
        return chunk.word(i, steps);
    }
    word_apart::<D, L>(cells, index, steps)
}

/// Returns the word of the voxel above one of the floor, whose brick has this slot: it lies in the same brick, or beyond space,
/// and has the word 0.
#[inline(always)]
pub fn word_over_floor<L: Ledger>(cells: &Cells, c: Coord, slot: u32, steps: &mut Steps<L>) -> u32
    requires within { IsInSpace cells.now.resolution c }
    requires floor { c.y ≡ 0 }
    requires slot { slot_of cells.now c ≡ Some slot }
    ensures word { IsWordToward (word_at cells.now) c 4 result }
    ensures touch { steps.new ≤ steps.old + 1 }
{
    cells.recall();
    cells.word_of(slot, offset_in_slot(c) + BRICK_LAYER, steps)
}
