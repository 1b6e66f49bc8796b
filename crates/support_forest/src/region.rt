//! Voids the full voxels of a region, row by row: only those of rows with children are deferred.
ghost use Rattle.std.specs.Prelude.{◌≡◌, ◌+◌, ◌-◌, ◌*◌, ◌/◌, ◌%◌, ◌^◌, ◌<◌, ◌≤◌, ℕ, IfOk, Some, length, slice_index, true};
ghost use Rattle.vox_geom.specs.Region.{size, span};
ghost use Rattle.vox_geom.specs.Space.{IsInSpace};
ghost use Rattle.vox_planes.specs.Walk.{wall_size};
ghost use Rattle.support_forest.specs.Grid.{slot_of, word_at};
ghost use Rattle.support_forest.specs.Indices.{voxel_in};
ghost use Rattle.support_forest.specs.Regions.{AreVoided, IsInRegion, IsInRow, IsInWall};
ghost use Rattle.support_forest.specs.Segments.{IsBrickRow, LieInRow, further, whole_row_start};
ghost use Rattle.support_forest.specs.Words.{AreExact};

use crate::beside::offset_in_chunk;
use crate::cells::{BRICK_SIDE, Cells};
use crate::indices::index_along;
use crate::segment::{clear_row, part_is_free, start_of_row};
use brick_arena::Chunk;
use std::alloc::AllocError;
use std::sync::ledger::Ledger;
use vox_geom::{Coord, Region, Steps};

/// Returns whether `count` words of the chunk from `from` on are all 0. Reads all of them, so that no read waits for a test.
#[inline(always)]
fn words_are_void<L: Ledger>(chunk: &Chunk, from: usize, count: u16, steps: &mut Steps<L>) -> bool
    requires within { from + count ≤ length chunk.now }
    requires fits { length chunk.now < 2 ^ 32 }
    ensures void { result ≡ true → (k : ℕ) → k < count → slice_index chunk.now (from + k) ≡ 0 }
    ensures touches { steps.new ≤ steps.old + count }
{
    let mut void = true;
    for k in 0..count {
        if chunk.word_behind(from, usize::from(k), steps) == 0 {
            continue;
        }
        void = false;
    }
    void
}

/// Returns whether the forest has overhangs and the whole row of the voxel at an index is void. `own` is the slot of its brick.
///
/// Without overhangs it does not read the row: the row above shows its children, and writing it is cheaper than reading it first.
#[inline(always)]
fn row_is_void<L: Ledger>(cells: &Cells, own: u32, index: u32, steps: &mut Steps<L>) -> bool
    requires within { IsInSpace cells.now.resolution (voxel_in cells.now index) }
    requires own { slot_of cells.now (voxel_in cells.now index) ≡ Some own }
    ensures void { result ≡ true → (k : ℕ) → k < 8
        → word_at cells.now (further (whole_row_start (voxel_in cells.now index)) k) ≡ 0 }
    ensures touches { steps.new ≤ steps.old + 8 }
{
    if cells.has_no_overhangs() {
        return false;
    }
    cells.recall();
    let chunk = cells.chunk(own);
    let from = offset_in_chunk(own, start_of_row(index));
    words_are_void(chunk, from, BRICK_SIDE, steps)
}

/// Appends the full voxels of a part of a row, in the brick with this slot, to the deferred voxels.
fn list_part<L: Ledger>(
    cells: &Cells,
    own: u32,
    first: Coord,
    count: u16,
    rest: &mut Vec<Coord>,
    steps: &mut Steps<L>,
) -> Result<(), AllocError>
    requires row { IsBrickRow cells.now own first count }
    requires exact { AreExact cells.now.resolution (word_at cells.now) }
    ensures listed { IfOk result
        (λ _. AreVoided cells.now cells.now (IsInRow first count) count rest.old.items rest.new.items) }
    ensures touches { IfOk result (λ _. steps.new ≤ steps.old + count) }
{
    let mut left = count;
    while left > 0 {
        left -= 1;
        let at = Coord {
            z: first.z + left,
            ..first
        };
        if cells.word_in(Some(own), at, steps) == 0 {
            continue;
        }
        rest.push(at)?;
    }
    Ok(())
}

/// Voids the full voxels of a part of a row in one brick, or defers them. The first of them is at that index.
#[inline(always)]
fn void_part<L: Ledger>(
    cells: &mut Cells,
    first: Coord,
    index: u32,
    count: u16,
    rest: &mut Vec<Coord>,
    steps: &mut Steps<L>,
) -> Result<(), AllocError>
    requires some { 0 < count }
    requires index { voxel_in cells.old index ≡ first }
    requires row { LieInRow cells.old first count }
    requires exact { AreExact cells.old.resolution (word_at cells.old) }
    ensures voided { IfOk result
        (λ _. AreVoided cells.old cells.new (IsInRow first count) count rest.old.items rest.new.items) }
    ensures touches { IfOk result (λ _. steps.new ≤ steps.old + 40 * count) }
{
    let Some(own) = cells.slot_at(index) else {
        return Ok(());
    };
    if row_is_void(cells, own, index, steps) {
        return Ok(());
    }
    if part_is_free(cells, own, index, count, steps) {
        clear_row(cells, own, index, count, steps);
        return Ok(());
    }
    list_part(cells, own, first, count, rest, steps)
}

/// Voids the full voxels of a row from one on, before `end`, or defers them.
fn void_row<L: Ledger>(
    cells: &mut Cells,
    first: Coord,
    end: u16,
    rest: &mut Vec<Coord>,
    steps: &mut Steps<L>,
) -> Result<(), AllocError>
    requires within { IsInSpace cells.old.resolution first }
    requires order { first.z ≤ end }
    requires end { end ≤ cells.old.resolution }
    requires exact { AreExact cells.old.resolution (word_at cells.old) }
    ensures voided { IfOk result
        (λ _. AreVoided cells.old cells.new (IsInRow first (end - first.z)) (end - first.z) rest.old.items
        rest.new.items) }
    ensures touches { IfOk result (λ _. steps.new ≤ steps.old + 40 * (end - first.z)) }
{
    cells.recall();
    let line = cells.index_of(Coord { z: 0, ..first });
    let mut left = end;
    while left > first.z {
        let part = ((left - 1) % BRICK_SIDE + 1).min(left - first.z);
        left -= part;
        let at = Coord { z: left, ..first };
        void_part(cells, at, index_along(line, left), part, rest, steps)?;
    }
    Ok(())
}

/// Voids the full voxels of a region with this x, or defers them.
fn void_wall<L: Ledger>(
    cells: &mut Cells,
    b: &Region,
    x: u16,
    rest: &mut Vec<Coord>,
    steps: &mut Steps<L>,
) -> Result<(), AllocError>
    requires within { IsInSpace cells.old.resolution b.now.high }
    requires high { x ≤ b.now.high.x }
    requires exact { AreExact cells.old.resolution (word_at cells.old) }
    ensures voided { IfOk result
        (λ _. AreVoided cells.old cells.new (IsInWall b.now x b.now.low.y) (wall_size b.now) rest.old.items
        rest.new.items) }
    ensures touches { IfOk result (λ _. steps.new ≤ steps.old + 40 * wall_size b.now) }
{
    cells.recall();
    let low = b.low();
    let high = b.high();
    let mut y = high.y + 1;
    while y > low.y {
        y -= 1;
        void_row(cells, Coord { x, y, z: low.z }, high.z + 1, rest, steps)?;
    }
    Ok(())
}

/// Voids the full voxels of a region or defers them, from the last to the first, so that children come before their parents.
pub fn void_region<L: Ledger>(
    cells: &mut Cells,
    b: &Region,
    rest: &mut Vec<Coord>,
    steps: &mut Steps<L>,
) -> Result<(), AllocError>
    requires within { IsInSpace cells.old.resolution b.now.high }
    requires exact { AreExact cells.old.resolution (word_at cells.old) }
    ensures voided { IfOk result
        (λ _. AreVoided cells.old cells.new (IsInRegion b.now) (size (span b.now)) rest.old.items rest.new.items) }
    ensures touches { IfOk result (λ _. steps.new ≤ steps.old + 40 * size (span b.now)) }
{
    cells.recall();
    let low = b.low();
    let high = b.high();
    let mut x = high.x + 1;
    while x > low.x {
        x -= 1;
        void_wall(cells, b, x, rest, steps)?;
    }
    Ok(())
}
