//! Voids segments of voxels along z, within a row of a brick: their slot is looked up once.
//!
//! If a voxel of a segment has a child outside it, all of them are deferred: to try each alone would read the neighbors again.
ghost use Rattle.std.specs.Prelude.{◌≡◌, ℕ, ◌+◌, ◌-◌, ◌*◌, ◌/◌, ◌%◌, ◌^◌, ◌<◌, ◌≤◌, IfOk, IfSome, Some, false, true, length, slice_index_or};
ghost use Rattle.vox_geom.specs.Space.{IsInSpace};
ghost use Rattle.vox_geom.specs.declared.coordinate.Coord.{Coord};
ghost use Rattle.support_forest.specs.Access.{LieInBrick};
ghost use Rattle.support_forest.specs.Grid.{Grid, LiesAtOffset, slot_of, word_at};
ghost use Rattle.support_forest.specs.Indices.{IsReadAt, voxel_in, voxel_of};
ghost use Rattle.support_forest.specs.Segments.{AreCleared, CanClear, EndsAreFree, IsBrickRow, IsSegment, LieInRow, RowHangsNot, RowIsFree, SideHangsNot, SidesAreFree, VoidsMore, WordsHangNot, whole_row_start};
ghost use Rattle.support_forest.specs.Words.{AreExact, IsWritten};

use crate::beside::offset_in_chunk;
use crate::cells::{BRICK_SIDE, Cells};
use crate::toward::{index_across, offset_toward, word_toward};
use crate::void_one::{hangs, try_void};
use brick_arena::Chunk;
use std::alloc::AllocError;
use std::sync::ledger::Ledger;
use vox_geom::{Coord, Steps};

/// Returns how many of the last voxels before `end` follow one another along z in one row of a brick.
#[inline(always)]
fn segment_before(gone: &[Coord], end: usize) -> u16
    requires some { 0 < end }
    requires within { end ≤ length gone.now }
    ensures some { 0 < result }
    ensures below { result ≤ end }
    ensures segment { (c : Coord) → c ≡ slice_index_or gone.now (end - result) c
        → IsSegment gone.now (end - result) result c }
{
    let last = gone[end - 1];
    let most = last.z % BRICK_SIDE + 1;
    let mut count = 1;
    while count < most && usize::from(count) < end {
        let c = gone[end - 1 - usize::from(count)];
        if c.x != last.x || c.y != last.y || c.z != last.z - count {
            return count;
        }
        count += 1;
    }
    count
}

/// Returns whether none of `count` words of the chunk from `from` on has its parent in that direction.
///
/// Reads all of them, so that no read waits for a test.
#[inline(always)]
fn words_hang_not<L: Ledger>(
    chunk: &Chunk,
    from: usize,
    count: u16,
    toward: u32,
    steps: &mut Steps<L>,
) -> bool
    requires within { from + count ≤ length chunk.now }
    requires fits { length chunk.now < 2 ^ 32 }
    ensures none { result ≡ true → WordsHangNot chunk.now from count toward }
    ensures touches { steps.new ≤ steps.old + count }
{
    let mut none = true;
    for k in 0..count {
        let word = chunk.word_behind(from, usize::from(k), steps);
        if !hangs(word, toward) {
            continue;
        }
        none = false;
    }
    none
}

/// Returns whether no word of the row that begins at an index has its parent in that direction. A row of a brick without a slot
/// is void.
#[inline(always)]
fn row_is_free<L: Ledger>(
    cells: &Cells,
    index: u32,
    count: u16,
    toward: u32,
    steps: &mut Steps<L>,
) -> bool
    requires number { index / 512 < length cells.now.table }
    requires row { index % 8 + count ≤ 8 }
    ensures none { result ≡ true → (q : Coord) → LiesAtOffset cells.now.resolution (index / 512) (index % 512) q
        → RowHangsNot (word_at cells.now) q count toward }
    ensures touches { steps.new ≤ steps.old + count }
{
    match cells.slot_beyond(index) {
        Some(slot) => {
            let from = offset_in_chunk(slot, index);
            words_hang_not(cells.chunk(slot), from, count, toward, steps)
        }
        None => true,
    }
}

/// Returns whether no neighbor of the row to one side has its parent in the row, which begins at an index.
///
/// `chunk` contains the slot of its brick, and the word of the first voxel is at the offset `at`.
#[inline(always)]
fn side_is_free<const D: u8, L: Ledger>(
    cells: &Cells,
    index: u32,
    own: u32,
    chunk: &Chunk,
    at: usize,
    count: u16,
    toward: u32,
    steps: &mut Steps<L>,
) -> bool
    requires direction { (0 < D) × (D ≤ 4) }
    requires read { IsReadAt cells.now index own chunk.now at }
    requires row { index % 8 + count ≤ 8 }
    ensures none { result ≡ true → SideHangsNot (word_at cells.now) (voxel_in cells.now index) count D toward }
    ensures touches { steps.new ≤ steps.old + count }
{
    cells.recall();
    if let Some(from) = offset_toward::<D>(index, at) {
        return words_hang_not(chunk, from, count, toward, steps);
    }
    match index_across::<D>(cells, index) {
        Some(next) => row_is_free(cells, next, count, toward, steps),
        None => true,
    }
}

/// Returns whether no neighbor to a side has its parent in the row that begins at an index, and no voxel of the row in the next
/// one.
///
/// The last voxels of the row may lie beyond space.
#[inline(always)]
fn sides_are_free<L: Ledger>(
    cells: &Cells,
    own: u32,
    index: u32,
    count: u16,
    steps: &mut Steps<L>,
) -> bool
    requires brick { LieInBrick cells.now (voxel_in cells.now index) own }
    requires row { index % 8 + count ≤ 8 }
    ensures free { result ≡ true → SidesAreFree (word_at cells.now) (voxel_in cells.now index) count }
    ensures touches { steps.new ≤ steps.old + 5 * count }
{
    cells.recall();
    let chunk = cells.chunk(own);
    let at = offset_in_chunk(own, index);
    if !side_is_free::<4, L>(cells, index, own, chunk, at, count, 3, steps) {
        return false;
    }
    if cells.has_no_overhangs() {
        return true;
    }
    if !side_is_free::<3, L>(cells, index, own, chunk, at, count, 4, steps) {
        return false;
    }
    if !side_is_free::<1, L>(cells, index, own, chunk, at, count, 2, steps) {
        return false;
    }
    if !side_is_free::<2, L>(cells, index, own, chunk, at, count, 1, steps) {
        return false;
    }
    words_hang_not(chunk, at, count, 6, steps)
}

/// Returns whether neither end of the row that begins at an index is a parent of the voxel before or after the row.
#[inline(always)]
fn ends_are_free<L: Ledger>(
    cells: &Cells,
    own: u32,
    index: u32,
    count: u16,
    steps: &mut Steps<L>,
) -> bool
    requires { IsBrickRow cells.now own (voxel_in cells.now index) count }
    ensures free { result ≡ true → EndsAreFree (word_at cells.now) (voxel_in cells.now index) count }
    ensures touches { steps.new ≤ steps.old + 2 }
{
    if cells.has_no_overhangs() {
        return true;
    }
    cells.recall();
    let chunk = cells.chunk(own);
    let at = offset_in_chunk(own, index);
    let near = word_toward::<5, L>(cells, index, own, chunk, at, steps);
    if hangs(near, 6) {
        return false;
    }
    let behind = count - 1;
    let last = index + u32::from(behind);
    let far = word_toward::<6, L>(cells, last, own, chunk, at + usize::from(behind), steps);
    !hangs(far, 5)
}

/// Returns whether the row that begins at an index has no children, except that a voxel may be the child of the next one.
#[inline(always)]
fn is_free<L: Ledger>(cells: &Cells, own: u32, index: u32, count: u16, steps: &mut Steps<L>) -> bool
    requires { IsBrickRow cells.now own (voxel_in cells.now index) count }
    ensures free { result ≡ true → RowIsFree (word_at cells.now) (voxel_in cells.now index) count }
    ensures touches { steps.new ≤ steps.old + 5 * count + 2 }
{
    if !sides_are_free(cells, own, index, count, steps) {
        return false;
    }
    ends_are_free(cells, own, index, count, steps)
}

/// Returns the index of the first voxel of the whole row around an index, as a multiple of 8 that the compiler can see.
#[inline(always)]
pub fn start_of_row(index: u32) -> u32
    ensures first { (side : ℕ) → voxel_of side result ≡ whole_row_start (voxel_of side index) }
    ensures whole { result % 8 ≡ 0 }
    ensures same { index % 8 ≡ 0 → result ≡ index }
{
    index / 8 * 8
}

/// Returns whether the row that begins at an index has no children, except that a voxel may be the child of the next one.
///
/// A whole row is read with constant bounds.
fn are_free<L: Ledger>(
    cells: &Cells,
    own: u32,
    index: u32,
    count: u16,
    steps: &mut Steps<L>,
) -> bool
    requires { IsBrickRow cells.now own (voxel_in cells.now index) count }
    ensures free { result ≡ true → RowIsFree (word_at cells.now) (voxel_in cells.now index) count }
    ensures touches { steps.new ≤ steps.old + 5 * count + 2 }
{
    if count == BRICK_SIDE {
        return is_free(cells, own, start_of_row(index), BRICK_SIDE, steps);
    }
    is_free(cells, own, index, count, steps)
}

/// Returns whether no neighbor to a side has its parent in the whole row, and so none in these voxels of it.
///
/// A whole row is read with constant bounds.
#[inline(always)]
fn sides_of_all_are_free<L: Ledger>(
    cells: &Cells,
    own: u32,
    index: u32,
    count: u16,
    steps: &mut Steps<L>,
) -> bool
    requires { IsBrickRow cells.now own (voxel_in cells.now index) count }
    ensures free { result ≡ true → SidesAreFree (word_at cells.now) (voxel_in cells.now index) count }
    ensures touches { steps.new ≤ steps.old + 20 * count }
{
    if count == 1 {
        return false;
    }
    sides_are_free(cells, own, start_of_row(index), BRICK_SIDE, steps)
}

/// Returns whether the row that begins at an index has no children, except that a voxel may be the child of the next one.
///
/// Tests the whole row first: most parts of rows lie in whole rows without children.
#[inline(always)]
pub fn part_is_free<L: Ledger>(
    cells: &Cells,
    own: u32,
    index: u32,
    count: u16,
    steps: &mut Steps<L>,
) -> bool
    requires { IsBrickRow cells.now own (voxel_in cells.now index) count }
    ensures free { result ≡ true → RowIsFree (word_at cells.now) (voxel_in cells.now index) count }
    ensures touches { steps.new ≤ steps.old + 25 * count + 2 }
{
    if sides_of_all_are_free(cells, own, index, count, steps) {
        return ends_are_free(cells, own, index, count, steps);
    }
    are_free(cells, own, index, count, steps)
}

/// Returns the slot of the row that begins at an index, if the row has no children, except that a voxel may be the child of the
/// next one.
#[inline(always)]
fn free_slot<L: Ledger>(cells: &Cells, index: u32, count: u16, steps: &mut Steps<L>) -> Option<u32>
    requires some { 0 < count }
    requires row { LieInRow cells.now (voxel_in cells.now index) count }
    requires space { (q : Coord) → 0 < word_at cells.now q → IsInSpace cells.now.resolution q }
    ensures row { IfSome result (λ own. IsBrickRow cells.now own (voxel_in cells.now index) count) }
    ensures free { IfSome result (λ _. RowIsFree (word_at cells.now) (voxel_in cells.now index) count) }
    ensures touches { steps.new ≤ steps.old + 5 * count + 2 }
{
    let own = cells.slot_at(index)?;
    if !are_free(cells, own, index, count, steps) {
        return None;
    }
    Some(own)
}

/// Voids the voxel at an index, whose brick has this slot. Its word is not read if there are no overhangs.
#[inline(always)]
fn clear_voxel<L: Ledger>(cells: &mut Cells, own: u32, index: u32, steps: &mut Steps<L>)
    requires within { IsInSpace cells.old.resolution (voxel_in cells.old index) }
    requires slot { slot_of cells.old (voxel_in cells.old index) ≡ Some own }
    ensures resolution { cells.new.resolution ≡ cells.old.resolution }
    ensures slots { cells.new.table ≡ cells.old.table }
    ensures written { IsWritten (word_at cells.old) (word_at cells.new) (voxel_in cells.old index) 0 }
    ensures touches { steps.new ≤ steps.old + 2 }
{
    if cells.has_no_overhangs() {
        cells.write_without_overhang(own, index, 0, steps);
        return;
    }
    let word = cells.word_at(Some(own), index, steps);
    cells.write_at(own, index, word, 0, steps);
}

/// Voids the voxels of the row that begins at an index, from the last to the first.
#[inline(always)]
fn clear_voxels<L: Ledger>(
    cells: &mut Cells,
    own: u32,
    index: u32,
    count: u16,
    steps: &mut Steps<L>,
)
    requires { CanClear cells.old own (voxel_in cells.old index) count }
    ensures { AreCleared cells.old cells.new (voxel_in cells.old index) 0 count steps.old steps.new }
{
    cells.recall();
    let mut left = count;
    while left > 0 {
        left -= 1;
        clear_voxel(cells, own, index + u32::from(left), steps);
    }
}

/// Voids a whole row at once if there are no overhangs, and returns whether it did; otherwise changes nothing.
#[inline(always)]
fn clear_at_once<L: Ledger>(
    cells: &mut Cells,
    own: u32,
    index: u32,
    count: u16,
    steps: &mut Steps<L>,
) -> bool
    requires { CanClear cells.old own (voxel_in cells.old index) count }
    ensures cleared { result ≡ true
        → AreCleared cells.old cells.new (voxel_in cells.old index) 0 count steps.old steps.new }
    ensures stays { result ≡ false → cells.new ≡ cells.old × steps.new ≡ steps.old }
{
    if count < BRICK_SIDE {
        return false;
    }
    if !cells.has_no_overhangs() {
        return false;
    }
    cells.write_row(own, index, 0, steps);
    true
}

/// Voids the voxels of the row that begins at an index.
#[inline(always)]
pub fn clear_row<L: Ledger>(
    cells: &mut Cells,
    own: u32,
    index: u32,
    count: u16,
    steps: &mut Steps<L>,
)
    requires { CanClear cells.old own (voxel_in cells.old index) count }
    ensures { AreCleared cells.old cells.new (voxel_in cells.old index) 0 count steps.old steps.new }
{
    if clear_at_once(cells, own, index, count, steps) {
        return;
    }
    clear_voxels(cells, own, index, count, steps)
}

/// Appends the voxels from the last before `end` down to `start`.
fn list_voxels(
    gone: &[Coord],
    start: usize,
    end: usize,
    rest: &mut Vec<Coord>,
) -> Result<(), AllocError>
    requires order { start ≤ end }
    requires within { end ≤ length gone.now }
    ensures { (now : Grid) (steps : ℕ)
        → IfOk result
        (λ _. VoidsMore now now gone.now end start rest.old.items rest.new.items steps (steps + 6 * (end - start))) }
{
    let mut left = end;
    while left > start {
        left -= 1;
        rest.push(gone[left])?;
    }
    Ok(())
}

/// Voids or defers the last segment of `gone` before `end`, and returns the index of its first voxel.
pub fn void_segment<L: Ledger>(
    cells: &mut Cells,
    gone: &[Coord],
    end: usize,
    rest: &mut Vec<Coord>,
    steps: &mut Steps<L>,
) -> Result<usize, AllocError>
    requires some { 0 < end }
    requires within { end ≤ length gone.now }
    requires exact { AreExact cells.old.resolution (word_at cells.old) }
    requires full { (k : ℕ) (c : Coord) → k < end → c ≡ slice_index_or gone.now k c → 0 < word_at cells.old c }
    ensures before { IfOk result (λ start. start < end) }
    ensures taken { IfOk result
        (λ start. VoidsMore cells.old cells.new gone.now end start rest.old.items rest.new.items steps.old steps.new) }
{
    let count = segment_before(gone, end);
    let start = end - usize::from(count);
    let first = gone[start];
    if count == 1 {
        if !try_void(cells, first, steps) {
            rest.push(first)?;
        }
        return Ok(start);
    }
    let index = cells.index_of(first);
    if let Some(own) = free_slot(cells, index, count, steps) {
        clear_row(cells, own, index, count, steps);
        return Ok(start);
    }
    list_voxels(gone, start, end, rest)?;
    Ok(start)
}
