//! Fills a void voxel if that changes the level of no other voxel.
ghost use Rattle.std.specs.Prelude.{◌≡◌, ◌==◌, ℕ, ◌+◌, ◌<◌, ◌≤◌, IfOk, true};
ghost use Rattle.vox_geom.specs.declared.coordinate.Coord.{Coord};
ghost use Rattle.support_forest.specs.Grid.{word_at};
ghost use Rattle.support_forest.specs.FillingOne.{AreBesideWords, CanFillOne, CanFillOneIn, IsAround, IsWordToward, LeavesRoom, MayLieUnder, MayBeSupported, FillsOrStays, FillsSupportedOrStays};
ghost use Rattle.support_forest.specs.Access.{LieInSpace};
ghost use Rattle.support_forest.specs.Indices.{IsReadAt, voxel_in};
ghost use Rattle.support_forest.specs.Words.{NoneOverhangs};

use crate::beside::{Beside, offset_in_chunk, words_beside, words_beyond};
use crate::cells::Cells;
use crate::toward::{word_beside, word_over_floor, word_toward};
use brick_arena::Chunk;
use std::alloc::AllocError;
use std::sync::ledger::Ledger;
use vox_geom::{Coord, Steps};

/// The neighborhood of a voxel: the least height that the floor or a neighbor gives the voxel (0 if none does), the direction of
/// that parent, the greatest height of a neighbor, and whether a full neighbor has no height. A height is a level plus 1.
#[derive(Clone, Copy)]
pub struct Around {
    pub height: u32,
    pub toward: u8,
    pub highest: u32,
    pub is_loose: bool,
}

/// Returns the neighborhood with one more neighbor, which is in direction `d` and has this word.
fn with_neighbor(around: Around, d: u8, word: u32) -> Around
    ensures { (w : Coord → ℕ) (c : Coord) → IsWordToward w c d word → IsAround w c around d
        → IsAround w c result (d + 1) }
{
    if word == 0 {
        return around;
    }
    if word < 8 {
        return Around {
            is_loose: true,
            ..around
        };
    }
    let height = word / 8;
    let highest = around.highest.max(height);
    if around.height != 0 && around.height <= height + 1 {
        return Around { highest, ..around };
    }
    Around {
        height: height + 1,
        toward: d,
        highest,
        is_loose: around.is_loose,
    }
}

/// Returns the neighborhood of a voxel before any neighbor is read: the floor alone, if the voxel is on it.
pub fn nothing_around(is_on_floor: bool) -> Around
    ensures { (w : Coord → ℕ) (c : Coord) → is_on_floor ≡ (c.y == 0) → IsAround w c result 1 }
{
    Around {
        height: if is_on_floor { 1 } else { 0 },
        toward: 0,
        highest: 0,
        is_loose: false,
    }
}

/// Returns the neighborhood of a voxel from the words of its six neighbors.
pub fn look_around(is_on_floor: bool, beside: Beside) -> Around
    ensures { (w : Coord → ℕ) (c : Coord) → is_on_floor ≡ (c.y == 0) → AreBesideWords w c beside
        → IsAround w c result 7 }
{
    let mut around = nothing_around(is_on_floor);
    around = with_neighbor(around, 1, beside.left);
    around = with_neighbor(around, 2, beside.right);
    around = with_neighbor(around, 3, beside.under);
    around = with_neighbor(around, 4, beside.over);
    around = with_neighbor(around, 5, beside.near);
    with_neighbor(around, 6, beside.far)
}

/// Returns the neighborhood of the voxel at an index, whose brick has this slot and this chunk.
///
/// Tests each word as it is read: a test of all six at the end would wait until all are stored.
#[inline(always)]
fn look_in<L: Ledger>(
    cells: &Cells,
    index: u32,
    slot: u32,
    chunk: &Chunk,
    at: usize,
    is_on_floor: bool,
    steps: &mut Steps<L>,
) -> Around
    requires read { IsReadAt cells.now index slot chunk.now at }
    requires floor { is_on_floor ≡ ((voxel_in cells.now index).y == 0) }
    ensures around { IsAround (word_at cells.now) (voxel_in cells.now index) result 7 }
    ensures touches { steps.new ≤ steps.old + 6 }
{
    let mut around = nothing_around(is_on_floor);
    around = with_neighbor(
        around,
        1,
        word_toward::<1, L>(cells, index, slot, chunk, at, steps),
    );
    around = with_neighbor(
        around,
        2,
        word_toward::<2, L>(cells, index, slot, chunk, at, steps),
    );
    around = with_neighbor(
        around,
        3,
        word_toward::<3, L>(cells, index, slot, chunk, at, steps),
    );
    around = with_neighbor(
        around,
        4,
        word_toward::<4, L>(cells, index, slot, chunk, at, steps),
    );
    around = with_neighbor(
        around,
        5,
        word_toward::<5, L>(cells, index, slot, chunk, at, steps),
    );
    with_neighbor(
        around,
        6,
        word_toward::<6, L>(cells, index, slot, chunk, at, steps),
    )
}

/// Returns the neighborhood of the voxel at an index.
#[inline(always)]
pub fn look_at<L: Ledger>(
    cells: &Cells,
    index: u32,
    is_on_floor: bool,
    steps: &mut Steps<L>,
) -> Around
    requires inside { LieInSpace cells.now (voxel_in cells.now index) }
    requires floor { is_on_floor ≡ ((voxel_in cells.now index).y == 0) }
    ensures around { IsAround (word_at cells.now) (voxel_in cells.now index) result 7 }
    ensures touches { steps.new ≤ steps.old + 6 }
{
    cells.recall();
    match cells.slot_at(index) {
        Some(slot) => look_in(
            cells,
            index,
            slot,
            cells.chunk(slot),
            offset_in_chunk(slot, index),
            is_on_floor,
            steps,
        ),
        None => look_around(is_on_floor, words_beyond(cells, index, steps)),
    }
}

/// Returns whether the word belongs to a void voxel, or to one whose height is from `height` to `height` + 2.
#[inline(always)]
fn leaves_room(word: u32, height: u32) -> bool
    requires { height < 536870912 }
    ensures { result ≡ true → LeavesRoom word height }
{
    word == 0 || (word >= 8 * height && word - 8 * height < 24)
}

/// Returns whether a void voxel can be filled as a child of the voxel below without changing another level.
#[inline(always)]
fn may_be_supported(beside: Beside) -> bool
    ensures { result ≡ true → MayBeSupported beside }
{
    let height = beside.under / 8;
    height > 0
        && leaves_room(beside.left, height)
        && leaves_room(beside.right, height)
        && leaves_room(beside.over, height)
        && leaves_room(beside.near, height)
        && leaves_room(beside.far, height)
}

/// Returns whether the word belongs to a void voxel, or to one whose level stays if the floor voxel below it is filled.
#[inline(always)]
fn may_lie_under(word: u32) -> bool
    ensures { result ≡ true → MayLieUnder word }
{
    word == 0 || (word >= 8 && word < 24)
}

/// Like [`fill_locally`] in the general case, from the words of the six neighbors.
#[inline(never)]
fn fill_beside<L: Ledger>(
    cells: &mut Cells,
    c: Coord,
    beside: Beside,
    steps: &mut Steps<L>,
) -> Result<bool, AllocError>
    requires can { CanFillOne cells.old c }
    requires words { AreBesideWords (word_at cells.old) c beside }
    ensures { IfOk result
        (λ done. (before : ℕ) → steps.old ≤ before + 6 → FillsOrStays done cells.old cells.new c before steps.new) }
{
    cells.recall();
    let around = look_around(c.y == 0, beside);
    if around.height == 0 {
        cells.fill(c, 1, steps)?;
        return Ok(true);
    }
    if around.is_loose || around.height + 1 < around.highest {
        return Ok(false);
    }
    cells.fill(c, 8 * around.height + u32::from(around.toward), steps)?;
    Ok(true)
}

/// Like [`fill_locally`], for a voxel whose brick has no slot.
#[inline(never)]
fn fill_in_void_brick<L: Ledger>(
    cells: &mut Cells,
    c: Coord,
    steps: &mut Steps<L>,
) -> Result<bool, AllocError>
    requires { CanFillOne cells.old c }
    ensures { IfOk result (λ done. FillsOrStays done cells.old cells.new c steps.old steps.new) }
{
    let beside = words_beyond(cells, cells.index_of(c), steps);
    fill_beside(cells, c, beside, steps)
}

/// Like [`fill_locally`], for a voxel on the floor whose brick has this slot.
///
/// A full voxel on the floor has level 0, so only the level of the voxel above can change.
#[inline(always)]
fn fill_on_floor<L: Ledger>(cells: &mut Cells, c: Coord, slot: u32, steps: &mut Steps<L>) -> bool
    requires can { CanFillOneIn cells.old c slot }
    requires floor { c.y ≡ 0 }
    ensures { FillsSupportedOrStays result cells.old cells.new c steps.old steps.new }
{
    let over = word_over_floor(cells, c, slot, steps);
    if !may_lie_under(over) {
        return false;
    }
    cells.write(slot, c, 0, 8, steps);
    true
}

/// Like [`fill_locally`], for a voxel above the floor whose brick has this slot.
#[inline(always)]
fn fill_above_floor<L: Ledger>(
    cells: &mut Cells,
    c: Coord,
    slot: u32,
    steps: &mut Steps<L>,
) -> Result<bool, AllocError>
    requires { CanFillOneIn cells.old c slot }
    ensures { IfOk result (λ done. FillsOrStays done cells.old cells.new c steps.old steps.new) }
{
    let beside = words_beside(cells, cells.index_of(c), steps);
    if may_be_supported(beside) {
        cells.write(slot, c, 0, 8 * (beside.under / 8) + 11, steps);
        return Ok(true);
    }
    fill_beside(cells, c, beside, steps)
}

/// Fills a void voxel if that changes no other level, and returns whether it did; otherwise changes nothing.
///
/// Each path reads its own words, so that they stay in registers.
#[inline(always)]
pub fn fill_locally<L: Ledger>(
    cells: &mut Cells,
    c: Coord,
    steps: &mut Steps<L>,
) -> Result<bool, AllocError>
    requires { CanFillOne cells.old c }
    ensures { IfOk result (λ done. FillsOrStays done cells.old cells.new c steps.old steps.new) }
{
    let Some(slot) = cells.slot(c) else {
        return fill_in_void_brick(cells, c, steps);
    };
    if c.y == 0 {
        return Ok(fill_on_floor(cells, c, slot, steps));
    }
    fill_above_floor(cells, c, slot, steps)
}

/// Like [`try_fill`], for the voxel at an index, above the floor, whose brick has this slot.
///
/// Tests each word as it is read, so that none is kept.
#[inline(always)]
fn fill_by<L: Ledger>(cells: &mut Cells, index: u32, slot: u32, steps: &mut Steps<L>) -> bool
    requires { CanFillOneIn cells.old (voxel_in cells.old index) slot }
    ensures { FillsSupportedOrStays result cells.old cells.new (voxel_in cells.old index) steps.old steps.new }
{
    cells.recall();
    let chunk = cells.chunk(slot);
    let at = offset_in_chunk(slot, index);
    let under = word_beside::<3, L>(cells, index, slot, chunk, at, steps);
    let height = under / 8;
    if height == 0 {
        return false;
    }
    let left = word_beside::<1, L>(cells, index, slot, chunk, at, steps);
    if !leaves_room(left, height) {
        return false;
    }
    let right = word_beside::<2, L>(cells, index, slot, chunk, at, steps);
    if !leaves_room(right, height) {
        return false;
    }
    let over = word_beside::<4, L>(cells, index, slot, chunk, at, steps);
    if !leaves_room(over, height) {
        return false;
    }
    let near = word_beside::<5, L>(cells, index, slot, chunk, at, steps);
    if !leaves_room(near, height) {
        return false;
    }
    let far = word_beside::<6, L>(cells, index, slot, chunk, at, steps);
    if !leaves_room(far, height) {
        return false;
    }
    cells.write_at(slot, index, 0, 8 * height + 11, steps);
    true
}

/// Like [`fill_in`], for a voxel in the lowest layer of its brick.
#[inline(never)]
fn fill_lowest<L: Ledger>(cells: &mut Cells, index: u32, slot: u32, steps: &mut Steps<L>) -> bool
    requires { CanFillOneIn cells.old (voxel_in cells.old index) slot }
    ensures { FillsSupportedOrStays result cells.old cells.new (voxel_in cells.old index) steps.old steps.new }
{
    fill_by(cells, index, slot, steps)
}

/// Like [`fill_by`], on two paths: if the voxel below, which is read first, is in the same brick, the chunk is looked up once.
#[inline(always)]
fn fill_in<L: Ledger>(cells: &mut Cells, index: u32, slot: u32, steps: &mut Steps<L>) -> bool
    requires { CanFillOneIn cells.old (voxel_in cells.old index) slot }
    ensures { FillsSupportedOrStays result cells.old cells.new (voxel_in cells.old index) steps.old steps.new }
{
    if index % 512 < 64 {
        return fill_lowest(cells, index, slot, steps);
    }
    fill_by(cells, index, slot, steps)
}

/// Like [`try_fill`], for a voxel above the floor in a forest without overhangs.
///
/// In such a forest the level of each full voxel is its y, so only the voxel below is read.
#[inline(always)]
fn fill_without_overhangs<L: Ledger>(
    cells: &mut Cells,
    index: u32,
    slot: u32,
    steps: &mut Steps<L>,
) -> bool
    requires can { CanFillOneIn cells.old (voxel_in cells.old index) slot }
    requires without_overhangs { NoneOverhangs (word_at cells.old) }
    ensures { FillsSupportedOrStays result cells.old cells.new (voxel_in cells.old index) steps.old steps.new }
{
    cells.recall();
    let chunk = cells.chunk(slot);
    let at = offset_in_chunk(slot, index);
    let under = word_beside::<3, L>(cells, index, slot, chunk, at, steps);
    if under == 0 {
        return false;
    }
    cells.write_without_overhang(slot, index, 8 * (under / 8) + 11, steps);
    true
}

/// Fills a void voxel on the floor or above a full one if that changes no other level, and returns whether it did.
///
/// Changes nothing otherwise.
#[inline(always)]
pub fn try_fill<L: Ledger>(cells: &mut Cells, c: Coord, steps: &mut Steps<L>) -> bool
    requires { CanFillOne cells.old c }
    ensures { FillsSupportedOrStays result cells.old cells.new c steps.old steps.new }
{
    let index = cells.index_of(c);
    let Some(slot) = cells.slot_at(index) else {
        return false;
    };
    if c.y == 0 {
        return fill_on_floor(cells, c, slot, steps);
    }
    if cells.has_no_overhangs() {
        return fill_without_overhangs(cells, index, slot, steps);
    }
    fill_in(cells, index, slot, steps)
}
