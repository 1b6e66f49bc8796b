//! Voids a voxel that has no children.
ghost use Rattle.std.specs.Prelude.{◌≡◌, Some, false};
ghost use Rattle.support_forest.specs.Access.{LieInBrick};
ghost use Rattle.support_forest.specs.Grid.{slot_of, word_at};
ghost use Rattle.support_forest.specs.Indices.{voxel_in};
ghost use Rattle.support_forest.specs.Words.{NoneOverhangs};
ghost use Rattle.support_forest.specs.VoidingOne.{CanVoid, HangsNot, VoidsOrStays, TellsParent};

use crate::beside::offset_in_chunk;
use crate::cells::Cells;
use crate::toward::{word_beside, word_over_floor};
use std::sync::ledger::Ledger;
use vox_geom::{Coord, Steps};

/// Returns whether the word has its parent in that direction. A word without a height is 0 or 1, and has none.
#[inline(always)]
pub fn hangs(word: u32, toward: u32) -> bool
    ensures { result ≡ false → HangsNot word toward }
{
    word % 8 == toward && word != 1
}

/// Returns whether a voxel whose brick has this slot is the parent of a neighbor. Tests each word as it is read, so that none is
/// kept.
#[inline(always)]
fn is_parent_in<L: Ledger>(cells: &Cells, index: u32, slot: u32, steps: &mut Steps<L>) -> bool
    requires { LieInBrick cells.now (voxel_in cells.now index) slot }
    ensures { TellsParent result cells.now (voxel_in cells.now index) steps.old steps.new }
{
    cells.recall();
    let chunk = cells.chunk(slot);
    let at = offset_in_chunk(slot, index);
    let over = word_beside::<4, L>(cells, index, slot, chunk, at, steps);
    if hangs(over, 3) {
        return true;
    }
    let left = word_beside::<1, L>(cells, index, slot, chunk, at, steps);
    if hangs(left, 2) {
        return true;
    }
    let right = word_beside::<2, L>(cells, index, slot, chunk, at, steps);
    if hangs(right, 1) {
        return true;
    }
    let under = word_beside::<3, L>(cells, index, slot, chunk, at, steps);
    if hangs(under, 4) {
        return true;
    }
    let near = word_beside::<5, L>(cells, index, slot, chunk, at, steps);
    if hangs(near, 6) {
        return true;
    }
    let far = word_beside::<6, L>(cells, index, slot, chunk, at, steps);
    hangs(far, 5)
}

/// Like [`is_parent_in`], for a voxel in the highest layer of its brick.
#[inline(never)]
fn is_parent_highest<L: Ledger>(cells: &Cells, index: u32, slot: u32, steps: &mut Steps<L>) -> bool
    requires { LieInBrick cells.now (voxel_in cells.now index) slot }
    ensures { TellsParent result cells.now (voxel_in cells.now index) steps.old steps.new }
{
    is_parent_in(cells, index, slot, steps)
}

/// Like [`is_parent_in`], on two paths: if the first word lies in the voxel's own brick, the chunk is looked up once.
#[inline(always)]
fn is_parent<L: Ledger>(cells: &Cells, index: u32, slot: u32, steps: &mut Steps<L>) -> bool
    requires { LieInBrick cells.now (voxel_in cells.now index) slot }
    ensures { TellsParent result cells.now (voxel_in cells.now index) steps.old steps.new }
{
    if index % 512 >= 448 {
        return is_parent_highest(cells, index, slot, steps);
    }
    is_parent_in(cells, index, slot, steps)
}

/// Like [`try_void`], on the floor. There only the voxel above can be a child.
#[inline(always)]
fn void_from_floor<L: Ledger>(cells: &mut Cells, c: Coord, slot: u32, steps: &mut Steps<L>) -> bool
    requires can { CanVoid cells.old c }
    requires floor { c.y ≡ 0 }
    requires slot { slot_of cells.old c ≡ Some slot }
    ensures { VoidsOrStays result cells.old cells.new c steps.old steps.new }
{
    let over = word_over_floor(cells, c, slot, steps);
    if hangs(over, 3) {
        return false;
    }
    cells.write(slot, c, 8, 0, steps);
    true
}

/// Like [`try_void`], above the floor, for a voxel whose brick has this slot.
#[inline(always)]
fn void_from_air<L: Ledger>(cells: &mut Cells, index: u32, slot: u32, steps: &mut Steps<L>) -> bool
    requires can { CanVoid cells.old (voxel_in cells.old index) }
    requires slot { slot_of cells.old (voxel_in cells.old index) ≡ Some slot }
    ensures { VoidsOrStays result cells.old cells.new (voxel_in cells.old index) steps.old steps.new }
{
    if is_parent(cells, index, slot, steps) {
        return false;
    }
    let word = cells.word_at(Some(slot), index, steps);
    cells.write_at(slot, index, word, 0, steps);
    true
}

/// Like [`try_void`], above the floor in a forest without overhangs. There only the voxel above can be a child.
#[inline(always)]
fn void_without_overhangs<L: Ledger>(
    cells: &mut Cells,
    index: u32,
    slot: u32,
    steps: &mut Steps<L>,
) -> bool
    requires can { CanVoid cells.old (voxel_in cells.old index) }
    requires slot { slot_of cells.old (voxel_in cells.old index) ≡ Some slot }
    requires without_overhangs { NoneOverhangs (word_at cells.old) }
    ensures { VoidsOrStays result cells.old cells.new (voxel_in cells.old index) steps.old steps.new }
{
    cells.recall();
    let chunk = cells.chunk(slot);
    let at = offset_in_chunk(slot, index);
    let over = word_beside::<4, L>(cells, index, slot, chunk, at, steps);
    if over != 0 {
        return false;
    }
    cells.write_without_overhang(slot, index, 0, steps);
    true
}

/// Voids a full voxel if it is no other's parent, and returns whether it did; otherwise changes nothing.
#[inline(always)]
pub fn try_void<L: Ledger>(cells: &mut Cells, c: Coord, steps: &mut Steps<L>) -> bool
    requires { CanVoid cells.old c }
    ensures { VoidsOrStays result cells.old cells.new c steps.old steps.new }
{
    let index = cells.index_of(c);
    let Some(slot) = cells.slot_at(index) else {
        return false;
    };
    if c.y == 0 {
        return void_from_floor(cells, c, slot, steps);
    }
    if cells.has_no_overhangs() {
        return void_without_overhangs(cells, index, slot, steps);
    }
    void_from_air(cells, index, slot, steps)
}
