//! The words of a voxel and of its six neighbors.
ghost use Rattle.std.specs.Prelude.{◌≡◌, ◌+◌, ◌%◌, ◌<◌, ◌≤◌, ℕ};
ghost use Rattle.brick_arena.specs.Slots.{start_in_chunk as start_in_chunk_of};
ghost use Rattle.vox_geom.specs.Space.{IsInSpace};
ghost use Rattle.vox_geom.specs.declared.coordinate.Coord.{Coord};
ghost use Rattle.support_forest.specs.Access.{LieInSpace};
ghost use Rattle.support_forest.specs.Grid.{word_at};
ghost use Rattle.support_forest.specs.FillingOne.{AreBesideWords};
ghost use Rattle.support_forest.specs.Indices.{IsReadAt, voxel_in};

use crate::cells::{BRICK_WORDS, Cells};
use crate::toward::{word_beyond, word_toward};
use brick_arena::{Chunk, start_in_chunk};
use std::sync::ledger::Ledger;
use vox_geom::Steps;

/// The words of a voxel's six neighbors, in the order of the directions; 0 if there is none.
#[derive(Clone, Copy)]
pub struct Beside {
    pub left: u32,
    pub right: u32,
    pub under: u32,
    pub over: u32,
    pub near: u32,
    pub far: u32,
}

/// Returns the offset of an index's word in the chunk that contains the slot of its brick.
#[inline(always)]
pub fn offset_in_chunk(slot: u32, index: u32) -> usize
    ensures { result ≡ start_in_chunk_of slot + index % 512 }
{
    start_in_chunk(slot) + (index % BRICK_WORDS) as usize
}

/// Returns the word of the voxel at an index.
///
/// `chunk` contains the slot of its brick, and `at` is the offset of the word there: the chunk is looked up once if neighbors are
/// read too.
#[inline(always)]
pub fn word_here<L: Ledger>(
    cells: &Cells,
    index: u32,
    slot: u32,
    chunk: &Chunk,
    at: usize,
    steps: &mut Steps<L>,
) -> u32
    requires { IsReadAt cells.now index slot chunk.now at }
    ensures value { result ≡ word_at cells.now (voxel_in cells.now index) }
    ensures touch { steps.new ≤ steps.old + 1 }
{
    cells.recall();
    chunk.word(at, steps)
}

/// Reads the neighbors of the voxel at an index whose brick has no slot.
#[inline(never)]
pub fn words_beyond<L: Ledger>(cells: &Cells, index: u32, steps: &mut Steps<L>) -> Beside
    requires { LieInSpace cells.now (voxel_in cells.now index) }
    ensures words { AreBesideWords (word_at cells.now) (voxel_in cells.now index) result }
    ensures touches { steps.new ≤ steps.old + 6 }
{
    Beside {
        left: word_beyond::<1, L>(cells, index, steps),
        right: word_beyond::<2, L>(cells, index, steps),
        under: word_beyond::<3, L>(cells, index, steps),
        over: word_beyond::<4, L>(cells, index, steps),
        near: word_beyond::<5, L>(cells, index, steps),
        far: word_beyond::<6, L>(cells, index, steps),
    }
}

/// Reads the neighbors of the voxel at an index whose brick has this slot and this chunk.
///
/// Reads all six before any is tested; one call each is faster than a loop.
#[inline(always)]
pub fn words_in<L: Ledger>(
    cells: &Cells,
    index: u32,
    slot: u32,
    chunk: &Chunk,
    at: usize,
    steps: &mut Steps<L>,
) -> Beside
    requires { IsReadAt cells.now index slot chunk.now at }
    ensures words { AreBesideWords (word_at cells.now) (voxel_in cells.now index) result }
    ensures touches { steps.new ≤ steps.old + 6 }
{
    Beside {
        left: word_toward::<1, L>(cells, index, slot, chunk, at, steps),
        right: word_toward::<2, L>(cells, index, slot, chunk, at, steps),
        under: word_toward::<3, L>(cells, index, slot, chunk, at, steps),
        over: word_toward::<4, L>(cells, index, slot, chunk, at, steps),
        near: word_toward::<5, L>(cells, index, slot, chunk, at, steps),
        far: word_toward::<6, L>(cells, index, slot, chunk, at, steps),
    }
}

/// Reads the neighbors of the voxel at an index.
#[inline(always)]
pub fn words_beside<L: Ledger>(cells: &Cells, index: u32, steps: &mut Steps<L>) -> Beside
    requires { LieInSpace cells.now (voxel_in cells.now index) }
    ensures words { AreBesideWords (word_at cells.now) (voxel_in cells.now index) result }
    ensures few { cells.now.resolution ≤ 400 }
    ensures touches { steps.new ≤ steps.old + 6 }
{
    cells.recall();
    match cells.slot_at(index) {
        Some(slot) => words_in(
            cells,
            index,
            slot,
            cells.chunk(slot),
            offset_in_chunk(slot, index),
            steps,
        ),
        None => words_beyond(cells, index, steps),
    }
}
