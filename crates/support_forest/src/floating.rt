//! Searches for the first voxel that floats, a row of a brick at a time. A brick without a slot is passed unread.
ghost use Rattle.std.specs.Prelude.{◌≡◌, ◌+◌, ◌*◌, ◌^◌, ◌<◌, ◌≤◌, MatchOption, length};
ghost use Rattle.nano_spec.specs.Model.{volume};
ghost use Rattle.vox_geom.specs.Space.{IsInSpace};
ghost use Rattle.support_forest.specs.Floating.{FirstOne, words_along, words_from};
ghost use Rattle.support_forest.specs.Grid.{FloatsFirst, NoneFloatsBelow};
ghost use Rattle.support_forest.specs.Segments.{LieInRow};

use crate::cells::{BRICK_SIDE, Cells, offset_in_slot};
use brick_arena::{Chunk, start_in_chunk};
use std::sync::ledger::Ledger;
use vox_geom::{Coord, Steps};

/// Returns the index, from `from` on, of the first of `count` words of the chunk that is 1.
fn first_one<L: Ledger>(chunk: &Chunk, from: usize, count: u16, steps: &mut Steps<L>) -> Option<u16>
    requires within { from + count ≤ length chunk.now }
    requires fits { length chunk.now < 2 ^ 32 }
    ensures first { FirstOne (words_from chunk.now from) count result }
    ensures touches { steps.new ≤ steps.old + count }
{
    for k in 0..count {
        if chunk.word_behind(from, usize::from(k), steps) == 1 {
            return Some(k);
        }
    }
    None
}

/// Returns how far along z the first that floats of `count` voxels lies from `at`. They are in one row of a brick.
fn first_in_part<L: Ledger>(
    cells: &Cells,
    at: Coord,
    count: u16,
    steps: &mut Steps<L>,
) -> Option<u16>
    requires { LieInRow cells.now at count }
    ensures first { FirstOne (words_along cells.now at) count result }
    ensures touches { steps.new ≤ steps.old + count }
{
    match cells.slot(at) {
        Some(slot) => {
            let from = start_in_chunk(slot) + usize::from(offset_in_slot(at));
            first_one(cells.chunk(slot), from, count, steps)
        }
        None => None,
    }
}

/// Returns the z of the first voxel that floats in the row of space that begins at `start`.
fn first_in_row<L: Ledger>(cells: &Cells, start: Coord, steps: &mut Steps<L>) -> Option<u16>
    requires within { IsInSpace cells.now.resolution start }
    requires begins { start.z ≡ 0 }
    ensures first { FirstOne (words_along cells.now start) cells.now.resolution result }
    ensures touches { steps.new ≤ steps.old + cells.now.resolution }
{
    let side = cells.resolution();
    for part in 0..side.div_ceil(BRICK_SIDE) {
        let z = part * BRICK_SIDE;
        let at = Coord {
            x: start.x,
            y: start.y,
            z,
        };
        let count = BRICK_SIDE.min(side - z);
        if let Some(k) = first_in_part(cells, at, count, steps) {
            return Some(z + k);
        }
    }
    None
}

/// Returns the first coordinate whose word is 1.
pub fn first_floating<L: Ledger>(cells: &Cells, steps: &mut Steps<L>) -> Option<Coord>
    ensures value { MatchOption result (NoneFloatsBelow cells.now (volume cells.now.resolution))
        (FloatsFirst cells.now) }
    ensures touches { steps.new ≤ steps.old + volume cells.now.resolution }
{
    let resolution = cells.resolution();
    let side = u32::from(resolution);
    for row in 0..side * side {
        let start = Coord::of_place(row * side, resolution);
        if let Some(z) = first_in_row(cells, start, steps) {
            return Some(Coord {
                x: start.x,
                y: start.y,
                z,
            });
        }
    }
    None
}
