//! Edits of a forest of `support_forest` whose preconditions a test checks, by the words of the voxels.
ghost use Rattle.std.specs.Prelude.{◌≡◌, ◌≢◌, false, IfOk};
ghost use Rattle.vox_geom.specs.Space.{IsInSpace};
ghost use Rattle.support_forest.specs.ForestView.{Says};

use std::process::Abort;
use std::sync::ledger::Ledger;
use support_forest::{Forest, ForestFault};
use vox_geom::{Coord, Steps};

/// Asserts that the coordinate is in space.
pub(crate) fn inside(rt: &impl Abort, c: Coord, r: u16)
    ensures { IsInSpace r c }
{
    assert!(rt; c.x < r);
    assert!(rt; c.y < r);
    assert!(rt; c.z < r);
}

/// Asserts that the coordinates differ.
fn apart(rt: &impl Abort, a: Coord, b: Coord)
    ensures { a ≢ b }
{
    assert!(rt; a != b);
}

/// Asserts that the word is not that of a void voxel.
fn full(rt: &impl Abort, word: u32)
    ensures { word ≢ 0 }
{
    assert!(rt; word != 0);
}

/// Returns the word of a voxel in the arena, 0 if its brick has no slot.
#[tactic(auto, unfolding(support_forest::specs::Grid::word_index))]
pub(crate) fn word_of<L: Ledger>(forest: &Forest, c: Coord, steps: &mut Steps<L>) -> u32
    requires stands { forest.now.spent ≡ false }
    requires within { IsInSpace forest.now.matrix.resolution c }
    ensures { Says forest.now.matrix c result }
{
    match forest.slot(c) {
        Some(slot) => {
            let index = 64 * (c.x % 8) + 8 * (c.y % 8) + c.z % 8;
            forest.bricks().word(slot, index, steps)
        }
        None => 0,
    }
}

/// Asserts the word of a voxel.
pub(crate) fn assert_word<L: Ledger>(
    rt: &impl Abort,
    forest: &Forest,
    c: Coord,
    word: u32,
    steps: &mut Steps<L>,
)
    requires stands { forest.now.spent ≡ false }
    requires within { IsInSpace forest.now.matrix.resolution c }
{
    assert!(rt; word_of(forest, c, steps) == word);
}

/// Asserts the level of a voxel, or that it has none.
pub(crate) fn assert_level<L: Ledger>(
    rt: &impl Abort,
    forest: &Forest,
    c: Coord,
    level: Option<u32>,
    steps: &mut Steps<L>,
)
    requires stands { forest.now.spent ≡ false }
    requires within { IsInSpace forest.now.matrix.resolution c }
{
    assert_eq!(rt; forest.level(c, steps), level);
}

/// Asserts the parent of a voxel.
pub(crate) fn assert_parent<L: Ledger>(
    rt: &impl Abort,
    forest: &Forest,
    c: Coord,
    parent: Coord,
    steps: &mut Steps<L>,
)
    requires stands { forest.now.spent ≡ false }
    requires within { IsInSpace forest.now.matrix.resolution c }
{
    assert_eq!(rt; forest.parent(c, steps), Some(parent));
}

/// Asserts how many voxels float, and the least of them.
pub(crate) fn assert_floating<L: Ledger>(
    rt: &impl Abort,
    forest: &Forest,
    count: u32,
    first: Option<Coord>,
    steps: &mut Steps<L>,
)
    requires { forest.now.spent ≡ false }
{
    assert!(rt; forest.floating() == count);
    assert_eq!(rt; forest.first_floating(steps), first);
}

/// Adds a voxel that is void by its word.
#[tactic(auto, using(crate::proofs::OneOrTwo::may_add_one))]
pub(crate) fn add_void<L: Ledger>(
    rt: &impl Abort,
    forest: &mut Forest,
    c: Coord,
    steps: &mut Steps<L>,
) -> Result<(), ForestFault>
    requires stands { forest.old.spent ≡ false }
    requires within { IsInSpace forest.old.matrix.resolution c }
    ensures stands { IfOk result (λ _. forest.new.spent ≡ false) }
    ensures resolution { IfOk result (λ _. forest.new.matrix.resolution ≡ forest.old.matrix.resolution) }
{
    let word = word_of(forest, c, steps);
    assert!(rt; word == 0);
    forest.add_one(c, steps)
}

/// Tries the fast path to add a voxel that is void by its word, and returns whether it was added.
#[tactic(auto, using(crate::proofs::OneOrTwo::may_add_one))]
pub(crate) fn stand_void<L: Ledger>(
    rt: &impl Abort,
    forest: &mut Forest,
    c: Coord,
    steps: &mut Steps<L>,
) -> bool
    requires stands { forest.old.spent ≡ false }
    requires within { IsInSpace forest.old.matrix.resolution c }
    ensures stands { forest.new.spent ≡ false }
    ensures resolution { forest.new.matrix.resolution ≡ forest.old.matrix.resolution }
{
    let word = word_of(forest, c, steps);
    assert!(rt; word == 0);
    if forest.try_fill(c, steps) {
        return true;
    }
    false
}

/// Tries the fast path to remove a voxel that is full by its word, and returns whether it was removed.
#[tactic(auto, using(crate::proofs::OneOrTwo::may_remove_one))]
pub(crate) fn clear_full<L: Ledger>(
    rt: &impl Abort,
    forest: &mut Forest,
    c: Coord,
    steps: &mut Steps<L>,
) -> bool
    requires stands { forest.old.spent ≡ false }
    requires within { IsInSpace forest.old.matrix.resolution c }
    ensures stands { forest.new.spent ≡ false }
    ensures resolution { forest.new.matrix.resolution ≡ forest.old.matrix.resolution }
{
    let word = word_of(forest, c, steps);
    assert!(rt; word != 0);
    if forest.try_void(c, steps) {
        return true;
    }
    false
}

/// Adds two voxels that are void by their words.
#[tactic(auto, using(crate::proofs::OneOrTwo::may_add_two))]
pub(crate) fn add_two<L: Ledger>(
    rt: &impl Abort,
    forest: &mut Forest,
    a: Coord,
    b: Coord,
    steps: &mut Steps<L>,
) -> Result<(), ForestFault>
    requires stands { forest.old.spent ≡ false }
    requires a { IsInSpace forest.old.matrix.resolution a }
    requires b { IsInSpace forest.old.matrix.resolution b }
    ensures stands { IfOk result (λ _. forest.new.spent ≡ false) }
    ensures resolution { IfOk result (λ _. forest.new.matrix.resolution ≡ forest.old.matrix.resolution) }
{
    let first = word_of(forest, a, steps);
    let second = word_of(forest, b, steps);
    assert!(rt; a != b);
    assert!(rt; first == 0);
    assert!(rt; second == 0);
    let cells = [a, b];
    forest.add(&cells, steps)
}

/// Removes a voxel that is full by its word.
#[tactic(auto, using(crate::proofs::OneOrTwo::may_remove_one))]
pub(crate) fn remove_full<L: Ledger>(
    rt: &impl Abort,
    forest: &mut Forest,
    c: Coord,
    steps: &mut Steps<L>,
) -> Result<(), ForestFault>
    requires stands { forest.old.spent ≡ false }
    requires within { IsInSpace forest.old.matrix.resolution c }
    ensures stands { IfOk result (λ _. forest.new.spent ≡ false) }
    ensures resolution { IfOk result (λ _. forest.new.matrix.resolution ≡ forest.old.matrix.resolution) }
{
    let word = word_of(forest, c, steps);
    assert!(rt; word != 0);
    forest.remove_one(c, steps)
}

/// Removes two voxels that are full by their words.
pub(crate) fn remove_two<L: Ledger>(
    rt: &impl Abort,
    forest: &mut Forest,
    a: Coord,
    b: Coord,
    steps: &mut Steps<L>,
) -> Result<(), ForestFault>
    requires stands { forest.old.spent ≡ false }
    requires a { IsInSpace forest.old.matrix.resolution a }
    requires b { IsInSpace forest.old.matrix.resolution b }
    ensures stands { IfOk result (λ _. forest.new.spent ≡ false) }
    ensures resolution { IfOk result (λ _. forest.new.matrix.resolution ≡ forest.old.matrix.resolution) }
{
    let first = word_of(forest, a, steps);
    let second = word_of(forest, b, steps);
    apart(rt, a, b);
    full(rt, first);
    full(rt, second);
    let cells = [a, b];
    forest.remove(&cells, steps)
}
