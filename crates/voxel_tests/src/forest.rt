//! Levels of `support_forest` that edits change: that the calls succeed, which no clause guarantees, and worked levels.
ghost use Rattle.std.specs.Prelude.{◌≡◌, false, IfOk};
ghost use Rattle.vox_geom.specs.Counting.{IsBlankOf};
ghost use Rattle.vox_geom.specs.Space.{IsInSpace};

use crate::common::at;
use crate::edits::{
    add_two, add_void, assert_floating, assert_level, assert_parent, assert_word, clear_full,
    inside, remove_full, remove_two, stand_void,
};
use counter_permit::CounterPermit;
use std::alloc::Global;
use std::marker::Brand;
use std::process::Abort;
use std::sync::ledger::{Blank, Ledger};
use std::test::Fail;
use support_forest::{Forest, ForestFault};
use vox_geom::{Coord, Steps};

/// A ring of eight voxels around (2, 1, 2) on two posts: each voxel, its level, and its level without the post at (1, 0, 1).
fn ring() -> [(Coord, u32, u32); 9] {
    [
        (at(3, 0, 3), 0, 0),
        (at(1, 1, 1), 1, 5),
        (at(1, 1, 2), 2, 4),
        (at(1, 1, 3), 3, 3),
        (at(2, 1, 1), 2, 4),
        (at(2, 1, 3), 2, 2),
        (at(3, 1, 1), 3, 3),
        (at(3, 1, 2), 2, 2),
        (at(3, 1, 3), 1, 1),
    ]
}

/// Adds the voxels of the ring at resolution 5, one by one.
fn add_ring<L: Ledger>(
    rt: &impl Abort,
    forest: &mut Forest,
    steps: &mut Steps<L>,
) -> Result<(), ForestFault>
    requires stands { forest.old.spent ≡ false }
    requires resolution { forest.old.matrix.resolution ≡ 5 }
    ensures stands { IfOk result (λ _. forest.new.spent ≡ false) }
    ensures resolution { IfOk result (λ _. forest.new.matrix.resolution ≡ 5) }
{
    for (c, _, _) in ring() {
        inside(rt, c, 5);
        add_void(rt, forest, c, steps)?;
    }
    Ok(())
}

/// Asserts that each voxel of the ring has the level without the post, or the one with it.
fn assert_levels<L: Ledger>(rt: &impl Abort, forest: &Forest, without: bool, steps: &mut Steps<L>)
    requires stands { forest.now.spent ≡ false }
    requires resolution { forest.now.matrix.resolution ≡ 5 }
{
    for (c, with_post, without_post) in ring() {
        inside(rt, c, 5);
        let level = if without { without_post } else { with_post };
        assert_level(rt, forest, c, Some(level), steps);
    }
}

/// Removes the posts: first the one at (1, 0, 1), without which the ring keeps its levels by the other, and then that one.
fn without_posts<L: Ledger>(
    rt: &impl Abort,
    forest: &mut Forest,
    steps: &mut Steps<L>,
) -> Result<(), ForestFault>
    requires stands { forest.old.spent ≡ false }
    requires resolution { forest.old.matrix.resolution ≡ 5 }
{
    remove_full(rt, forest, at(1, 0, 1), steps)?;
    assert_levels(rt, forest, true, steps);
    assert_parent(rt, forest, at(1, 1, 2), at(1, 1, 3), steps);
    assert_floating(rt, forest, 0, None, steps);
    remove_full(rt, forest, at(3, 0, 3), steps)?;
    assert_floating(rt, forest, 8, Some(at(1, 1, 1)), steps);
    assert_level(rt, forest, at(3, 1, 3), None, steps);
    Ok(())
}

/// The ring keeps its levels by the other post, and floats without both.
fn ring_on_posts<L: Ledger>(rt: &impl Abort, blank: Blank, alloc: Global) -> Result<(), ForestFault>
    requires blank { IsBlankOf blank L.name L.parts }
{
    let mut steps: Steps<L> = Steps::new(blank, CounterPermit);
    let Ok(mut forest) = Forest::empty(alloc, 5) else {
        return Err(ForestFault::Memory);
    };
    add_ring(rt, &mut forest, &mut steps)?;
    add_void(rt, &mut forest, at(1, 0, 1), &mut steps)?;
    assert_levels(rt, &forest, false, &mut steps);
    without_posts(rt, &mut forest, &mut steps)
}

/// The ring without its post at (1, 0, 1) and its voxel at (2, 1, 3): a chain from the other post on, with each voxel's level.
fn chain() -> [(Coord, u32); 8] {
    [
        (at(3, 0, 3), 0),
        (at(3, 1, 3), 1),
        (at(3, 1, 2), 2),
        (at(3, 1, 1), 3),
        (at(2, 1, 1), 4),
        (at(1, 1, 1), 5),
        (at(1, 1, 2), 6),
        (at(1, 1, 3), 7),
    ]
}

/// Asserts that each voxel of the chain has its level.
fn assert_chain<L: Ledger>(rt: &impl Abort, forest: &Forest, steps: &mut Steps<L>)
    requires stands { forest.now.spent ≡ false }
    requires resolution { forest.now.matrix.resolution ≡ 5 }
{
    for (c, level) in chain() {
        inside(rt, c, 5);
        assert_level(rt, forest, c, Some(level), steps);
    }
}

/// Removes voxels two at once: first those without which the ring is a chain, and then the other post and the end of the chain.
fn without_pairs<L: Ledger>(
    rt: &impl Abort,
    forest: &mut Forest,
    steps: &mut Steps<L>,
) -> Result<(), ForestFault>
    requires stands { forest.old.spent ≡ false }
    requires resolution { forest.old.matrix.resolution ≡ 5 }
{
    remove_two(rt, forest, at(1, 0, 1), at(2, 1, 3), steps)?;
    assert_chain(rt, forest, steps);
    assert_level(rt, forest, at(2, 1, 3), None, steps);
    assert_floating(rt, forest, 0, None, steps);
    remove_two(rt, forest, at(3, 0, 3), at(1, 1, 3), steps)?;
    assert_floating(rt, forest, 6, Some(at(1, 1, 1)), steps);
    Ok(())
}

/// The ring on both posts, from which voxels are removed two at once.
fn pairs_go<L: Ledger>(rt: &impl Abort, blank: Blank, alloc: Global) -> Result<(), ForestFault>
    requires blank { IsBlankOf blank L.name L.parts }
{
    let mut steps: Steps<L> = Steps::new(blank, CounterPermit);
    let Ok(mut forest) = Forest::empty(alloc, 5) else {
        return Err(ForestFault::Memory);
    };
    add_ring(rt, &mut forest, &mut steps)?;
    add_void(rt, &mut forest, at(1, 0, 1), &mut steps)?;
    without_pairs(rt, &mut forest, &mut steps)
}

/// The fast path adds a voxel above one of the floor, but none next to it, and removes it once no voxel is its child.
fn one_on_another<L: Ledger>(
    rt: &impl Abort,
    forest: &mut Forest,
    steps: &mut Steps<L>,
) -> Result<(), ForestFault>
    requires stands { forest.old.spent ≡ false }
    requires resolution { forest.old.matrix.resolution ≡ 5 }
{
    assert!(rt; !stand_void(rt, forest, at(1, 0, 1), steps));
    add_void(rt, forest, at(1, 0, 1), steps)?;
    assert!(rt; stand_void(rt, forest, at(1, 1, 1), steps));
    assert_level(rt, forest, at(1, 1, 1), Some(1), steps);
    assert!(rt; !stand_void(rt, forest, at(2, 1, 1), steps));
    assert!(rt; !clear_full(rt, forest, at(1, 0, 1), steps));
    assert!(rt; clear_full(rt, forest, at(1, 1, 1), steps));
    assert!(rt; clear_full(rt, forest, at(1, 0, 1), steps));
    assert_floating(rt, forest, 0, None, steps);
    Ok(())
}

/// The fast paths add and remove voxels.
fn voxels_at_once<L: Ledger>(
    rt: &impl Abort,
    blank: Blank,
    alloc: Global,
) -> Result<(), ForestFault>
    requires blank { IsBlankOf blank L.name L.parts }
{
    let mut steps: Steps<L> = Steps::new(blank, CounterPermit);
    let Ok(mut forest) = Forest::empty(alloc, 5) else {
        return Err(ForestFault::Memory);
    };
    one_on_another(rt, &mut forest, &mut steps)
}

/// Asserts that two voxels are in two slots.
fn assert_two_slots(rt: &impl Abort, forest: &Forest, one: Coord, other: Coord)
    requires stands { forest.now.spent ≡ false }
    requires one { IsInSpace forest.now.matrix.resolution one }
    requires other { IsInSpace forest.now.matrix.resolution other }
{
    assert!(rt; forest.slot(one) != forest.slot(other));
    assert!(rt; forest.bricks().live() == 2);
}

/// Two bricks have two slots, and their words give levels and parents.
fn two_bricks<L: Ledger>(rt: &impl Abort, blank: Blank, alloc: Global) -> Result<(), ForestFault>
    requires blank { IsBlankOf blank L.name L.parts }
{
    let mut steps: Steps<L> = Steps::new(blank, CounterPermit);
    let Ok(mut forest) = Forest::empty(alloc, 9) else {
        return Err(ForestFault::Memory);
    };
    let (low, high) = (at(0, 0, 0), at(8, 1, 0));
    assert!(rt; forest.slot(low).is_none());
    add_two(rt, &mut forest, low, high, &mut steps)?;
    assert_two_slots(rt, &forest, low, high);
    assert_word(rt, &forest, low, 8, &mut steps);
    assert_word(rt, &forest, high, 1, &mut steps);
    assert_floating(rt, &forest, 1, Some(high), &mut steps);
    add_void(rt, &mut forest, at(8, 0, 0), &mut steps)?;
    assert_word(rt, &forest, high, 19, &mut steps);
    assert_parent(rt, &forest, high, at(8, 0, 0), &mut steps);
    assert_floating(rt, &forest, 0, None, &mut steps);
    Ok(())
}

#[test]
fn a_ring_hangs_on_its_other_post(rt: HostRuntime) -> Result<(), Fail> {
    ring_on_posts::<Brand>(&rt, Blank::new(1), rt.alloc())?;
    Ok(())
}

#[test]
fn two_voxels_go_at_once(rt: HostRuntime) -> Result<(), Fail> {
    pairs_go::<Brand>(&rt, Blank::new(1), rt.alloc())?;
    Ok(())
}

#[test]
fn two_bricks_have_two_slots(rt: HostRuntime) -> Result<(), Fail> {
    two_bricks::<Brand>(&rt, Blank::new(1), rt.alloc())?;
    Ok(())
}

#[test]
fn a_voxel_stands_and_is_cleared_at_once(rt: HostRuntime) -> Result<(), Fail> {
    voxels_at_once::<Brand>(&rt, Blank::new(1), rt.alloc())?;
    Ok(())
}
