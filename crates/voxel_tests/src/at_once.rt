//! The forest of a whole matrix: the levels that `support_forest` computes at once are those that it has voxel by voxel.
ghost use Rattle.std.specs.Prelude.{◌≡◌, false, IfOk};
ghost use Rattle.vox_geom.specs.Counting.{IsBlankOf};

use crate::common::{at, set};
use crate::edits::{add_void, assert_floating, assert_level, inside};
use counter_permit::CounterPermit;
use std::alloc::Global;
use std::marker::Brand;
use std::process::Abort;
use std::sync::ledger::{Blank, Ledger};
use std::test::Fail;
use support_forest::{Forest, ForestFault};
use vox_geom::{Coord, Steps};
use vox_planes::Planes;

/// Supported voxels next to a tower with an arm, and a voxel in the air: each voxel, and its level or `None`.
fn arm() -> [(Coord, Option<u32>); 10] {
    [
        (at(0, 0, 3), Some(0)),
        (at(0, 1, 3), Some(1)),
        (at(1, 0, 1), Some(0)),
        (at(1, 1, 1), Some(1)),
        (at(1, 2, 1), Some(2)),
        (at(2, 2, 1), Some(3)),
        (at(2, 3, 1), Some(4)),
        (at(3, 1, 1), Some(5)),
        (at(3, 2, 1), Some(4)),
        (at(4, 4, 4), None),
    ]
}

/// Fills the voxels of the arm at resolution 5.
fn set_arm(rt: &impl Abort, planes: &mut Planes)
    requires { planes.old.resolution ≡ 5 }
    ensures { planes.new.resolution ≡ 5 }
{
    for (c, _) in arm() {
        inside(rt, c, 5);
        set(planes, c, true);
    }
}

/// Adds the voxels of the arm at resolution 5, one by one.
fn add_arm<L: Ledger>(
    rt: &impl Abort,
    forest: &mut Forest,
    steps: &mut Steps<L>,
) -> Result<(), ForestFault>
    requires stands { forest.old.spent ≡ false }
    requires resolution { forest.old.matrix.resolution ≡ 5 }
    ensures stands { IfOk result (λ _. forest.new.spent ≡ false) }
    ensures resolution { IfOk result (λ _. forest.new.matrix.resolution ≡ 5) }
{
    for (c, _) in arm() {
        inside(rt, c, 5);
        add_void(rt, forest, c, steps)?;
    }
    Ok(())
}

/// Asserts that each voxel of the arm has its level.
fn assert_arm<L: Ledger>(rt: &impl Abort, forest: &Forest, steps: &mut Steps<L>)
    requires stands { forest.now.spent ≡ false }
    requires resolution { forest.now.matrix.resolution ≡ 5 }
{
    for (c, level) in arm() {
        inside(rt, c, 5);
        assert_level(rt, forest, c, level, steps);
    }
}

/// Asserts that two forests agree on each voxel.
fn assert_same<L: Ledger>(rt: &impl Abort, one: &Forest, other: &Forest, steps: &mut Steps<L>)
    requires one { one.now.spent ≡ false }
    requires other { other.now.spent ≡ false }
    requires side { one.now.matrix.resolution ≡ 5 }
    requires other_side { other.now.matrix.resolution ≡ 5 }
{
    for p in 0..125 {
        let c = Coord::of_place(p, 5);
        inside(rt, c, 5);
        let level = other.level(c, steps);
        assert_level(rt, one, c, level, steps);
    }
}

/// The forest of a matrix at once has the levels that it has voxel by voxel.
fn arm_at_once<L: Ledger>(rt: &impl Abort, blank: Blank, alloc: Global) -> Result<(), ForestFault>
    requires blank { IsBlankOf blank L.name L.parts }
{
    let mut steps: Steps<L> = Steps::new(blank, CounterPermit);
    let Ok(mut planes) = Planes::empty(alloc, 5) else {
        return Err(ForestFault::Memory);
    };
    set_arm(rt, &mut planes);
    let Ok(whole) = Forest::of(alloc, &planes, &mut steps) else {
        return Err(ForestFault::Memory);
    };
    let Ok(mut grown) = Forest::empty(alloc, 5) else {
        return Err(ForestFault::Memory);
    };
    add_arm(rt, &mut grown, &mut steps)?;
    assert_arm(rt, &whole, &mut steps);
    assert_floating(rt, &whole, 1, Some(at(4, 4, 4)), &mut steps);
    assert_same(rt, &whole, &grown, &mut steps);
    Ok(())
}

#[test]
fn an_arm_has_its_levels_at_once(rt: HostRuntime) -> Result<(), Fail> {
    arm_at_once::<Brand>(&rt, Blank::new(1), rt.alloc())?;
    Ok(())
}
