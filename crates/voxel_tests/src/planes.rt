//! Planes of `vox_planes` with ample memory: at a small resolution, and at one whose rows take more than one word each.
ghost use Rattle.std.specs.Prelude.{◌≡◌, IfOk};
ghost use Rattle.vox_geom.specs.Counting.{IsBlankOf};
ghost use Rattle.vox_geom.specs.Space.{IsInSpace};

use crate::common::{at, set};
use counter_permit::CounterPermit;
use std::alloc::Global;
use std::marker::Brand;
use std::process::Abort;
use std::sync::ledger::{Blank, Ledger};
use std::test::Fail;
use vox_geom::{Coord, Memory, Region, Steps};
use vox_planes::{ChangeList, Planes};

/// Asserts which coordinates of a region are listed as full, or as void if `full` is false.
fn assert_listed<L: Ledger>(
    rt: &impl Abort,
    planes: &Planes,
    list: &mut ChangeList,
    full: bool,
    b: &Region,
    want: &[Coord],
    steps: &mut Steps<L>,
)
    requires { IsInSpace planes.now.resolution b.now.high }
{
    planes.recall();
    list.clear();
    assert!(rt; b.size() <= list.spare());
    if full {
        planes.list_full(b, list, steps);
    } else {
        planes.list_void(b, list, steps);
    }
    assert_eq!(rt; list.as_slice(), want);
}

/// Asserts the first full coordinate of a region, or that the region is void.
fn assert_first<L: Ledger>(
    rt: &impl Abort,
    planes: &Planes,
    b: &Region,
    want: Option<Coord>,
    steps: &mut Steps<L>,
)
    requires { IsInSpace planes.now.resolution b.now.high }
{
    assert_eq!(rt; planes.region_full(b, steps), want);
}

/// Asserts how many voxels are full.
pub(crate) fn assert_count<L: Ledger>(
    rt: &impl Abort,
    planes: &Planes,
    count: u32,
    steps: &mut Steps<L>,
) {
    assert!(rt; planes.count(steps) == count);
}

/// Asserts whether a voxel is full.
pub(crate) fn assert_full<L: Ledger>(
    rt: &impl Abort,
    planes: &Planes,
    c: Coord,
    full: bool,
    steps: &mut Steps<L>,
)
    requires { IsInSpace planes.now.resolution c }
{
    assert!(rt; planes.full_at(c, steps) == full);
}

/// Asserts the least coordinate at which two matrices differ, or that they are equal.
fn assert_differ<L: Ledger>(
    rt: &impl Abort,
    planes: &Planes,
    other: &Planes,
    first: Option<Coord>,
    steps: &mut Steps<L>,
)
    requires { planes.now.resolution ≡ other.now.resolution }
{
    assert_eq!(rt; planes.equal(other, steps), first);
}

/// Fills or voids a region, and asserts how many voxels change.
fn assert_changed<L: Ledger>(
    rt: &impl Abort,
    planes: &mut Planes,
    b: &Region,
    full: bool,
    count: u32,
    steps: &mut Steps<L>,
)
    requires { IsInSpace planes.old.resolution b.now.high }
    ensures { planes.new.resolution ≡ planes.old.resolution }
{
    assert!(rt; planes.set_region(b, full, steps) == count);
}

/// Returns planes of resolution 3 with two full voxels.
fn two_voxels<L: Ledger>(
    rt: &impl Abort,
    alloc: Global,
    steps: &mut Steps<L>,
) -> Result<Planes, Memory>
    ensures { IfOk result (λ p. p.resolution ≡ 3) }
{
    let mut planes = Planes::empty(alloc, 3)?;
    assert!(rt; planes.resolution() == 3);
    assert_count(rt, &planes, 0, steps);
    set(&mut planes, at(1, 0, 2), true);
    set(&mut planes, at(1, 1, 1), true);
    set(&mut planes, at(2, 1, 0), true);
    set(&mut planes, at(1, 1, 1), false);
    assert_full(rt, &planes, at(1, 0, 2), true, steps);
    assert_full(rt, &planes, at(1, 1, 1), false, steps);
    assert_count(rt, &planes, 2, steps);
    Ok(planes)
}

/// Asserts, on the planes of `two_voxels`, the full coordinates of all space and the void ones of a region.
fn assert_lists<L: Ledger>(
    rt: &impl Abort,
    alloc: Global,
    planes: &Planes,
    steps: &mut Steps<L>,
) -> Result<(), Memory>
    requires { planes.now.resolution ≡ 3 }
{
    let mut list = ChangeList::with_room(alloc, 27)?;
    let all = Region::of(at(0, 0, 0), at(2, 2, 2));
    let full = [at(1, 0, 2), at(2, 1, 0)];
    assert_listed(rt, planes, &mut list, true, &all, &full, steps);
    let part = Region::of(at(1, 0, 1), at(1, 1, 2));
    let void = [at(1, 0, 1), at(1, 1, 1), at(1, 1, 2)];
    assert_listed(rt, planes, &mut list, false, &part, &void, steps);
    Ok(())
}

/// Tests the planes of `two_voxels`: full and void coordinates of regions, and a copy that differs.
fn small<L: Ledger>(rt: &impl Abort, blank: Blank, alloc: Global) -> Result<(), Memory>
    requires blank { IsBlankOf blank L.name L.parts }
{
    let mut steps: Steps<L> = Steps::new(blank, CounterPermit);
    let planes = two_voxels(rt, alloc, &mut steps)?;
    let right = Region::of(at(1, 0, 0), at(2, 1, 2));
    assert_first(rt, &planes, &right, Some(at(1, 0, 2)), &mut steps);
    let left = Region::of(at(0, 0, 0), at(0, 2, 2));
    assert_first(rt, &planes, &left, None, &mut steps);
    let along_x = Region::of(at(2, 0, 2), at(0, 0, 2));
    assert_first(rt, &planes, &along_x, Some(at(1, 0, 2)), &mut steps);
    let along_y = Region::of(at(2, 0, 0), at(2, 2, 0));
    assert_first(rt, &planes, &along_y, Some(at(2, 1, 0)), &mut steps);
    let beside = Region::of(at(2, 0, 1), at(2, 2, 1));
    assert_first(rt, &planes, &beside, None, &mut steps);
    assert_lists(rt, alloc, &planes, &mut steps)?;

    let mut other = planes.copy(alloc)?;
    assert_differ(rt, &planes, &other, None, &mut steps);
    set(&mut other, at(2, 0, 0), true);
    set(&mut other, at(0, 2, 2), true);
    assert_differ(rt, &planes, &other, Some(at(0, 2, 2)), &mut steps);
    Ok(())
}

/// Returns planes with four full voxels in a row of 70, whose bits are in three words, and one full voxel outside that row.
fn wide_row<L: Ledger>(
    rt: &impl Abort,
    alloc: Global,
    steps: &mut Steps<L>,
) -> Result<Planes, Memory>
    ensures { IfOk result (λ p. p.resolution ≡ 70) }
{
    let mut planes = Planes::empty(alloc, 70)?;
    set(&mut planes, at(5, 3, 0), true);
    set(&mut planes, at(5, 3, 63), true);
    set(&mut planes, at(5, 3, 64), true);
    set(&mut planes, at(5, 3, 69), true);
    set(&mut planes, at(6, 0, 1), true);
    assert_count(rt, &planes, 5, steps);
    Ok(planes)
}

/// Asserts, on the planes of `wide_row`, the full coordinates of `rows` and the void ones of a part of the row.
fn assert_wide_lists<L: Ledger>(
    rt: &impl Abort,
    alloc: Global,
    planes: &Planes,
    rows: &Region,
    steps: &mut Steps<L>,
) -> Result<(), Memory>
    requires resolution { planes.now.resolution ≡ 70 }
    requires within { IsInSpace planes.now.resolution rows.now.high }
{
    let mut list = ChangeList::with_room(alloc, 200)?;
    let full = [at(5, 3, 63), at(5, 3, 64), at(5, 3, 69)];
    assert_listed(rt, planes, &mut list, true, rows, &full, steps);
    let part = Region::of(at(5, 3, 62), at(5, 3, 65));
    let void = [at(5, 3, 62), at(5, 3, 65)];
    assert_listed(rt, planes, &mut list, false, &part, &void, steps);
    Ok(())
}

/// Tests the planes of `wide_row`: lists, a copy that differs, and a region that is filled and voided.
fn wide<L: Ledger>(rt: &impl Abort, blank: Blank, alloc: Global) -> Result<(), Memory>
    requires blank { IsBlankOf blank L.name L.parts }
{
    let mut steps: Steps<L> = Steps::new(blank, CounterPermit);
    let mut planes = wide_row(rt, alloc, &mut steps)?;
    let row = Region::of(at(5, 3, 69), at(5, 3, 1));
    assert_first(rt, &planes, &row, Some(at(5, 3, 63)), &mut steps);
    let rows = Region::of(at(5, 3, 1), at(6, 3, 69));
    assert_wide_lists(rt, alloc, &planes, &rows, &mut steps)?;

    let mut other = planes.copy(alloc)?;
    set(&mut other, at(6, 0, 1), false);
    assert_differ(rt, &planes, &other, Some(at(6, 0, 1)), &mut steps);
    set(&mut other, at(5, 3, 69), false);
    assert_differ(rt, &planes, &other, Some(at(5, 3, 69)), &mut steps);

    assert_changed(rt, &mut planes, &rows, true, 135, &mut steps);
    assert_count(rt, &planes, 140, &mut steps);
    assert_changed(rt, &mut planes, &rows, false, 138, &mut steps);
    assert_full(rt, &planes, at(5, 3, 0), true, &mut steps);
    assert_count(rt, &planes, 2, &mut steps);
    Ok(())
}

#[test]
fn three_to_a_row(rt: HostRuntime) -> Result<(), Fail> {
    small::<Brand>(&rt, Blank::new(1), rt.alloc())?;
    Ok(())
}

#[test]
fn seventy_to_a_row(rt: HostRuntime) -> Result<(), Fail> {
    wide::<Brand>(&rt, Blank::new(1), rt.alloc())?;
    Ok(())
}
