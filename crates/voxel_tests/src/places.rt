//! Voxels of `vox_planes` by their places, planes without overhangs, and lists of changes.
ghost use Rattle.std.specs.Prelude.{◌+◌, ◌≤◌};
ghost use Rattle.vox_geom.specs.Counting.{IsBlankOf};
ghost use Rattle.nano_spec.specs.Model.{volume};

use crate::common::{at, set};
use crate::planes::{assert_count, assert_full};
use counter_permit::CounterPermit;
use std::alloc::Global;
use std::marker::Brand;
use std::process::Abort;
use std::sync::ledger::{Blank, Ledger};
use std::test::Fail;
use vox_geom::{Memory, Steps};
use vox_planes::{ChangeList, Planes, earlier};

/// Asserts the voxels from a place on, as the bits of a word.
fn assert_places<L: Ledger>(
    rt: &impl Abort,
    planes: &Planes,
    from: u32,
    count: u32,
    bits: u64,
    steps: &mut Steps<L>,
)
    requires count { count ≤ 64 }
    requires within { from + count ≤ volume planes.now.resolution }
{
    assert!(rt; planes.places(from, count, steps) == bits);
}

/// Voxels by their places, across the ends of rows and of a wall.
fn placed<L: Ledger>(rt: &impl Abort, blank: Blank, alloc: Global) -> Result<(), Memory>
    requires blank { IsBlankOf blank L.name L.parts }
{
    let mut steps: Steps<L> = Steps::new(blank, CounterPermit);
    let mut planes = Planes::empty(alloc, 70)?;
    planes.set_row_bits(at(0, 0, 62), 8, 0b1000000);
    planes.set_row_bits(at(0, 1, 0), 3, 0b101);
    assert_full(rt, &planes, at(0, 0, 68), true, &mut steps);
    assert_full(rt, &planes, at(0, 1, 2), true, &mut steps);
    assert_places(rt, &planes, 66, 64, 0b1010100, &mut steps);

    planes.fill_places(4760, 4905);
    assert_count(rt, &planes, 148, &mut steps);
    assert_places(rt, &planes, 4757, 6, 0b111000, &mut steps);
    assert_places(rt, &planes, 4900, 6, 0b011111, &mut steps);

    set(&mut planes, at(1, 0, 60), true);
    assert!(rt; planes.take_row(at(1, 0, 0), 64, !2, &mut steps) == 0x1000_0000_0000_001D);
    assert_places(rt, &planes, 4900, 64, 2, &mut steps);
    Ok(())
}

#[test]
fn by_places(rt: HostRuntime) -> Result<(), Fail> {
    placed::<Brand>(&rt, Blank::new(1), rt.alloc())?;
    Ok(())
}

/// The earlier of two coordinates is the one that comes first by x.
#[test]
fn the_earlier_coordinate(rt: HostRuntime) -> Result<(), Fail> {
    let first = earlier(Some(at(1, 0, 0)), Some(at(0, 2, 3)));
    assert_eq!(rt; first, Some(at(0, 2, 3)));
    Ok(())
}

/// Asserts whether each full voxel is on the floor or above a full one.
fn assert_heap<L: Ledger>(rt: &impl Abort, planes: &Planes, heap: bool, steps: &mut Steps<L>) {
    assert!(rt; planes.has_no_overhangs(steps) == heap);
}

/// Voxels above one another, one that floats, and an overhang.
fn heaps<L: Ledger>(rt: &impl Abort, blank: Blank, alloc: Global) -> Result<(), Memory>
    requires blank { IsBlankOf blank L.name L.parts }
{
    let mut steps: Steps<L> = Steps::new(blank, CounterPermit);
    let mut planes = Planes::empty(alloc, 70)?;
    assert_heap(rt, &planes, true, &mut steps);
    set(&mut planes, at(0, 69, 5), true);
    assert_heap(rt, &planes, false, &mut steps);
    set(&mut planes, at(1, 0, 5), true);
    assert_heap(rt, &planes, false, &mut steps);

    set(&mut planes, at(0, 69, 5), false);
    set(&mut planes, at(69, 0, 69), true);
    set(&mut planes, at(69, 1, 69), true);
    assert_heap(rt, &planes, true, &mut steps);
    set(&mut planes, at(1, 2, 5), true);
    assert_heap(rt, &planes, false, &mut steps);
    set(&mut planes, at(1, 1, 5), true);
    assert_heap(rt, &planes, true, &mut steps);
    set(&mut planes, at(1, 1, 6), true);
    assert_heap(rt, &planes, false, &mut steps);
    Ok(())
}

#[test]
fn stacked(rt: HostRuntime) -> Result<(), Fail> {
    heaps::<Brand>(&rt, Blank::new(1), rt.alloc())?;
    Ok(())
}

/// A list of changes is filled, read and cleared.
#[test]
fn a_list_keeps_its_room(rt: HostRuntime) -> Result<(), Fail> {
    let mut list = ChangeList::with_room(rt.alloc(), 2)?;
    assert_eq!(rt; list.spare(), 2);
    list.push(at(1, 2, 3));
    list.push(at(3, 2, 1));
    assert_eq!(rt; list.spare(), 0);
    assert_eq!(rt; list.as_slice(), [at(1, 2, 3), at(3, 2, 1)].as_slice());
    list.clear();
    assert_eq!(rt; list.spare(), 2);
    assert!(rt; list.as_slice().is_empty());
    Ok(())
}
