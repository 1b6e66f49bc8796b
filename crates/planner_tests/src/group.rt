//! Rows and runs of models by `group_planner`, counted by hand.
use crate::models::{at, put};
use group_planner::{rows, runs};
use std::alloc::Global;
use std::process::Abort;
use std::test::Fail;
use vox_geom::Memory;
use vox_planes::Planes;

/// Rows of 63 and of one voxel, and one more voxel in the first of them.
fn counted(rt: &impl Abort, alloc: Global) -> Result<(), Memory> {
    let mut planes = Planes::empty(alloc, 70)?;
    assert_eq!(rt; (rows(&planes), runs(&planes)), (0, 0));
    planes.fill_places(4901, 4964);
    assert_eq!(rt; (rows(&planes), runs(&planes)), (1, 3));
    put(&mut planes, at(1, 0, 65));
    put(&mut planes, at(2, 3, 5));
    assert_eq!(rt; (rows(&planes), runs(&planes)), (2, 5));
    Ok(())
}

#[test]
fn long_pieces_are_cut(rt: HostRuntime) -> Result<(), Fail> {
    counted(&rt, rt.alloc())?;
    Ok(())
}

/// Fills the voxels of a house in one line: walls at x and z of 5 and 14, and a roof at y of 8.
fn put_line(planes: &mut Planes, x: u16, y: u16) {
    for z in 5..15 {
        if y == 8 || x == 5 || x == 14 || z == 5 || z == 14 {
            put(planes, at(x, y, z));
        }
    }
}

/// Fills the voxels of the house at one x.
fn put_wall(planes: &mut Planes, x: u16) {
    for y in 0..9 {
        put_line(planes, x, y);
    }
}

/// Returns the rows and the runs of the house.
fn counted_house(alloc: Global) -> Result<(u32, u32), Memory> {
    let mut house = Planes::empty(alloc, 20)?;
    for x in 5..15 {
        put_wall(&mut house, x);
    }
    Ok((rows(&house), runs(&house)))
}

#[test]
fn a_house_has_rows_and_runs(rt: HostRuntime) -> Result<(), Fail> {
    let counts = counted_house(rt.alloc())?;
    assert_eq!(rt; counts, (90, 154));
    Ok(())
}
