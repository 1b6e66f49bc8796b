//! The runs of a row, from a given z on.
ghost use Rattle.std.specs.Prelude.{◌≡◌, ◌<◌, ◌≤◌, find, IfNone, IfSome};
ghost use Rattle.vox_geom.specs.Counting.{IsBlankOf};
ghost use Rattle.vox_geom.specs.Space.{IsInSpace};
ghost use Rattle.vox_planes.specs.Voxel.{is_state};
ghost use Rattle.vox_planes.specs.Walk.{row};
ghost use Rattle.group_planner.specs.Runs.{IsCut, IsRunEnd, IsNextRun, IsNoRun, IsRun};

use counter_permit::CounterPermit;
use std::marker::Brand;
use std::sync::ledger::{Blank, Ledger};
use vox_geom::{Coord, Steps};
use vox_planes::Planes;

/// The longest run in voxels.
const LONGEST: u16 = 31;

/// A run: its first z, and the one after its last.
#[derive(Clone, Copy)]
pub struct RowRun {
    pub first: u16,
    pub end: u16,
}

/// Returns the first voxel of a row that is full, or void, with touches counted in a ledger of its own.
fn next_in<L: Ledger>(
    planes: &Planes,
    first: Coord,
    last: u16,
    full: bool,
    blank: Blank,
) -> Option<Coord>
    requires within { IsInSpace planes.now.resolution first }
    requires order { first.z ≤ last }
    requires end { last < planes.now.resolution }
    requires blank { IsBlankOf blank L.name L.parts }
    ensures { result ≡ find (is_state planes.now full) (row first last) }
{
    let mut steps: Steps<L> = Steps::new(blank, CounterPermit);
    planes.row_next(first, last, full, &mut steps)
}

/// Returns the first z in a range at which the row of x and y is full, or void, or the end if there is none.
fn next(planes: &Planes, first: Coord, end: u16, full: bool) -> u16
    requires x { first.x < planes.now.resolution }
    requires y { first.y < planes.now.resolution }
    requires order { first.z ≤ end }
    requires end { end ≤ planes.now.resolution }
    ensures { IsRunEnd planes.now first.x first.y first.z end full result }
{
    if first.z == end {
        return end;
    }
    match next_in::<Brand>(planes, first, end - 1, full, Blank::new(1)) {
        Some(c) => c.z,
        None => end,
    }
}

/// Returns the first run of the row of x and y from a z on that no run goes across.
pub fn next_run(planes: &Planes, x: u16, y: u16, z: u16) -> Option<RowRun>
    requires x { x < planes.now.resolution }
    requires y { y < planes.now.resolution }
    requires z { z ≤ planes.now.resolution }
    requires cut { IsCut planes.now x y z }
    ensures found { IfSome result (IsNextRun planes.now x y z) }
    ensures none { IfNone result (IsNoRun planes.now x y z) }
{
    let r = planes.resolution();
    let first = next(planes, Coord { x, y, z }, r, true);
    if first == r {
        return None;
    }
    let most = r.min(first + LONGEST);
    let end = next(planes, Coord { x, y, z: first }, most, false);
    Some(RowRun { first, end })
}

/// Returns the last run of the row of x and y, from one of its runs on.
pub fn last_run(planes: &Planes, x: u16, y: u16, run: RowRun) -> RowRun
    requires x { x < planes.now.resolution }
    requires y { y < planes.now.resolution }
    requires run { IsRun planes.now x y run }
    ensures run { IsRun planes.now x y result }
    ensures last { IsNoRun planes.now x y result.end }
{
    let mut last = run;
    while let Some(next) = next_run(planes, x, y, last.end) {
        last = next;
    }
    last
}
