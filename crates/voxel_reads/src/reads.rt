//! Voxels that are read with a counter of touches that is discarded.
ghost use Rattle.std.specs.Prelude.{◌≡◌, ◌&&◌, find};
ghost use Rattle.vox_geom.specs.Counting.{IsBlankOf};
ghost use Rattle.vox_geom.specs.Point.{point};
ghost use Rattle.vox_geom.specs.Region.{is_within, span};
ghost use Rattle.vox_geom.specs.Space.{IsInSpace};
ghost use Rattle.nano_spec.specs.Matrix.{all_of, is_full as is_full_of};

use counter_permit::CounterPermit;
use std::marker::Brand;
use std::sync::ledger::{Blank, Ledger};
use vox_geom::{Coord, Region, Steps};
use vox_planes::Planes;

/// Returns whether the voxel is full. Counts touches in its own ledger.
fn is_full_in<L: Ledger>(planes: &Planes, c: Coord, blank: Blank) -> bool
    requires within { IsInSpace planes.now.resolution c }
    requires blank { IsBlankOf blank L.name L.parts }
    ensures { result ≡ is_full_of planes.now c }
{
    let mut steps: Steps<L> = Steps::new(blank, CounterPermit);
    planes.full_at(c, &mut steps)
}

/// Returns whether the voxel at the coordinate is full. Its touches are not counted.
pub fn is_full(planes: &Planes, c: Coord) -> bool
    requires { IsInSpace planes.now.resolution c }
    ensures { result ≡ is_full_of planes.now c }
{
    is_full_in::<Brand>(planes, c, Blank::new(1))
}

/// Returns the least full voxel of a region. Counts touches in its own ledger.
fn first_full_in<L: Ledger>(planes: &Planes, region: &Region, blank: Blank) -> Option<Coord>
    requires within { IsInSpace planes.now.resolution region.now.high }
    requires blank { IsBlankOf blank L.name L.parts }
    ensures { result
        ≡ find (λ c. is_full_of planes.now c && is_within (span region.now) (point c)) (all_of planes.now) }
{
    let mut steps: Steps<L> = Steps::new(blank, CounterPermit);
    planes.region_full(region, &mut steps)
}

/// Returns the least full voxel of a region, or `None` if the region is void. Its touches are not counted.
pub fn first_full(planes: &Planes, region: &Region) -> Option<Coord>
    requires { IsInSpace planes.now.resolution region.now.high }
    ensures { result
        ≡ find (λ c. is_full_of planes.now c && is_within (span region.now) (point c)) (all_of planes.now) }
{
    first_full_in::<Brand>(planes, region, Blank::new(1))
}
