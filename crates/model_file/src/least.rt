//! Least full voxels, with a counter of touches that is discarded.
ghost use Rattle.std.specs.Prelude.{◌&&◌, not};
ghost use Rattle.vox_geom.specs.Counting.{IsBlankOf};
ghost use Rattle.vox_geom.specs.Least.{LeastOf};
ghost use Rattle.nano_spec.specs.Legal.{in_legal_box};
ghost use Rattle.nano_spec.specs.Matrix.{is_full};

use counter_permit::CounterPermit;
use std::marker::Brand;
use std::sync::ledger::{Blank, Ledger};
use vox_geom::{Coord, Region, Steps};
use vox_planes::{Planes, earlier};

/// Returns the least full voxel. Counts touches in its own ledger.
fn least_full_in<L: Ledger>(planes: &Planes, blank: Blank) -> Option<Coord>
    requires blank { IsBlankOf blank L.name L.parts }
    ensures { LeastOf planes.now.resolution (is_full planes.now) result }
{
    let mut steps: Steps<L> = Steps::new(blank, CounterPermit);
    let end = planes.resolution() - 1;
    let low = Coord { x: 0, y: 0, z: 0 };
    let all = Region::of(
        low,
        Coord {
            x: end,
            y: end,
            z: end,
        },
    );
    planes.region_full(&all, &mut steps)
}

/// Returns the least full voxel.
pub fn least_full(planes: &Planes) -> Option<Coord>
    ensures { LeastOf planes.now.resolution (is_full planes.now) result }
{
    least_full_in::<Brand>(planes, Blank::new(1))
}

/// Returns the least full voxel outside the legal box. Counts touches in its own ledger.
fn first_outside_in<L: Ledger>(planes: &Planes, blank: Blank) -> Option<Coord>
    requires blank { IsBlankOf blank L.name L.parts }
    ensures { LeastOf planes.now.resolution (λ c. is_full planes.now c && not (in_legal_box planes.now.resolution c))
        result }
{
    let mut steps: Steps<L> = Steps::new(blank, CounterPermit);
    let end = planes.resolution() - 1;
    let low = Coord { x: 0, y: 0, z: 0 };
    let high = Coord {
        x: end,
        y: end,
        z: end,
    };
    let left = planes.region_full(&Region::of(low, Coord { x: 0, ..high }), &mut steps);
    let right = planes.region_full(&Region::of(Coord { x: end, ..low }, high), &mut steps);
    let front = planes.region_full(&Region::of(low, Coord { z: 0, ..high }), &mut steps);
    let back = planes.region_full(&Region::of(Coord { z: end, ..low }, high), &mut steps);
    let top = planes.region_full(&Region::of(Coord { y: end, ..low }, high), &mut steps);
    let sides = earlier(earlier(left, right), earlier(front, back));
    earlier(sides, top)
}

/// Returns the least full voxel outside the legal box.
pub fn first_outside(planes: &Planes) -> Option<Coord>
    ensures { LeastOf planes.now.resolution (λ c. is_full planes.now c && not (in_legal_box planes.now.resolution c))
        result }
{
    first_outside_in::<Brand>(planes, Blank::new(1))
}
