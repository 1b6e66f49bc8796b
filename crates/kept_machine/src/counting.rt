//! The number of voxels in which two matrices differ. Touches are not reported.
ghost use Rattle.std.specs.Prelude.{◌≡◌, ◌≤◌};
ghost use Rattle.vox_geom.specs.Counting.{IsBlankOf};
ghost use Rattle.nano_spec.specs.Model.{volume as volume_of};
ghost use Rattle.kept_machine.specs.Calls.{difference_count};

use counter_permit::CounterPermit;
use std::sync::ledger::{Blank, Ledger};
use vox_geom::Steps;
use vox_planes::Planes;

/// Returns the number of voxels of a matrix.
fn volume(matrix: &Planes) -> u32
    ensures value { result ≡ volume_of matrix.now.resolution }
    ensures most { result ≤ 64000000 }
{
    matrix.recall();
    let side = u32::from(matrix.resolution());
    side * side * side
}

/// Counts the coordinates at which two matrices differ, 64 at a time.
pub(crate) fn count_differences<L: Ledger>(matrix: &Planes, target: &Planes, blank: Blank) -> u32
    requires same { matrix.now.resolution ≡ target.now.resolution }
    requires blank { IsBlankOf blank L.name L.parts }
    ensures { result ≡ difference_count matrix.now target.now }
{
    let mut steps = Steps::<L>::new(blank, CounterPermit);
    let places = volume(matrix);
    let mut count = 0;
    let mut from = 0;
    while from < places {
        let some = (places - from).min(64);
        let here = matrix.places(from, some, &mut steps);
        let there = target.places(from, some, &mut steps);
        count += (here ^ there).count_ones();
        from += some;
    }
    count
}
