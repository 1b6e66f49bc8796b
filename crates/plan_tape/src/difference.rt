//! The lowest layer in which two models differ.
ghost use Rattle.std.specs.Prelude.{◌≡◌, ◌<◌, IfNone, IfSome};
ghost use Rattle.vox_geom.specs.Counting.{IsBlankOf};
ghost use Rattle.vox_geom.specs.Least.{LeastOf};
ghost use Rattle.vox_planes.specs.Difference.{in_layer_differ};
ghost use Rattle.plan_tape.specs.Lowest.{IsLowest};

use counter_permit::CounterPermit;
use std::marker::Brand;
use std::sync::ledger::{Blank, Ledger};
use vox_geom::{Coord, Steps};
use vox_planes::Planes;

/// Returns the least coordinate of layer y at which two models differ, counted in a ledger of its own.
fn difference_in<L: Ledger>(source: &Planes, target: &Planes, y: u16, blank: Blank) -> Option<Coord>
    requires same { source.now.resolution ≡ target.now.resolution }
    requires within { y < source.now.resolution }
    requires blank { IsBlankOf blank L.name L.parts }
    ensures { LeastOf source.now.resolution (in_layer_differ source.now target.now y) result }
{
    let mut steps: Steps<L> = Steps::new(blank, CounterPermit);
    source.layer_difference(target, y, &mut steps)
}

/// Returns the lowest layer in which two models of one resolution differ, or `None` if they are equal. Does not allocate.
pub fn lowest_difference(source: &Planes, target: &Planes) -> Option<u16>
    requires same { source.now.resolution ≡ target.now.resolution }
    ensures found { IfSome result (IsLowest source.now target.now) }
    ensures none { IfNone result (source.now ≡ target.now) }
{
    target.recall();
    for y in 0..source.resolution() {
        match difference_in::<Brand>(source, target, y, Blank::new(1)) {
            Some(_) => return Some(y),
            None => {}
        }
    }
    None
}
