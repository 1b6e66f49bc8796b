//! Intersection and bounding box of boxes.
ghost use Rattle.std.specs.Prelude.{◌≡◌, ◌+◌, ◌≤◌, ◌<◌, ◌&&◌, ℕ, length, All, IsTrue};
ghost use Rattle.vox_geom.specs.declared.coordinate.Coord.{Coord as Coordinate};
ghost use Rattle.vox_geom.specs.Point.{point};
ghost use Rattle.vox_geom.specs.Region.{is_within, span};
ghost use Rattle.vox_geom.specs.Space.{IsInSpace};
ghost use Rattle.step_groups.specs.Boxes.{IsBoxIn, IsHull, AreBoxesIn, in_boxes};
ghost use Rattle.vox_geom.specs.Least.{LeastOf};

use vox_geom::{Coord, Region};
use vox_planes::earlier;

/// Returns the least coordinate that a box shares with one of the boxes.
fn clash_box(s: &Region, boxes: &[Region]) -> Option<Coord>
    ensures { (r : ℕ) → IsBoxIn r s.now
        → LeastOf r (λ c. is_within (span s.now) (point c) && in_boxes boxes.now c) result }
{
    let mut least = None;
    for j in 0..boxes.len() {
        let shared = s.meets(&boxes[j]);
        least = earlier(least, shared);
    }
    least
}

/// Returns the least coordinate that two lists of boxes share.
pub(crate) fn clash(first: &[Region], second: &[Region]) -> Option<Coord>
    ensures { (r : ℕ) → AreBoxesIn r first.now → LeastOf r (λ c. in_boxes first.now c && in_boxes second.now c) result }
{
    let mut least = None;
    for i in 0..first.len() {
        let shared = clash_box(&first[i], second);
        least = earlier(least, shared);
    }
    least
}

/// Returns the bounding box of two boxes.
pub(crate) fn around(a: &Region, b: &Region) -> Region
    ensures first { (c : Coordinate) → IsTrue (is_within (span a.now) (point c))
        → IsTrue (is_within (span result) (point c)) }
    ensures second { (c : Coordinate) → IsTrue (is_within (span b.now) (point c))
        → IsTrue (is_within (span result) (point c)) }
{
    let low = a.low();
    let high = a.high();
    let other_low = b.low();
    let other_high = b.high();
    let least = Coord {
        x: low.x.min(other_low.x),
        y: low.y.min(other_low.y),
        z: low.z.min(other_low.z),
    };
    let greatest = Coord {
        x: high.x.max(other_high.x),
        y: high.y.max(other_high.y),
        z: high.z.max(other_high.z),
    };
    Region::of(least, greatest)
}

/// Returns a bounding box of the boxes.
pub(crate) fn hull(boxes: &[Region]) -> Region
    ensures { IsHull result boxes.now }
{
    let mut all = boxes.first().copied().unwrap_or_default();
    for i in 0..boxes.len() {
        all = around(&all, &boxes[i]);
    }
    all
}
