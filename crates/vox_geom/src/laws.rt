//! Laws of the definitions, each the contract of a function that does nothing.
ghost use Rattle.std.specs.Prelude.{◌≡◌, ◌<◌, ◌≤◌, ◌*◌, ◌↔◌, ℕ, Bool, IsTrue, Option, count_by, find};
ghost use Rattle.vox_geom.specs.declared.coordinate.Coord.{Coord};
ghost use Rattle.vox_geom.specs.Least.{LeastOf};
ghost use Rattle.vox_geom.specs.Point.{point};
ghost use Rattle.vox_geom.specs.Region.{Span, is_within, size};
ghost use Rattle.vox_geom.specs.Space.{IsInSpace, coordinates, coordinate_at, is_before, place};
ghost use Rattle.vox_geom.specs.Worked.{WorkedCoordinates, WorkedDifferences, WorkedRegions};

/// The first of all coordinates of a matrix that passes a test is the least one that does.
pub fn least_is_first()
    ensures found { (r : ℕ) (test : Coord → Bool) (least : Option Coord) → LeastOf r test least
        → find test (coordinates r) ≡ least }
    ensures is_least { (r : ℕ) (test : Coord → Bool) → LeastOf r test (find test (coordinates r)) }
{}

/// Places rise as their coordinates do, and each place below the volume is that of a coordinate in space.
pub fn places_rise()
    ensures rise { (r : ℕ) (a b : Coord) → IsInSpace r a → IsInSpace r b
        → IsTrue (is_before a b) ↔ (place r a < place r b) }
    ensures within { (r p : ℕ) → p < r * r * r → IsInSpace r (coordinate_at r p) }
{}

/// A region has at most as many coordinates of a matrix as its size, even if it leaves the matrix.
pub fn a_region_is_no_larger()
    ensures { (r : ℕ) (s : Span) → count_by (λ c. is_within s (point c)) (coordinates r) ≤ size s }
{}

/// Worked examples of differences, coordinates and regions.
pub fn worked_geometry()
    ensures differences { WorkedDifferences }
    ensures coordinates { WorkedCoordinates }
    ensures regions { WorkedRegions }
{}
