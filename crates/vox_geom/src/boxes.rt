//! Regions: boxes of coordinates.
ghost use Rattle.std.specs.Prelude.{◌≡◌, ◌+◌, ◌*◌, ◌≤◌, ℕ, IfSome, IfNone, count_by, pos};
ghost use Rattle.vox_geom.specs.declared.coordinate.Coord.{Coord as Coordinate};
ghost use Rattle.vox_geom.specs.Point.{Point, point};
ghost use Rattle.vox_geom.specs.Region.{between, corners, span, dimension, size as size_of, is_within, is_between as is_between_of, differs as differs_of, extent as extent_of, IsOrdered, AreShared, IsSharedAt, IsLeastOf};
ghost use Rattle.vox_geom.specs.Space.{IsInSpace, coordinates};

use crate::MOST_R;
use crate::coordinate::Coord;
use std::marker::Model;

/// The box between two coordinates, ends included, stored by its least and its greatest corner.
#[derive(Clone, Copy, PartialEq, Eq, Default, Debug)]
pub struct Region {
    low: Coord,
    high: Coord,
}

impl Model for Region {
    ghost use Rattle.vox_geom.specs.Region.{Corners, IsOrdered};

    ghost Value = { Corners };

    ghost view = { λ b. record { low = b.low; high = b.high } };

    ghost invariant = { λ b. IsOrdered (record { low = b.low; high = b.high }) };

    ghost inverse = { λ k. record { low = k.low; high = k.high } };
}

/// Returns the number of components from one to the other, ends included.
fn extent(low: u16, high: u16) -> u32
    requires { low ≤ high }
    ensures value { result ≡ extent_of (pos low) (pos high) }
    ensures most { result ≤ high + 1 }
{
    u32::from(high - low) + 1
}

/// Returns 1 if the ends differ, and 0 otherwise.
fn differs(low: u16, high: u16) -> u8
    ensures { result ≡ differs_of (pos low) (pos high) }
{
    if low == high { 0 } else { 1 }
}

/// Returns whether a component lies between the ends.
fn is_between(low: u16, high: u16, v: u16) -> bool
    requires { low ≤ high }
    ensures { result ≡ is_between_of (pos low) (pos high) (pos v) }
{
    low <= v && v <= high
}

/// Returns the least component that lies between both ends, or `None` if there is none.
fn least_shared(low: u16, high: u16, other_low: u16, other_high: u16) -> Option<u16>
    requires ordered { low ≤ high }
    requires other_ordered { other_low ≤ other_high }
    ensures shared { IfSome result (IsSharedAt low high other_low other_high) }
    ensures least { IfSome result (λ v. (w : ℕ) → IsSharedAt low high other_low other_high w → v ≤ w) }
    ensures none { IfNone result ((w : ℕ) → IsSharedAt low high other_low other_high w → ⊥) }
{
    let v = low.max(other_low);
    if v <= high && v <= other_high {
        Some(v)
    } else {
        None
    }
}

impl Region {
    /// Returns the region between two coordinates.
    pub fn of(a: Coord, b: Coord) -> Region
        ensures corners { result ≡ corners a b }
        ensures ordered { IsOrdered result }
        ensures covers { (p : Point) → is_within (span result) p ≡ is_within (between (point a) (point b)) p }
    {
        Region {
            low: Coord {
                x: a.x.min(b.x),
                y: a.y.min(b.y),
                z: a.z.min(b.z),
            },
            high: Coord {
                x: a.x.max(b.x),
                y: a.y.max(b.y),
                z: a.z.max(b.z),
            },
        }
    }

    /// Returns the least corner.
    pub fn low(&self) -> Coord
        ensures value { result ≡ self.now.low }
        ensures ordered { IsOrdered self.now }
    {
        self.low
    }

    /// Returns the greatest corner.
    pub fn high(&self) -> Coord
        ensures value { result ≡ self.now.high }
        ensures ordered { IsOrdered self.now }
    {
        self.high
    }

    /// Returns the dimension: the number of axes on which the corners differ.
    pub fn dim(&self) -> u8
        ensures value { result ≡ dimension (span self.now) }
        ensures most { result ≤ 3 }
    {
        differs(self.low.x, self.high.x)
            + differs(self.low.y, self.high.y)
            + differs(self.low.z, self.high.z)
    }

    /// Returns the number of its coordinates. Its corners are in a matrix of a resolution of at most [`MOST_R`].
    #[tactic(auto, using(crate::proofs::Counts::region_count))]
    pub fn size(&self) -> u32
        requires { IsInSpace MOST_R self.now.high }
        ensures value { result ≡ size_of (span self.now) }
        ensures counts { (r : ℕ) → IsInSpace r self.now.high
            → result ≡ count_by (λ c. is_within (span self.now) (point c)) (coordinates r) }
        ensures most { result ≤ MOST_R * MOST_R * MOST_R }
    {
        let x = extent(self.low.x, self.high.x);
        let y = extent(self.low.y, self.high.y);
        let z = extent(self.low.z, self.high.z);
        x * y * z
    }

    /// Returns whether the coordinate is in the region.
    pub fn has(&self, c: Coord) -> bool
        ensures { result ≡ is_within (span self.now) (point c) }
    {
        let x = is_between(self.low.x, self.high.x, c.x);
        let y = is_between(self.low.y, self.high.y, c.y);
        let z = is_between(self.low.z, self.high.z, c.z);
        x && y && z
    }

    /// Returns the least coordinate of both regions, or `None` if there is none.
    pub fn meets(&self, other: &Region) -> Option<Coord>
        ensures shared { IfSome result (AreShared self.now other.now) }
        ensures least { IfSome result (IsLeastOf (AreShared self.now other.now)) }
        ensures none { IfNone result ((c : Coordinate) → AreShared self.now other.now c → ⊥) }
    {
        let Some(x) = least_shared(self.low.x, self.high.x, other.low.x, other.high.x) else {
            return None;
        };
        let Some(y) = least_shared(self.low.y, self.high.y, other.low.y, other.high.y) else {
            return None;
        };
        let Some(z) = least_shared(self.low.z, self.high.z, other.low.z, other.high.z) else {
            return None;
        };
        Some(Coord { x, y, z })
    }
}
