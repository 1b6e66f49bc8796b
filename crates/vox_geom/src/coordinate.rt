//! Coordinates of a matrix.
ghost use Rattle.std.specs.Prelude.{◌≡◌, ◌<◌, ◌≤◌, ◌*◌, ◌↔◌, IsSome, IfSome, IsTrue, pos, ◌+ℤ◌, unsigned_abs};
ghost use Rattle.std.specs.Option.{SomeIff};
ghost use Rattle.vox_geom.specs.Point.{point, plus as point_plus};
ghost use Rattle.vox_geom.specs.Space.{IsInSpace, in_range, in_space, place as place_of, coordinate_at};

use crate::MOST_R;
use crate::difference::Diff;

/// A coordinate of a matrix, ordered by x, then y, then z. The axis y points up.
#[derive(Clone, Copy, PartialEq, Eq, PartialOrd, Ord, Hash, Default, Debug)]
pub struct Coord {
    pub x: u16,
    pub y: u16,
    pub z: u16,
}

/// Returns a component plus an offset, if the sum is from 0 to r - 1.
#[inline(always)]
fn shift(v: u16, by: i16, r: u16) -> Option<u16>
    ensures { SomeIff result (IsTrue (in_range r (pos v +ℤ by))) (unsigned_abs (pos v +ℤ by)) }
{
    let sum = i32::from(v) + i32::from(by);
    if 0 <= sum && sum < i32::from(r) {
        Some(sum as u16)
    } else {
        None
    }
}

impl Coord {
    /// Returns the coordinate that the difference leads to, or `None` if it is outside the matrix.
    #[inline(always)]
    pub fn plus(self, d: Diff, r: u16) -> Option<Coord>
        requires { IsInSpace r self }
        ensures within { IsSome result ↔ IsTrue (in_space r (point_plus (point self) d)) }
        ensures sum { IfSome result (λ c. point c ≡ point_plus (point self) d) }
    {
        match (
            shift(self.x, d.dx, r),
            shift(self.y, d.dy, r),
            shift(self.z, d.dz, r),
        ) {
            (Some(x), Some(y), Some(z)) => Some(Coord { x, y, z }),
            _ => None,
        }
    }

    /// Like [`Coord::plus`], at a resolution of at most [`MOST_R`].
    ///
    /// Faster: it adds in 16 bits, since a sum that wraps round is not below the resolution.
    #[inline(always)]
    pub fn plus_in_matrix(self, d: Diff, r: u16) -> Option<Coord>
        requires within { IsInSpace r self }
        requires most { r ≤ MOST_R }
        ensures within { IsSome result ↔ IsTrue (in_space r (point_plus (point self) d)) }
        ensures sum { IfSome result (λ c. point c ≡ point_plus (point self) d) }
    {
        let x = self.x.wrapping_add_signed(d.dx);
        let y = self.y.wrapping_add_signed(d.dy);
        let z = self.z.wrapping_add_signed(d.dz);
        if x < r && y < r && z < r {
            return Some(Coord { x, y, z });
        }
        None
    }

    /// Returns the coordinate at a place of a matrix of resolution r.
    #[tactic(auto, using(crate::proofs::Places::places))]
    pub fn of_place(p: u32, r: u16) -> Coord
        requires resolution { r ≤ MOST_R }
        requires place { p < r * r * r }
        ensures value { result ≡ coordinate_at r p }
        ensures within { IsInSpace r result }
        ensures inverse { place_of r result ≡ p }
    {
        let side = u32::from(r);
        Coord {
            x: (p / (side * side)) as u16,
            y: (p / side % side) as u16,
            z: (p % side) as u16,
        }
    }
}

/// Returns the place of a coordinate of a matrix of resolution r, in the order by x, then y, then z.
#[tactic(auto, using(crate::proofs::Places::places))]
pub fn place(c: Coord, r: u16) -> u32
    requires resolution { r ≤ MOST_R }
    requires within { IsInSpace r c }
    ensures value { result ≡ place_of r c }
    ensures below { result < r * r * r }
    ensures inverse { coordinate_at r result ≡ c }
{
    let side = u32::from(r);
    u32::from(c.x) * side * side + u32::from(c.y) * side + u32::from(c.z)
}
