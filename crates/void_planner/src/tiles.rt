//! The square tiles that cover a layer.
ghost use Rattle.std.specs.Prelude.{◌≡◌, ◌+◌, ◌*◌, ◌<◌, ◌≤◌, IsTrue};
ghost use Rattle.void_planner.specs.Tiles.{IsVoidTile, far_of, place_of, turned as turned_of};
ghost use Rattle.void_planner.specs.Bounds.{tiles_of};

use vox_geom::{Coord, MOST_R, Region};
use vox_planes::Planes;
use voxel_reads::first_full;

/// The maximum length of a tile's side, in voxels.
const SIDE: u16 = 31;

/// Returns the distance between two corners of a tile along x, which is also that along z.
pub fn far(r: u16) -> u16
    requires { 2 ≤ r }
    ensures { result ≡ far_of r }
{
    if r < SIDE { r - 1 } else { SIDE - 1 }
}

/// Returns the number of tiles of a layer along x, which is also that along z.
pub fn tiles(r: u16) -> u16
    requires { r ≤ MOST_R }
    ensures value { result ≡ tiles_of r }
    ensures most { result ≤ 13 }
{
    (r + (SIDE - 1)) / SIDE
}

/// Returns the least component of the k-th tile along x or z, counted from 0. The last tile may overlap the one before it.
pub fn place(r: u16, k: u16) -> u16
    requires some { 2 ≤ r }
    requires few { k ≤ 13 }
    ensures { result ≡ place_of r k }
{
    let last = r - 1 - far(r);
    if SIDE * k < last { SIDE * k } else { last }
}

/// Returns the k-th of the numbers below n, counted from 0 up, or from the last one down if `back` is set.
pub fn turn_number(n: u16, back: bool, k: u16) -> u16
    requires { k < n }
    ensures { result ≡ turned_of n back k }
{
    if back { n - 1 - k } else { k }
}

/// Returns whether the tile with this least corner is void.
pub fn is_void(planes: &Planes, at: Coord) -> bool
    requires some { 2 ≤ planes.now.resolution }
    requires x { at.x + far_of planes.now.resolution < planes.now.resolution }
    requires y { at.y < planes.now.resolution }
    requires z { at.z + far_of planes.now.resolution < planes.now.resolution }
    ensures { IsTrue result → IsVoidTile planes.now (far_of planes.now.resolution) at.x at.y at.z }
{
    let far = far(planes.resolution());
    let end = Coord {
        x: at.x + far,
        y: at.y,
        z: at.z + far,
    };
    first_full(planes, &Region::of(at, end)).is_none()
}
