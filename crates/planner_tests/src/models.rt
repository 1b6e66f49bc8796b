//! Models of a few voxels, which several modules plan.
ghost use Rattle.std.specs.Prelude.{◌≤◌};

use std::alloc::Global;
use vox_geom::{Coord, Memory};
use vox_planes::Planes;

/// Returns the coordinate with these components.
pub(crate) fn at(x: u16, y: u16, z: u16) -> Coord {
    Coord { x, y, z }
}

/// Makes a voxel full, if it is in space.
pub(crate) fn put(planes: &mut Planes, c: Coord) {
    let r = planes.resolution();
    if c.x < r && c.y < r && c.z < r {
        planes.set(c, true);
    }
}

/// Returns the model of a resolution in which these voxels are full.
pub(crate) fn model(alloc: Global, r: u16, full: &[Coord]) -> Result<Planes, Memory>
    requires some { 1 ≤ r }
    requires most { r ≤ 400 }
{
    let mut planes = Planes::empty(alloc, r)?;
    for c in full {
        put(&mut planes, *c);
    }
    Ok(planes)
}
