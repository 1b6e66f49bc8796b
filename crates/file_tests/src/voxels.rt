//! Helpers: coordinates and voxels of the models of other modules.
use vox_geom::Coord;
use vox_planes::Planes;

/// Returns the coordinate with these components.
pub(crate) fn at(x: u16, y: u16, z: u16) -> Coord {
    Coord { x, y, z }
}

/// Fills a voxel, if it is in space.
pub(crate) fn put(planes: &mut Planes, c: Coord) {
    let r = planes.resolution();
    if c.x < r && c.y < r && c.z < r {
        planes.set(c, true);
    }
}
