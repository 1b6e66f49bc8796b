//! Helpers of several modules.
ghost use Rattle.std.specs.Prelude.{◌≡◌};
ghost use Rattle.vox_geom.specs.Space.{IsInSpace};

use vox_geom::Coord;
use vox_planes::Planes;

/// Returns the coordinate with these components.
pub(crate) fn at(x: u16, y: u16, z: u16) -> Coord
    ensures x { result.x ≡ x }
    ensures y { result.y ≡ y }
    ensures z { result.z ≡ z }
{
    Coord { x, y, z }
}

/// Fills a voxel, or voids it if `full` is false.
pub(crate) fn set(planes: &mut Planes, c: Coord, full: bool)
    requires { IsInSpace planes.old.resolution c }
    ensures { planes.new.resolution ≡ planes.old.resolution }
{
    planes.set(c, full);
}
