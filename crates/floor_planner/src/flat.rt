//! Checks whether a model lies on the floor.
ghost use Rattle.std.specs.Prelude.{IsTrue};
ghost use Rattle.floor_planner.specs.Floor.{IsFlat};

use vox_geom::{Coord, Region};
use vox_planes::Planes;
use voxel_reads::first_full;

/// Returns whether each full voxel lies on the floor.
pub fn is_flat(model: &Planes) -> bool
    ensures flat { IsTrue result → IsFlat model.now }
    ensures told { IsFlat model.now → IsTrue result }
{
    let most = model.resolution() - 1;
    if most == 0 {
        return true;
    }
    let low = Coord { x: 0, y: 1, z: 0 };
    let above = Region::of(
        low,
        Coord {
            x: most,
            y: most,
            z: most,
        },
    );
    first_full(model, &above).is_none()
}
