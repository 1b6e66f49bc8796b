//! The extents of the full voxels of a layer or of a whole model.
use vox_geom::Coord;
use vox_planes::Planes;
use voxel_reads::is_full;

/// The number of full voxels, and their least and greatest components.
#[derive(Clone, Copy)]
pub(crate) struct Extent {
    pub(crate) count: u32,
    pub(crate) low: Coord,
    pub(crate) high: Coord,
}

impl Extent {
    /// Returns the extent of no voxels.
    fn none() -> Extent {
        let end = u16::MAX;
        Extent {
            count: 0,
            low: Coord {
                x: end,
                y: end,
                z: end,
            },
            high: Coord { x: 0, y: 0, z: 0 },
        }
    }

    /// Returns the extent of both sets of voxels.
    fn with(self, more: Extent) -> Extent {
        let (a, b) = (self.low, more.low);
        let (c, d) = (self.high, more.high);
        Extent {
            count: self.count.saturating_add(more.count),
            low: Coord {
                x: a.x.min(b.x),
                y: a.y.min(b.y),
                z: a.z.min(b.z),
            },
            high: Coord {
                x: c.x.max(d.x),
                y: c.y.max(d.y),
                z: c.z.max(d.z),
            },
        }
    }
}

/// Returns whether the voxel is full; false outside the matrix.
pub(crate) fn is_full_at(planes: &Planes, c: Coord) -> bool {
    let r = planes.resolution();
    c.x < r && c.y < r && c.z < r && is_full(planes, c)
}

/// Returns the extent of the full voxels of a row along z.
fn extent_of_row(planes: &Planes, x: u16, y: u16) -> Extent {
    let mut extent = Extent::none();
    for z in 0..planes.resolution() {
        let c = Coord { x, y, z };
        if is_full_at(planes, c) {
            extent = extent.with(Extent {
                count: 1,
                low: c,
                high: c,
            });
        }
    }
    extent
}

/// Returns the extent of the full voxels of a layer.
pub(crate) fn extent_of_layer(planes: &Planes, y: u16) -> Extent {
    let mut extent = Extent::none();
    for x in 0..planes.resolution() {
        extent = extent.with(extent_of_row(planes, x, y));
    }
    extent
}

/// Returns the extent of the full voxels of a model.
pub(crate) fn extent_of(planes: &Planes) -> Extent {
    let mut extent = Extent::none();
    for y in 0..planes.resolution() {
        extent = extent.with(extent_of_layer(planes, y));
    }
    extent
}
