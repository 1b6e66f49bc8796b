//! Strips of columns of about equal work, one for each squad.
use crate::site::Site;
use crate::spots::Spot;
use std::alloc::Global;
use vox_geom::Memory;

/// The most halvings of the bound on work.
const MOST_HALVINGS: u32 = 64;

/// Neighboring columns, in lanes of a width.
#[derive(Clone, Copy, Debug)]
pub(crate) struct Strip {
    pub(crate) low: i16,
    pub(crate) high: i16,
    pub(crate) wide: i16,
}

impl Strip {
    /// Returns the number of lanes.
    pub(crate) fn lanes(self) -> i16 {
        (self.high.wrapping_sub(self.low) / self.wide.max(1)).wrapping_add(1)
    }

    /// Returns the columns of a lane.
    pub(crate) fn lane(self, number: i16) -> Strip {
        let low = self.low.wrapping_add(number.wrapping_mul(self.wide));
        Strip {
            low,
            high: low.wrapping_add(self.wide).wrapping_sub(1).min(self.high),
            wide: self.wide,
        }
    }

    /// Returns the lane of a column.
    pub(crate) fn lane_of(self, x: i16) -> i16 {
        (x.wrapping_sub(self.low) / self.wide.max(1))
            .min(self.lanes().wrapping_sub(1))
            .max(0)
    }

    /// Returns the middle column.
    pub(crate) fn middle(self) -> i16 {
        self.low.wrapping_add(self.high.wrapping_sub(self.low) / 2)
    }
}

/// The work of a column: filling its voxels, and the stops of a lane whose last column it is, by the number of columns of the lane.
#[derive(Clone, Copy)]
struct Load {
    fills: u64,
    stops: [u64; 3],
}

impl Load {
    /// Returns no work.
    fn none() -> Load {
        Load {
            fills: 0,
            stops: [0, 0, 0],
        }
    }
}

/// The work of each column.
#[derive(Drop)]
pub(crate) struct Columns {
    works: Vec<Load>,
    wide: i16,
}

impl Columns {
    /// Returns the work of the columns of a model, in lanes of one to three columns.
    pub(crate) fn of(alloc: Global, site: &Site, wide: i16) -> Result<Columns, Memory> {
        let mut works = Vec::with_capacity(alloc, site.width())?;
        for x in 0..site.side() {
            works.push(work_of(site, x)).map_err(|_| Memory)?;
        }
        Ok(Columns { works, wide })
    }

    /// Returns the work of a column.
    fn work(&self, x: i16) -> Load {
        if x < 0 {
            return Load::none();
        }
        match self.works.get(x as usize) {
            Some(work) => *work,
            None => Load::none(),
        }
    }

    /// Returns the work that the next column, the k-th of its lane, adds to a strip.
    fn more(&self, x: i16, k: i16) -> u64 {
        let work = self.work(x);
        let stops = match k {
            0 => work.stops[0],
            1 => work.stops[1].saturating_sub(self.work(x.wrapping_sub(1)).stops[0]),
            _ => work.stops[2].saturating_sub(self.work(x.wrapping_sub(1)).stops[1]),
        };
        work.fills.saturating_add(stops)
    }

    /// Returns the first and the last column with work.
    fn extent(&self) -> Strip {
        let mut extent = Strip {
            low: i16::MAX,
            high: 0,
            wide: self.wide,
        };
        for x in 0..self.works.len().min(1000) {
            let x = x as i16;
            if self.work(x).fills > 0 {
                extent.low = extent.low.min(x);
                extent.high = x;
            }
        }
        extent
    }

    /// Returns the index of a column within its lane, in a strip that begins at `low`.
    fn number_in_lane(&self, x: i16, low: i16) -> i16 {
        x.wrapping_sub(low) % self.wide.max(1)
    }

    /// Returns strips of at most this much work each, from the left on; a column with more is a strip of its own.
    fn cut(&self, alloc: Global, extent: Strip, most: u64) -> Result<Vec<Strip>, Memory> {
        let mut strips = Vec::new(alloc);
        let mut low = extent.low;
        let mut work = 0u64;
        for x in extent.low..=extent.high {
            let k = self.number_in_lane(x, low);
            let more = self.more(x, k);
            if x > low && work.saturating_add(more) > most {
                let high = x.wrapping_sub(1);
                strips
                    .push(Strip {
                        low,
                        high,
                        ..extent
                    })
                    .map_err(|_| Memory)?;
                low = x;
                work = self.more(x, 0);
            } else {
                work = work.saturating_add(more);
            }
        }
        let high = extent.high;
        if low <= high {
            strips
                .push(Strip {
                    low,
                    high,
                    ..extent
                })
                .map_err(|_| Memory)?;
        }
        Ok(strips)
    }

    /// Returns at most `count` strips, whose greatest work is minimal.
    pub(crate) fn strips(&self, alloc: Global, count: u8) -> Result<Vec<Strip>, Memory> {
        let extent = self.extent();
        let mut low = 0u64;
        let mut high = u64::MAX / 4;
        let mut best = self.cut(alloc, extent, high)?;
        for _ in 0..MOST_HALVINGS {
            if low >= high {
                break;
            }
            let middle = low + (high - low) / 2;
            let strips = self.cut(alloc, extent, middle)?;
            if strips.len() <= usize::from(count) {
                high = middle;
                best = strips;
            } else {
                low = middle + 1;
            }
        }
        Ok(best)
    }
}

/// Returns the work of a column.
fn work_of(site: &Site, x: i16) -> Load {
    let mut work = Load::none();
    for y in 0..site.side() {
        let row = work_of_row(site, x, y);
        work.fills = work.fills.saturating_add(row.fills);
        for k in 0..3 {
            work.stops[k] = work.stops[k].saturating_add(row.stops[k]);
        }
    }
    work
}

/// Returns the work of a column in a layer.
fn work_of_row(site: &Site, x: i16, y: i16) -> Load {
    let mut work = Load::none();
    for z in 0..site.side() {
        let c = Spot { x, y, z };
        let here = site.is_target(c);
        let one = here || site.is_target(c.beside(-1, 0));
        let two = one || site.is_target(c.beside(-2, 0));
        let fills = if here { 1 } else { 0 };
        work.fills = work.fills.saturating_add(fills);
        for (k, stops) in [(0, here), (1, one), (2, two)] {
            if stops {
                work.stops[k] = work.stops[k].saturating_add(1);
            }
        }
    }
    work
}
