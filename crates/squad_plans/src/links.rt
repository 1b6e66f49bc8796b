//! The connected parts of the voxels, and the number of parts that float.
use crate::site::Site;
use crate::spots::Spot;
use std::alloc::Global;
use vox_geom::{Diff, Memory};

/// More links than any path to the root of a part has.
const MOST_LINKS: u32 = 1_000_000;

/// More voxels than any model has.
const MOST_CELLS: usize = 1_000_000_000;

/// A union-find forest of parts of voxels, and the number of parts that are not grounded. The root of a part links to itself.
/// The floor has the index past all voxels.
#[derive(Drop)]
pub(crate) struct Links {
    links: Vec<u32>,
    floor: u32,
    floating: u32,
}

impl Links {
    /// Starts with the filled voxels grounded; each other voxel is a part of its own, which does not count yet.
    pub(crate) fn begin(alloc: Global, site: &Site) -> Result<Links, Memory> {
        let floor = site.count().min(MOST_CELLS) as u32;
        let mut links = Vec::with_capacity(alloc, floor as usize)?;
        for number in 0..floor {
            let head = if site.is_number_made(number) {
                floor
            } else {
                number
            };
            links.push(head).map_err(|_| Memory)?;
        }
        Ok(Links {
            links,
            floor,
            floating: 0,
        })
    }

    /// Returns whether some part floats.
    pub(crate) fn some_float(&self) -> bool {
        self.floating > 0
    }

    /// Returns the link of a voxel.
    fn link(&self, number: u32) -> u32 {
        match self.links.get(number as usize) {
            Some(link) => *link,
            None => number,
        }
    }

    /// Links a voxel.
    fn set(&mut self, number: u32, to: u32) {
        if let Some(link) = self.links.get_mut(number as usize) {
            *link = to;
        }
    }

    /// Returns the root of a voxel's part, and shortens the path to it.
    fn head(&mut self, number: u32) -> u32 {
        let mut at = number;
        for _ in 0..MOST_LINKS {
            let up = self.link(at);
            if up == at {
                break;
            }
            let over = self.link(up);
            self.set(at, over);
            at = over;
        }
        at
    }

    /// Merges two parts.
    fn join(&mut self, a: u32, b: u32) {
        let (a, b) = (self.head(a), self.head(b));
        if a != b {
            self.set(a.min(b), a.max(b));
            self.floating = self.floating.saturating_sub(1);
        }
    }

    /// Adds a voxel that was just filled.
    pub(crate) fn add(&mut self, site: &Site, c: Spot) {
        let Some(number) = site.number(c) else {
            return;
        };
        self.floating = self.floating.saturating_add(1);
        if c.y == 0 {
            let floor = self.floor;
            self.join(number, floor);
        }
        for (dx, dy, dz) in [(0, -1, 0), (-1, 0, 0), (1, 0, 0), (0, 0, -1), (0, 0, 1)] {
            let it = c.plus(Diff { dx, dy, dz });
            if site.is_made(it) {
                if let Some(other) = site.number(it) {
                    self.join(number, other);
                }
            }
        }
    }
}
