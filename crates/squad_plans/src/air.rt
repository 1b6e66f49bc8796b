//! The void voxels open to the outside, and paths of one bot through them.
use crate::site::Site;
use crate::spots::Spot;
use std::alloc::Global;
use vox_geom::{Diff, Memory};

/// The six directions along an axis.
const AXES: [(i16, i16, i16); 6] = [
    (1, 0, 0),
    (-1, 0, 0),
    (0, 1, 0),
    (0, -1, 0),
    (0, 0, 1),
    (0, 0, -1),
];

/// The longest move along one axis.
const LONG: i16 = 15;

/// The void voxels that a bot can reach, each with its predecessor by one move.
#[derive(Drop)]
pub(crate) struct Air {
    from: Vec<u32>,
    queue: Vec<Spot>,
}

impl Air {
    /// Returns the empty set of voxels.
    fn none(alloc: Global, site: &Site) -> Result<Air, Memory> {
        Ok(Air {
            from: vec![in alloc; u32::MAX; site.count()]?,
            queue: Vec::new(alloc),
        })
    }

    /// Returns the index of the predecessor of a voxel, if the voxel was reached.
    fn source(&self, site: &Site, c: Spot) -> Option<u32> {
        let number = site.number(c)?;
        match self.from.get(number as usize) {
            Some(from) if *from != u32::MAX => Some(*from),
            _ => None,
        }
    }

    /// Returns whether a voxel was reached.
    pub(crate) fn has(&self, site: &Site, c: Spot) -> bool {
        self.source(site, c).is_some()
    }

    /// Adds a voxel with its predecessor, if it was not reached before.
    fn add(&mut self, site: &Site, c: Spot, from: u32) -> Result<(), Memory> {
        let Some(number) = site.number(c) else {
            return Ok(());
        };
        if let Some(source) = self.from.get_mut(number as usize) {
            if *source == u32::MAX {
                *source = from;
                self.queue.push(c).map_err(|_| Memory)?;
            }
        }
        Ok(())
    }

    /// Adds all voxels that are one move along an axis away, through voxels that are not blocked.
    fn add_line(
        &mut self,
        site: &Site,
        at: Spot,
        axis: (i16, i16, i16),
        most: i16,
    ) -> Result<(), Memory> {
        let Some(from) = site.number(at) else {
            return Ok(());
        };
        let mut c = at;
        for _ in 0..most {
            let (dx, dy, dz) = axis;
            c = c.plus(Diff { dx, dy, dz });
            if site.number(c).is_none() || site.is_target(c) {
                break;
            }
            self.add(site, c, from)?;
        }
        Ok(())
    }

    /// Returns whether the goal was reached, if there is one.
    fn has_goal(&self, site: &Site, to: Option<Spot>) -> bool {
        match to {
            Some(to) => self.has(site, to),
            None => false,
        }
    }

    /// Adds all voxels that moves of up to this length reach from the voxels so far.
    fn spread(&mut self, site: &Site, most: i16, to: Option<Spot>) -> Result<(), Memory> {
        for i in 0..site.count() {
            let at = match self.queue.get(i) {
                Some(at) => *at,
                None => break,
            };
            for axis in AXES {
                self.add_line(site, at, axis, most)?;
            }
            if self.has_goal(site, to) {
                break;
            }
        }
        Ok(())
    }

    /// Returns the voxels open to the outside.
    pub(crate) fn around(alloc: Global, site: &Site) -> Result<Air, Memory> {
        let mut air = Air::none(alloc, site)?;
        air.add(site, Spot::home(), 0)?;
        air.spread(site, 1, None)?;
        Ok(air)
    }

    /// Returns the moves of a path between two voxels, the last one first, or `None` if there is none.
    pub(crate) fn way(
        alloc: Global,
        site: &Site,
        from: Spot,
        to: Spot,
    ) -> Result<Option<Vec<Diff>>, Memory> {
        let mut air = Air::none(alloc, site)?;
        let Some(first) = site.number(from) else {
            return Ok(None);
        };
        air.add(site, from, first)?;
        air.spread(site, LONG, Some(to))?;
        let mut moves = Vec::new(alloc);
        let mut at = to;
        for _ in 0..site.count() {
            if at == from {
                return Ok(Some(moves));
            }
            let Some(source) = air.source(site, at) else {
                return Ok(None);
            };
            let before = site.spot(source);
            moves.push(before.to(at)).map_err(|_| Memory)?;
            at = before;
        }
        Ok(None)
    }
}
