//! Shortest paths through void voxels, found by breadth-first search: below overhangs there is no sky.
use crate::positions::{NEIGHBORS, NOWHERE, Position, by};
use crate::site::BuildSite;
use crate::tasks::opposite;
use std::alloc::Global;
use vox_geom::{Diff, Memory};

/// The direction of the first voxel of a search.
const START: u32 = 6;

/// How many marks a search uses.
const EACH: u32 = 8;

/// The most voxels that all searches find.
const MOST_FOUND: u64 = 30_000_000;

/// What a search looks for.
#[derive(Clone, Copy, Debug)]
pub(crate) enum SearchGoal {
    /// The sky.
    Sky,
    /// A position, or the sky.
    SkyOr(Position),
}

/// In which direction each voxel was found, with the number of the search that found it.
#[derive(Drop)]
pub(crate) struct Searcher {
    marks: Vec<u32>,
    queue: Vec<Position>,
    number: u32,
    found: u64,
}

/// The difference to a neighbor.
fn neighbor(direction: u32) -> Diff {
    match NEIGHBORS.get(direction as usize) {
        Some((dx, dy, dz)) => by(*dx, *dy, *dz),
        None => NOWHERE,
    }
}

impl Searcher {
    /// Before the first search.
    pub(crate) fn new(alloc: Global, site: &BuildSite) -> Result<Searcher, Memory> {
        Ok(Searcher {
            marks: vec![in alloc; 0u32; site.volume()]?,
            queue: Vec::new(alloc),
            number: 0,
            found: 0,
        })
    }

    /// The direction in which this search found a voxel.
    fn direction(&self, site: &BuildSite, c: Position) -> Option<u32> {
        let index = site.index(c)?;
        match self.marks.get(index) {
            Some(mark) if *mark / EACH == self.number => Some(*mark % EACH),
            _ => None,
        }
    }

    /// Keeps a voxel that is void, if it was not found before.
    fn add(&mut self, site: &BuildSite, c: Position, direction: u32) -> Result<(), Memory> {
        let Some(index) = site.index(c) else {
            return Ok(());
        };
        let Some(mark) = self.marks.get_mut(index) else {
            return Ok(());
        };
        if *mark / EACH == self.number || site.is_index_full(index) {
            return Ok(());
        }
        *mark = self.number.wrapping_mul(EACH).wrapping_add(direction);
        self.queue.push(c).map_err(|_| Memory)
    }

    /// Keeps the void neighbors of a voxel: first the one straight on, so that paths have few turns.
    fn add_neighbors(&mut self, site: &BuildSite, at: Position) -> Result<(), Memory> {
        if let Some(direction) = self.direction(site, at) {
            if direction < START {
                self.add(site, at.plus(neighbor(direction)), direction)?;
            }
        }
        for direction in 0..START {
            self.add(site, at.plus(neighbor(direction)), direction)?;
        }
        Ok(())
    }

    /// The voxels from one back to the first one of this search.
    fn path_back(
        &self,
        alloc: Global,
        site: &BuildSite,
        found: Position,
    ) -> Result<Vec<Position>, Memory> {
        let mut path = Vec::new(alloc);
        let mut at = found;
        for _ in 0..site.volume() {
            path.push(at).map_err(|_| Memory)?;
            let direction = match self.direction(site, at) {
                Some(direction) if direction < START => direction,
                _ => break,
            };
            let back = neighbor(direction);
            at = at.plus(opposite(back));
        }
        Ok(path)
    }

    /// Counts work that takes as long as finding that number of voxels.
    pub(crate) fn count(&mut self, voxels: u64) {
        self.found = self.found.saturating_add(voxels);
    }

    /// Returns whether more voxels were found than is worth it.
    pub(crate) fn is_over(&self) -> bool {
        self.found > MOST_FOUND
    }

    /// The shortest path from the nearest goal to a position, with both. None if there is none, or too many voxels were found.
    pub(crate) fn path_to(
        &mut self,
        alloc: Global,
        site: &BuildSite,
        to: Position,
        goal: SearchGoal,
    ) -> Result<Option<Vec<Position>>, Memory> {
        if self.is_over() {
            return Ok(None);
        }
        self.number = self.number.wrapping_add(1);
        self.queue.clear();
        self.add(site, to, START)?;
        for i in 0..site.volume() {
            let at = match self.queue.get(i) {
                Some(at) => *at,
                None => break,
            };
            self.count(1);
            let is_other = match goal {
                SearchGoal::Sky => false,
                SearchGoal::SkyOr(spot) => spot == at,
            };
            if is_other || site.is_sky(at) {
                return Ok(Some(self.path_back(alloc, site, at)?));
            }
            self.add_neighbors(site, at)?;
        }
        Ok(None)
    }
}

/// A path from its other end.
pub(crate) fn reversed(alloc: Global, path: &[Position]) -> Result<Vec<Position>, Memory> {
    let mut other = Vec::with_capacity(alloc, path.len())?;
    let count = path.len();
    for k in 0..count {
        if let Some(spot) = path.get(count.wrapping_sub(k).wrapping_sub(1)) {
            other.push(*spot).map_err(|_| Memory)?;
        }
    }
    Ok(other)
}
