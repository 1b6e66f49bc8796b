//! The work lists of calls on a forest.
use crate::offer::IndexOffer;
use crate::orphan::OrphanIndex;
use crate::queues::Queue;
use std::alloc::Global;
use std::mem;
use vox_geom::Coord;

/// The work lists of calls: orphans, dirty voxels (`fresh`), deferred voxels (`rest`), sources (`seeds`) and candidates (`found`).
/// They are kept between calls so that their memory is used again.
#[derive(Drop)]
pub struct Lists {
    pub orphans: Vec<OrphanIndex>,
    pub fresh: Vec<u32>,
    pub rest: Vec<Coord>,
    pub seeds: Vec<IndexOffer>,
    pub found: Queue,
}

impl Lists {
    ghost use Rattle.std.specs.Prelude.{◌≡◌, []};

    /// Returns empty lists, without allocating.
    pub fn new(alloc: Global) -> Lists {
        Lists {
            orphans: Vec::new(alloc),
            fresh: Vec::new(alloc),
            rest: Vec::new(alloc),
            seeds: Vec::new(alloc),
            found: Queue::new(alloc),
        }
    }

    /// Takes out the list of orphans, and empties it.
    pub fn take_orphans(&mut self, alloc: Global) -> Vec<OrphanIndex>
        ensures { result.items ≡ [] }
    {
        let mut orphans = mem::replace(&mut self.orphans, Vec::new(alloc));
        orphans.clear();
        orphans
    }

    /// Takes out the list of the indices of dirty voxels, and empties it.
    pub fn take_fresh(&mut self, alloc: Global) -> Vec<u32>
        ensures { result.items ≡ [] }
    {
        let mut fresh = mem::replace(&mut self.fresh, Vec::new(alloc));
        fresh.clear();
        fresh
    }

    /// Takes out the list of deferred voxels, and empties it.
    pub fn take_rest(&mut self, alloc: Global) -> Vec<Coord>
        ensures { result.items ≡ [] }
    {
        let mut rest = mem::replace(&mut self.rest, Vec::new(alloc));
        rest.clear();
        rest
    }

    /// Takes out the list of sources, and empties it.
    pub fn take_seeds(&mut self, alloc: Global) -> Vec<IndexOffer>
        ensures { result.items ≡ [] }
    {
        let mut seeds = mem::replace(&mut self.seeds, Vec::new(alloc));
        seeds.clear();
        seeds
    }

    /// Takes out the queue of candidates, and empties it.
    pub fn take_found(&mut self, alloc: Global) -> Queue
        ensures { result ≡ [] }
    {
        let mut found = mem::replace(&mut self.found, Queue::new(alloc));
        found.clear();
        found
    }
}
