//! What holds a box of any content: each connected part of the model in it needs the floor or a full voxel beside it.
use crate::agenda::Agenda;
use crate::blocks::Block;
use crate::positions::{NEIGHBORS, Position, by};
use crate::site::BuildSite;
use std::alloc::Global;
use vox_geom::Memory;

/// The end of the anchors of a part.
const END: u32 = u32::MAX;

/// The voxels of the model beside each part of each box that was looked at, part by part.
#[derive(Drop)]
pub(crate) struct Anchors {
    voxels: Vec<u32>,
    queue: Vec<Position>,
}

impl Anchors {
    /// No box.
    pub(crate) fn new(alloc: Global) -> Anchors {
        Anchors {
            voxels: Vec::new(alloc),
            queue: Vec::new(alloc),
        }
    }

    /// Adds a voxel of a part, or an anchor of it.
    fn visit(&mut self, site: &mut BuildSite, block: Block, c: Position) -> Result<(), Memory> {
        if block.has(c) {
            if site.see(c) {
                self.queue.push(c).map_err(|_| Memory)?;
            }
            return Ok(());
        }
        if !site.is_goal(c) {
            return Ok(());
        }
        match site.index(c) {
            Some(index) => self
                .voxels
                .push(index.min(END as usize) as u32)
                .map_err(|_| Memory),
            None => Ok(()),
        }
    }

    /// Adds the anchors of the part that has a voxel, unless it is on the floor.
    fn add_part(&mut self, site: &mut BuildSite, block: Block, c: Position) -> Result<(), Memory> {
        let start = self.voxels.len();
        let mut floor = false;
        self.queue.clear();
        self.visit(site, block, c)?;
        if self.queue.is_empty() {
            return Ok(());
        }
        for _ in 0..site.volume() {
            let Some(at) = self.queue.pop() else {
                break;
            };
            floor = floor || at.y == 0;
            for (dx, dy, dz) in NEIGHBORS {
                let d = by(dx, dy, dz);
                self.visit(site, block, at.plus(d))?;
            }
        }
        if floor {
            self.voxels.truncate(start);
            return Ok(());
        }
        self.voxels.push(END).map_err(|_| Memory)
    }

    /// Adds the parts that begin in a column of a box.
    fn add_column(
        &mut self,
        site: &mut BuildSite,
        block: Block,
        x: i16,
        z: i16,
    ) -> Result<(), Memory> {
        for y in block.low.y..=block.high.y {
            self.add_part(site, block, Position { x, y, z })?;
        }
        Ok(())
    }

    /// Adds the parts of a box.
    fn add_block(&mut self, site: &mut BuildSite, block: Block) -> Result<(), Memory> {
        forget(site, block);
        for x in block.low.x..=block.high.x {
            for z in block.low.z..=block.high.z {
                self.add_column(site, block, x, z)?;
            }
        }
        Ok(())
    }

    /// Returns whether each part of a box would be grounded.
    pub(crate) fn hold(
        &mut self,
        site: &mut BuildSite,
        agenda: &mut Agenda,
        number: u32,
    ) -> Result<bool, Memory> {
        let item = agenda.get(number);
        if let Some((from, to)) = item.anchors {
            return Ok(self.are_full(site, from, to));
        }
        let from = self.voxels.len();
        self.add_block(site, item.block)?;
        let to = self.voxels.len();
        agenda.set_anchors(number, from, to);
        Ok(self.are_full(site, from, to))
    }

    /// Returns whether each part has an anchor that is full.
    fn are_full(&self, site: &BuildSite, from: usize, to: usize) -> bool {
        let mut held = false;
        for i in from..to {
            let Some(anchor) = self.voxels.get(i) else {
                return false;
            };
            if *anchor != END {
                held = held || site.is_index_full(*anchor as usize);
            } else if held {
                held = false;
            } else {
                return false;
            }
        }
        true
    }
}

/// Takes the marks of a column of a box away.
fn forget_column(site: &mut BuildSite, block: Block, x: i16, z: i16) {
    for y in block.low.y..=block.high.y {
        site.forget(Position { x, y, z });
    }
}

/// Takes the marks of a box away.
fn forget(site: &mut BuildSite, block: Block) {
    for x in block.low.x..=block.high.x {
        for z in block.low.z..=block.high.z {
            forget_column(site, block, x, z);
        }
    }
}
