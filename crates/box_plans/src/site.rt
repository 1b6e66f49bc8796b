//! The voxels of a model that is being built, and the beginning of its sky.
//!
//! The sky of a column is what lies above its highest full voxel. All bots stay in the sky, so each of them can always rise and fly
//! home, and paths need no search: up, across, down.
use crate::blocks::Block;
use crate::positions::{NEIGHBORS, Position, by};
use crate::weights::index_of;
use std::alloc::Global;
use vox_geom::{Coord, Memory};
use vox_planes::Planes;
use voxel_reads::is_full;

/// More than any resolution.
const MOST_SIDE: u16 = 1000;

/// The states of a voxel.
#[derive(Clone, Copy, PartialEq, Eq, Debug)]
pub(crate) enum VoxelState {
    /// It stays void.
    Void,
    /// It is to be filled.
    Wanted,
    /// It is to be filled, and a search has seen it.
    Seen,
    /// It is full.
    Full,
}

/// A cube of voxels. A column lies in one piece: x first, then z, then y.
#[derive(Drop)]
pub(crate) struct BuildSite {
    side: i16,
    cells: Vec<VoxelState>,
    tops: Vec<i16>,
}

impl BuildSite {
    /// The voxels of a model, all of which are to be filled.
    pub(crate) fn of(alloc: Global, model: &Planes) -> Result<BuildSite, Memory> {
        let side = model.resolution().min(MOST_SIDE);
        let n = usize::from(side);
        let mut site = BuildSite {
            side: side as i16,
            cells: Vec::with_capacity(alloc, n * n * n)?,
            tops: vec![in alloc; 0i16; n * n]?,
        };
        for x in 0..side {
            site.add_columns(model, x)?;
        }
        Ok(site)
    }

    /// Adds the columns of one x.
    fn add_columns(&mut self, model: &Planes, x: u16) -> Result<(), Memory> {
        for z in 0..model.resolution().min(MOST_SIDE) {
            self.add_column(model, x, z)?;
        }
        Ok(())
    }

    /// Adds a column.
    fn add_column(&mut self, model: &Planes, x: u16, z: u16) -> Result<(), Memory> {
        let r = model.resolution();
        for y in 0..r.min(MOST_SIDE) {
            let wanted = x < r && z < r && is_full(model, Coord { x, y, z });
            let cell = if wanted {
                VoxelState::Wanted
            } else {
                VoxelState::Void
            };
            self.cells.push(cell).map_err(|_| Memory)?;
        }
        Ok(())
    }

    /// How many voxels it has along each axis.
    pub(crate) fn side(&self) -> i16 {
        self.side
    }

    /// How many voxels it has.
    pub(crate) fn volume(&self) -> usize {
        self.cells.len()
    }

    /// How many columns it has.
    pub(crate) fn area(&self) -> usize {
        self.tops.len()
    }

    /// The index of a column, if it is in space.
    pub(crate) fn column(&self, x: i16, z: i16) -> Option<usize> {
        let n = self.side;
        if x < 0 || z < 0 || x >= n || z >= n {
            return None;
        }
        let side = n as u32;
        Some((x as u32).wrapping_mul(side).wrapping_add(z as u32) as usize)
    }

    /// The index of a voxel, if it is in space.
    pub(crate) fn index(&self, c: Position) -> Option<usize> {
        let n = self.side;
        if c.x < 0 || c.y < 0 || c.z < 0 || c.x >= n || c.y >= n || c.z >= n {
            return None;
        }
        let side = n as u32;
        let column = (c.x as u32).wrapping_mul(side).wrapping_add(c.z as u32);
        Some(column.wrapping_mul(side).wrapping_add(c.y as u32) as usize)
    }

    /// The state of a voxel; out of space all is void.
    fn cell(&self, c: Position) -> VoxelState {
        let Some(index) = self.index(c) else {
            return VoxelState::Void;
        };
        match self.cells.get(index) {
            Some(cell) => *cell,
            None => VoxelState::Void,
        }
    }

    /// Changes the state of a voxel.
    fn set(&mut self, c: Position, to: VoxelState) {
        let Some(index) = self.index(c) else {
            return;
        };
        if let Some(cell) = self.cells.get_mut(index) {
            *cell = to;
        }
    }

    /// Returns whether a voxel belongs to the model.
    pub(crate) fn is_goal(&self, c: Position) -> bool {
        self.cell(c) != VoxelState::Void
    }

    /// Returns whether a voxel is full.
    pub(crate) fn is_full(&self, c: Position) -> bool {
        self.cell(c) == VoxelState::Full
    }

    /// Returns whether the voxel with an index is full.
    pub(crate) fn is_index_full(&self, index: usize) -> bool {
        match self.cells.get(index) {
            Some(cell) => *cell == VoxelState::Full,
            None => false,
        }
    }

    /// Returns whether the voxel with an index belongs to the model.
    pub(crate) fn is_index_goal(&self, index: usize) -> bool {
        match self.cells.get(index) {
            Some(cell) => *cell != VoxelState::Void,
            None => false,
        }
    }

    /// Returns whether a bot may be at a position, now or later: it is in space and not full.
    pub(crate) fn is_open(&self, c: Position) -> bool {
        self.index(c).is_some() && !self.is_full(c)
    }

    /// Adds a voxel to the model before any is full.
    pub(crate) fn want(&mut self, c: Position) {
        self.set(c, VoxelState::Wanted);
    }

    /// Marks a voxel that is to be filled as seen. Returns whether it was not.
    pub(crate) fn see(&mut self, c: Position) -> bool {
        let is_new = self.cell(c) == VoxelState::Wanted;
        if is_new {
            self.set(c, VoxelState::Seen);
        }
        is_new
    }

    /// Takes the mark of a voxel that was seen away.
    pub(crate) fn forget(&mut self, c: Position) {
        if self.cell(c) == VoxelState::Seen {
            self.set(c, VoxelState::Wanted);
        }
    }

    /// The lowest position of the sky in a column; out of space there is none.
    pub(crate) fn top(&self, x: i16, z: i16) -> i16 {
        let Some(column) = self.column(x, z) else {
            return self.side;
        };
        match self.tops.get(column) {
            Some(top) => *top,
            None => self.side,
        }
    }

    /// Returns whether a position is in the sky.
    pub(crate) fn is_sky(&self, c: Position) -> bool {
        self.index(c).is_some() && c.y >= self.top(c.x, c.z)
    }

    /// Fills a voxel of the model.
    pub(crate) fn fill(&mut self, c: Position) {
        if !self.is_goal(c) {
            return;
        }
        self.set(c, VoxelState::Full);
        let Some(column) = self.column(c.x, c.z) else {
            return;
        };
        if let Some(top) = self.tops.get_mut(column) {
            *top = (*top).max(c.y.saturating_add(1));
        }
    }

    /// Voids a voxel, to stay so.
    pub(crate) fn void(&mut self, c: Position) {
        self.set(c, VoxelState::Void);
    }

    /// Returns whether some voxel of the model in a column between two heights is there.
    pub(crate) fn has_goal_between(&self, x: i16, z: i16, low: i16, high: i16) -> bool {
        let Some(from) = self.index(Position { x, y: low, z }) else {
            return false;
        };
        for k in 0..index_of(high.wrapping_sub(low).wrapping_add(1)) {
            if let Some(cell) = self.cells.get(from.wrapping_add(k)) {
                if *cell != VoxelState::Void {
                    return true;
                }
            }
        }
        false
    }

    /// Returns whether a box has a voxel of the model.
    pub(crate) fn has_goal_in(&self, block: Block) -> bool {
        for x in block.low.x..=block.high.x {
            for z in block.low.z..=block.high.z {
                if self.has_goal_between(x, z, block.low.y, block.high.y) {
                    return true;
                }
            }
        }
        false
    }

    /// Returns whether a neighbor of a voxel is full.
    fn has_full_neighbor(&self, c: Position) -> bool {
        for (dx, dy, dz) in NEIGHBORS {
            let d = by(dx, dy, dz);
            if self.is_full(c.plus(d)) {
                return true;
            }
        }
        false
    }

    /// Returns whether some voxel of a column of a box touches a full one.
    fn is_column_attached(&self, block: Block, x: i16, z: i16) -> bool {
        let is_side = x == block.low.x
            || x == block.high.x
            || z == block.low.z
            || z == block.high.z;
        if !is_side {
            let below = Position {
                x,
                y: block.low.y.wrapping_sub(1),
                z,
            };
            let above = Position {
                x,
                y: block.high.y.wrapping_add(1),
                z,
            };
            return self.is_full(below) || self.is_full(above);
        }
        for y in block.low.y..=block.high.y {
            if self.has_full_neighbor(Position { x, y, z }) {
                return true;
            }
        }
        false
    }

    /// Returns whether some column of a box with this x touches a full voxel.
    fn is_wall_attached(&self, block: Block, x: i16) -> bool {
        for z in block.low.z..=block.high.z {
            if self.is_column_attached(block, x, z) {
                return true;
            }
        }
        false
    }

    /// Returns whether a box of full voxels would be grounded: it is on the floor or touches a full voxel.
    pub(crate) fn is_attached(&self, block: Block) -> bool {
        if block.low.y == 0 {
            return true;
        }
        for x in block.low.x..=block.high.x {
            if self.is_wall_attached(block, x) {
                return true;
            }
        }
        false
    }
}
