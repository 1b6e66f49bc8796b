//! The weight of each voxel of a model, and their sums over boxes: what it costs to fill by the best line through it.
use crate::blocks::{Block, MOST_SIDE};
use crate::manner::Prices;
use crate::site::BuildSite;
use std::alloc::Global;
use vox_geom::Memory;

/// A table from which the sum of the weights in any box follows by eight reads; it wraps around.
#[derive(Drop)]
pub(crate) struct Weights {
    edge: usize,
    sums: Vec<u32>,
}

/// Writes the length of a run of voxels, if that is more than what is there.
fn mark_run(best: &mut Vec<u8>, from: usize, stride: usize, count: usize) {
    let length = count.min(MOST_SIDE as usize) as u8;
    let mut at = from;
    for _ in 0..count {
        if let Some(place) = best.get_mut(at) {
            *place = (*place).max(length);
        }
        at = at.wrapping_add(stride);
    }
}

/// Marks the runs of a line of voxels.
fn mark_line(best: &mut Vec<u8>, site: &BuildSite, from: usize, stride: usize) {
    let mut count = 0usize;
    let mut start = from;
    let mut at = from;
    for _ in 0..site.side() {
        if site.is_index_goal(at) {
            if count == 0 {
                start = at;
            }
            count = count.saturating_add(1);
        } else {
            mark_run(best, start, stride, count);
            count = 0;
        }
        at = at.wrapping_add(stride);
    }
    mark_run(best, start, stride, count);
}

/// Marks the runs of all lines along an axis, given by three strides: along it, and along the others.
fn mark_axis(best: &mut Vec<u8>, site: &BuildSite, strides: (usize, usize, usize)) {
    let (along, one, other) = strides;
    let side = site.side().max(0) as usize;
    for i in 0..side {
        for k in 0..side {
            let from = i.wrapping_mul(one).wrapping_add(k.wrapping_mul(other));
            mark_line(best, site, from, along);
        }
    }
}

/// The weight of a voxel in a run of that length.
fn weight_of(length: u8, prices: &Prices) -> u32 {
    let [alone, line, _, _] = prices.of;
    if length == 0 {
        return 0;
    }
    alone.min(line / u32::from(length).max(1))
}

impl Weights {
    /// The weights of a model.
    pub(crate) fn of(alloc: Global, site: &BuildSite, prices: &Prices) -> Result<Weights, Memory> {
        let side = site.side().max(0) as usize;
        let mut best = vec![in alloc; 0u8; site.volume()]?;
        let layer = side.wrapping_mul(side);
        mark_axis(&mut best, site, (layer, 1, side));
        mark_axis(&mut best, site, (1, layer, side));
        mark_axis(&mut best, site, (side, layer, 1));
        let edge = side.saturating_add(1);
        let mut weights = Weights {
            edge,
            sums: vec![in alloc; 0u32; edge.wrapping_mul(edge).wrapping_mul(edge)]?,
        };
        for x in 0..side {
            for z in 0..side {
                weights.add_column(best.as_slice(), x, z, prices);
            }
        }
        Ok(weights)
    }

    /// The index of a sum.
    fn index(&self, x: usize, z: usize, y: usize) -> usize {
        let column = x.wrapping_mul(self.edge).wrapping_add(z);
        column.wrapping_mul(self.edge).wrapping_add(y)
    }

    /// A sum.
    fn sum(&self, x: usize, z: usize, y: usize) -> u32 {
        match self.sums.get(self.index(x, z, y)) {
            Some(sum) => *sum,
            None => 0,
        }
    }

    /// Adds the weights of a column.
    fn add_column(&mut self, best: &[u8], x: usize, z: usize, prices: &Prices) {
        let side = self.edge.wrapping_sub(1);
        let from = x.wrapping_mul(side).wrapping_add(z).wrapping_mul(side);
        let (right, behind) = (x.wrapping_add(1), z.wrapping_add(1));
        let mut column = 0u32;
        for y in 0..side {
            let length = match best.get(from.wrapping_add(y)) {
                Some(length) => *length,
                None => 0,
            };
            column = column.wrapping_add(weight_of(length, prices));
            let above = y.wrapping_add(1);
            let sum = column
                .wrapping_add(self.sum(x, behind, above))
                .wrapping_add(self.sum(right, z, above))
                .wrapping_sub(self.sum(x, z, above));
            let at = self.index(right, behind, above);
            if let Some(place) = self.sums.get_mut(at) {
                *place = sum;
            }
        }
    }

    /// The sum of the weights of a box.
    pub(crate) fn weight(&self, block: Block) -> u32 {
        let (low_x, high_x) = (index_of(block.low.x), after(block.high.x));
        let (low_z, high_z) = (index_of(block.low.z), after(block.high.z));
        let (low_y, high_y) = (index_of(block.low.y), after(block.high.y));
        self.column(high_x, high_z, low_y, high_y)
            .wrapping_sub(self.column(low_x, high_z, low_y, high_y))
            .wrapping_sub(self.column(high_x, low_z, low_y, high_y))
            .wrapping_add(self.column(low_x, low_z, low_y, high_y))
    }

    /// The sum over all columns before one, between two heights.
    fn column(&self, x: usize, z: usize, low: usize, high: usize) -> u32 {
        self.sum(x, z, high).wrapping_sub(self.sum(x, z, low))
    }
}

/// A component as an index.
pub(crate) fn index_of(at: i16) -> usize {
    at.max(0) as usize
}

/// The index behind a component.
fn after(at: i16) -> usize {
    index_of(at).wrapping_add(1)
}
