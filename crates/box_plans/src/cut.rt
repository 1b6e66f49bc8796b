//! A model cut into boxes of full voxels.
//!
//! It is cut layer by layer from the floor. Of all boxes that begin in a layer, the one with the most weight for its price comes
//! first. So in each column what is cut lies below what is not, and "after all that is below" is an order without circles.
use crate::blocks::{Block, CutBox, MOST_SIDE};
use crate::heap::{Entry, Heap};
use crate::manner::Prices;
use crate::patch::best_box;
use crate::positions::{Position, apart};
use crate::site::BuildSite;
use crate::weights::Weights;
use std::alloc::Global;
use vox_geom::Memory;

/// More boxes than a layer has.
const MOST_TURNS: u32 = 100_000_000;

/// In the first round only boxes of so much value are cut.
const WORTH: u64 = 4915;

/// The columns beside the lower corners of a thick box with the posts of its team, and how many of them are filled later.
#[derive(Clone, Copy, Debug)]
struct Posts {
    columns: [Option<u32>; 4],
    count: usize,
    shafts: u32,
}

/// No column.
const NO_POSTS: Posts = Posts {
    columns: [None; 4],
    count: 0,
    shafts: 0,
};

impl Posts {
    /// Returns whether a column is used.
    fn has(&self, column: u32) -> bool {
        for other in self.columns {
            if other == Some(column) {
                return true;
            }
        }
        false
    }

    /// Adds a column.
    fn add(&mut self, column: u32, later: bool) {
        if let Some(place) = self.columns.get_mut(self.count) {
            *place = Some(column);
            self.count = self.count.saturating_add(1);
        }
        self.shafts = self.shafts.saturating_add(u32::from(later));
    }
}

/// What is cut so far: the lowest voxel of each column that is not, the beginning of the sky above those that are, and how many voxels
/// follow one another upward from each one.
#[derive(Drop)]
pub(crate) struct Cutter {
    prices: Prices,
    weights: Weights,
    next: Vec<i16>,
    tops: Vec<i16>,
    runs: Vec<u8>,
    pieces: Vec<CutBox>,
    heap: Heap,
}

impl Cutter {
    /// Before the first box.
    fn new(alloc: Global, site: &BuildSite, prices: Prices) -> Result<Cutter, Memory> {
        let mut cutter = Cutter {
            prices,
            weights: Weights::of(alloc, site, &prices)?,
            next: vec![in alloc; site.side(); site.area()]?,
            tops: vec![in alloc; 0i16; site.area()]?,
            runs: vec![in alloc; 0u8; site.volume()]?,
            pieces: Vec::new(alloc),
            heap: Heap::new(alloc),
        };
        for x in 0..site.side() {
            for z in 0..site.side() {
                cutter.count_runs(site, x, z);
            }
        }
        Ok(cutter)
    }

    /// Counts the voxels of a column that follow one another upward from each one.
    fn count_runs(&mut self, site: &BuildSite, x: i16, z: i16) {
        let side = site.side();
        let mut run = 0u8;
        for k in 1..side.saturating_add(1) {
            let y = side.saturating_sub(k);
            let c = Position { x, y, z };
            run = if site.is_goal(c) {
                run.saturating_add(1).min(MOST_SIDE as u8)
            } else {
                0
            };
            if let Some(index) = site.index(c) {
                if let Some(place) = self.runs.get_mut(index) {
                    *place = run;
                }
            }
            if run > 0 {
                self.set_next(site, x, z, y);
            }
        }
    }

    /// How many voxels follow one another upward from one.
    pub(crate) fn run(&self, site: &BuildSite, c: Position) -> u8 {
        match site.index(c) {
            Some(index) => match self.runs.get(index) {
                Some(run) => *run,
                None => 0,
            },
            None => 0,
        }
    }

    /// Keeps the lowest voxel of a column that is not cut.
    fn set_next(&mut self, site: &BuildSite, x: i16, z: i16, y: i16) {
        if let Some(column) = site.column(x, z) {
            if let Some(place) = self.next.get_mut(column) {
                *place = y;
            }
        }
    }

    /// Returns whether the lowest voxel of a column that is not cut is in a layer.
    pub(crate) fn begins(&self, site: &BuildSite, x: i16, z: i16, y: i16) -> bool {
        match site.column(x, z) {
            Some(column) => match self.next.get(column) {
                Some(next) => *next == y,
                None => false,
            },
            None => false,
        }
    }

    /// Returns whether boxes may be thicker than a layer.
    pub(crate) fn may_be_thick(&self) -> bool {
        self.prices.thick
    }

    /// Adds the best column for a post beside a lower corner of a box. Returns whether there is one.
    fn add_post(
        &self,
        site: &BuildSite,
        block: Block,
        corner: Position,
        posts: &mut Posts,
    ) -> bool {
        let mut best: Option<(u32, bool)> = None;
        for dx in outward(corner.x, block.low.x, block.high.x) {
            for dz in outward(corner.z, block.low.z, block.high.z) {
                if dx == 0 && dz == 0 {
                    continue;
                }
                let Some((column, later)) = self.post(site, block, corner, dx, dz) else {
                    continue;
                };
                let is_better = match best {
                    Some((_, other)) => other && !later,
                    None => true,
                };
                if is_better && !posts.has(column) {
                    best = Some((column, later));
                }
            }
        }
        let Some((column, later)) = best else {
            return false;
        };
        posts.add(column, later);
        true
    }

    /// The column for a post beside a corner, and whether it is filled later. None if it is not in the sky, or not allowed.
    fn post(
        &self,
        site: &BuildSite,
        block: Block,
        corner: Position,
        dx: i16,
        dz: i16,
    ) -> Option<(u32, bool)> {
        let (x, z) = (corner.x.wrapping_add(dx), corner.z.wrapping_add(dz));
        let column = site.column(x, z)?;
        let post = if dx == 0 || dz == 0 {
            block.low.y.saturating_add(1)
        } else {
            block.low.y
        };
        let top = self.tops.get(column)?;
        if *top > post {
            return None;
        }
        let later = site.has_goal_between(x, z, post, block.high.y);
        if later && self.prices.bare {
            return None;
        }
        Some((column.min(u32::MAX as usize) as u32, later))
    }

    /// The columns of the posts for a thick box. None if a corner has none, or if later boxes there would wait for one with nothing
    /// below it.
    fn posts(&self, site: &BuildSite, block: Block) -> Option<Posts> {
        let mut posts = NO_POSTS;
        if block.low.y == block.high.y || !self.prices.guarded {
            return Some(posts);
        }
        let lower = Block {
            low: block.low,
            high: block.high.at_height(block.low.y),
        };
        let corners = lower.corners();
        for i in 0..corners.count {
            if !self.add_post(site, block, corners.get(i), &mut posts) {
                return None;
            }
        }
        let below = block.low.y.saturating_sub(1);
        let under = Block {
            low: block.low.at_height(below),
            high: block.high.at_height(below),
        };
        if posts.shafts > 0 && block.low.y > 0 && !site.has_goal_in(under) {
            return None;
        }
        Some(posts)
    }

    /// The value of a box: its weight for its price. None if a corner has no post.
    pub(crate) fn value(&self, site: &BuildSite, block: Block) -> Option<u64> {
        let posts = self.posts(site, block)?;
        let price = match self.prices.of.get(block.dimensions()) {
            Some(price) => u64::from(*price),
            None => 1,
        };
        let layers = u64::from(apart(block.high.y, block.low.y).max(0) as u16).saturating_add(1);
        let shafts = u64::from(posts.shafts).saturating_mul(layers);
        let price = shafts
            .saturating_mul(u64::from(self.prices.shaft))
            .saturating_add(price);
        let weight = u64::from(self.weights.weight(block)).saturating_mul(4096);
        Some(weight / price.max(1))
    }

    /// Adds the best box for a voxel to the heap, at most as valuable as that.
    fn offer(&mut self, site: &BuildSite, seed: Position, most: u64) -> Result<(), Memory> {
        let (value, block) = best_box(self, site, seed);
        let entry = Entry {
            value: value.min(most),
            seed,
            block,
        };
        self.heap.push(entry)
    }

    /// Returns whether all columns of a box begin in its lowest layer.
    fn is_uncut(&self, site: &BuildSite, block: Block) -> bool {
        for x in block.low.x..=block.high.x {
            for z in block.low.z..=block.high.z {
                if !self.begins(site, x, z, block.low.y) {
                    return false;
                }
            }
        }
        true
    }

    /// The lowest voxel of the model in a column above a height.
    fn next_above(&self, site: &BuildSite, x: i16, z: i16, y: i16) -> i16 {
        let side = site.side();
        for next in y.saturating_add(1)..side {
            if site.is_goal(Position { x, y: next, z }) {
                return next;
            }
        }
        side
    }

    /// Cuts a box.
    fn cut(&mut self, site: &BuildSite, block: Block, posts: Posts) -> Result<(), Memory> {
        let guards = posts.columns;
        self.pieces
            .push(CutBox { block, guards })
            .map_err(|_| Memory)?;
        for x in block.low.x..=block.high.x {
            for z in block.low.z..=block.high.z {
                let next = self.next_above(site, x, z, block.high.y);
                self.set_next(site, x, z, next);
                self.set_top(site, x, z, block.high.y.saturating_add(1));
            }
        }
        Ok(())
    }

    /// Keeps the beginning of the sky above what is cut of a column.
    fn set_top(&mut self, site: &BuildSite, x: i16, z: i16, top: i16) {
        if let Some(column) = site.column(x, z) {
            if let Some(place) = self.tops.get_mut(column) {
                *place = top;
            }
        }
    }

    /// Offers the best boxes for the voxels of a layer, or for each fourth of them along both axes.
    fn offer_layer(&mut self, site: &BuildSite, y: i16, each: i16) -> Result<(), Memory> {
        self.heap.clear();
        for x in 1..site.side() {
            for z in 1..site.side() {
                if is_turn(x, z, each) && self.begins(site, x, z, y) {
                    self.offer(site, Position { x, y, z }, u64::MAX)?;
                }
            }
        }
        Ok(())
    }

    /// Cuts the boxes of a layer that are offered, the most valuable first, as long as they have so much value.
    fn cut_layer(&mut self, site: &BuildSite, least: u64) -> Result<(), Memory> {
        for _ in 0..MOST_TURNS {
            let Some(entry) = self.heap.pop() else {
                break;
            };
            let Entry { value, seed, block } = entry;
            if !self.begins(site, seed.x, seed.z, seed.y) {
                continue;
            }
            let posts = if self.is_uncut(site, block) {
                self.posts(site, block)
            } else {
                None
            };
            let Some(posts) = posts else {
                self.offer(site, seed, value)?;
                continue;
            };
            if value < least {
                break;
            }
            self.cut(site, block, posts)?;
        }
        Ok(())
    }
}

/// Returns whether a column is one of those that are offered.
fn is_turn(x: i16, z: i16, each: i16) -> bool {
    each == 1 || (x % 4 == 0 && z % 4 == 0)
}

/// The directions away from a box at one end of a side: all three if both ends are one.
fn outward(at: i16, low: i16, high: i16) -> [i16; 3] {
    if low == high {
        [-1, 0, 1]
    } else if at == low {
        [-1, 0, 0]
    } else {
        [0, 1, 0]
    }
}

/// The boxes of a model, in an order in which each comes after all those below it.
pub(crate) fn cut_model(
    alloc: Global,
    site: &BuildSite,
    prices: Prices,
) -> Result<Vec<CutBox>, Memory> {
    let mut cutter = Cutter::new(alloc, site, prices)?;
    for y in 0..site.side() {
        cutter.offer_layer(site, y, 4)?;
        cutter.cut_layer(site, WORTH)?;
        cutter.offer_layer(site, y, 1)?;
        cutter.cut_layer(site, 0)?;
    }
    Ok(cutter.pieces)
}
