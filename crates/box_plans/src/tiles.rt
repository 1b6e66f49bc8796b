//! A model cut into tiles of any content, for taking it down: a GVoid may cover voxels that are void.
//!
//! Each tile of columns is cut from the floor up into boxes as thick as 31 layers if bots have columns beside its lower corners (a team
//! of eight), else into layers (a team of four right above). The schedule builds the model with such boxes, and its steps are undone.
use crate::blocks::{Block, CutBox, MOST_SIDE};
use crate::positions::{HOME, Position, apart};
use crate::site::BuildSite;
use std::alloc::Global;
use vox_geom::Memory;

/// How thick boxes may be.
const THICK: [i16; 11] = [31, 27, 23, 19, 16, 13, 10, 8, 6, 5, 4];

/// What a thick box costs its tile, and all bots, in tenths of a step.
const THICK_COST: (u64, u64) = (50, 400);

/// What a layer costs.
const FLAT_COST: (u64, u64) = (22, 88);

/// How many bots share the boxes.
const SHARED_BY: u64 = 36;

/// A model of a greater resolution is cut in few sizes when the best is sought.
const LARGE: i16 = 130;

/// The boxes of a model, the layers of a tile that have voxels of it, and what the boxes cost: those of this tile, those of the
/// dearest one, and all.
#[derive(Drop)]
struct Tiling {
    pieces: Vec<CutBox>,
    rows: Vec<bool>,
    chain: u64,
    longest: u64,
    all: u64,
}

/// The extent of a model.
fn extent(site: &BuildSite) -> Option<Block> {
    let last = site.side().saturating_sub(1);
    let high = Position {
        x: last,
        y: last,
        z: last,
    };
    tight(site, Block { low: HOME, high })
}

/// The voxels of a box with one x or, across, with one z.
fn wall(block: Block, across: bool, at: i16) -> Block {
    let Block { low, high } = block;
    if across {
        return Block {
            low: Position { z: at, ..low },
            high: Position { z: at, ..high },
        };
    }
    Block {
        low: Position { x: at, ..low },
        high: Position { x: at, ..high },
    }
}

/// The first wall of a box with voxels of the model, between two components.
fn first_wall(site: &BuildSite, block: Block, across: bool, from: i16, to: i16) -> Option<i16> {
    let step = if from <= to { 1 } else { -1 };
    let mut at = from;
    for _ in 0..apart(from, to).saturating_add(1) {
        if site.has_goal_in(wall(block, across, at)) {
            return Some(at);
        }
        at = at.saturating_add(step);
    }
    None
}

/// The part of a box along x and z that has voxels of the model. None if it has none.
fn tight(site: &BuildSite, block: Block) -> Option<Block> {
    let Block { low, high } = block;
    let left = first_wall(site, block, false, low.x, high.x)?;
    let right = first_wall(site, block, false, high.x, low.x)?;
    let front = first_wall(site, block, true, low.z, high.z)?;
    let back = first_wall(site, block, true, high.z, low.z)?;
    Some(Block {
        low: Position {
            x: left,
            z: front,
            y: low.y,
        },
        high: Position {
            x: right,
            z: back,
            y: high.y,
        },
    })
}

/// Returns whether a column has no voxel of the model between two heights.
fn is_void(site: &BuildSite, x: i16, z: i16, low: i16, high: i16) -> bool {
    site.column(x, z).is_some() && !site.has_goal_between(x, z, low, high)
}

/// Returns whether a corner of a box has a column for a post, on the outer side given by one direction along each axis.
fn is_corner_open(site: &BuildSite, block: Block, x: i16, z: i16, dx: i16, dz: i16) -> bool {
    let (low, high) = (block.low.y, block.high.y);
    let above = low.saturating_add(1);
    is_void(site, x.wrapping_add(dx), z, above, high)
        || is_void(site, x, z.wrapping_add(dz), above, high)
        || is_void(site, x.wrapping_add(dx), z.wrapping_add(dz), low, high)
}

/// Returns whether bots have columns beside all lower corners of a box.
fn is_open(site: &BuildSite, block: Block) -> bool {
    let Block { low, high } = block;
    is_corner_open(site, block, low.x, low.z, -1, -1)
        && is_corner_open(site, block, low.x, high.z, -1, 1)
        && is_corner_open(site, block, high.x, low.z, 1, -1)
        && is_corner_open(site, block, high.x, high.z, 1, 1)
}

/// How many parts of at most a width a side is cut into.
fn parts_of(side: i16, width: i16) -> i16 {
    let rounded = side.saturating_add(width).saturating_sub(1);
    rounded.checked_div(width).unwrap_or(0)
}

/// The component at which a part of a side begins.
fn cut_at(from: i16, width: i16, part: i16, parts: i16) -> i16 {
    let before = (width.max(0) as u32).wrapping_mul(part.max(0) as u32);
    let offset = before / (parts.max(1) as u32).max(1);
    from.saturating_add(offset.min(1000) as i16)
}

impl Tiling {
    /// No box.
    fn empty(alloc: Global, site: &BuildSite) -> Result<Tiling, Memory> {
        Ok(Tiling {
            pieces: Vec::new(alloc),
            rows: vec![in alloc; false; site.side().max(0) as usize]?,
            chain: 0,
            longest: 0,
            all: 0,
        })
    }

    /// Returns whether a layer of the tile has voxels of the model.
    fn has_row(&self, y: i16) -> bool {
        match self.rows.get(y.max(0) as usize) {
            Some(row) => *row,
            None => false,
        }
    }

    /// Finds the layers of a tile that have voxels of the model. Returns the highest one.
    fn find_rows(&mut self, site: &BuildSite, tile: Block) -> i16 {
        let mut highest = -1;
        for y in 0..site.side() {
            let layer = Block {
                low: tile.low.at_height(y),
                high: tile.high.at_height(y),
            };
            let is_there = site.has_goal_in(layer);
            if let Some(row) = self.rows.get_mut(y.max(0) as usize) {
                *row = is_there;
            }
            if is_there {
                highest = y;
            }
        }
        highest
    }

    /// Adds a box.
    fn add(&mut self, block: Block) -> Result<(), Memory> {
        let (chain, all) = if block.low.y == block.high.y {
            FLAT_COST
        } else {
            THICK_COST
        };
        self.chain = self.chain.saturating_add(chain);
        self.longest = self.longest.max(self.chain);
        self.all = self.all.saturating_add(all);
        self.pieces.push(CutBox::plain(block)).map_err(|_| Memory)
    }

    /// The highest layer with voxels of the model among some from a layer on.
    fn last_row(&self, from: i16, thick: i16, most: i16) -> i16 {
        let mut last = from;
        for y in from..=from.saturating_add(thick).saturating_sub(1).min(most) {
            if self.has_row(y) {
                last = y;
            }
        }
        last
    }

    /// The thickest box of a tile from a layer on beside which bots have columns.
    fn thick_box(&self, site: &BuildSite, tile: Block, y: i16, most: i16) -> Option<Block> {
        for thick in THICK {
            let last = self.last_row(y, thick, most);
            if last.saturating_sub(y) < 3 {
                continue;
            }
            let low = tile.low.at_height(y);
            let whole = Block {
                low,
                high: tile.high.at_height(last),
            };
            if is_open(site, whole) {
                return Some(whole);
            }
            let part = tight(site, whole)?;
            if is_open(site, part) {
                return Some(part);
            }
        }
        None
    }

    /// Cuts a tile into boxes.
    fn cut_tile(&mut self, site: &BuildSite, tile: Block) -> Result<(), Memory> {
        let Some(tile) = tight(site, tile) else {
            return Ok(());
        };
        self.chain = 0;
        let highest = self.find_rows(site, tile);
        let most = site.side().saturating_sub(2);
        let mut next = 0;
        for y in 0..highest.saturating_add(1) {
            if y < next || !self.has_row(y) {
                continue;
            }
            let layer = Block {
                low: tile.low.at_height(y),
                high: tile.high.at_height(y),
            };
            let block = match self.thick_box(site, tile, y, most) {
                Some(block) => block,
                None => layer,
            };
            next = block.high.y.saturating_add(1);
            self.add(block)?;
        }
        Ok(())
    }

    /// Cuts the tiles of a strip along z.
    fn cut_strip(&mut self, site: &BuildSite, strip: Block, width: i16) -> Result<(), Memory> {
        let deep = strip.high.z.saturating_sub(strip.low.z).saturating_add(1);
        let parts = parts_of(deep, width);
        for part in 0..parts {
            let from = cut_at(strip.low.z, deep, part, parts);
            let to = cut_at(strip.low.z, deep, part.saturating_add(1), parts).saturating_sub(1);
            let tile = Block {
                low: Position {
                    z: from,
                    ..strip.low
                },
                high: Position {
                    z: to,
                    ..strip.high
                },
            };
            self.cut_tile(site, tile)?;
        }
        Ok(())
    }

    /// Cuts the extent of a model.
    fn cut(&mut self, site: &BuildSite, extent: Block, width: i16) -> Result<(), Memory> {
        let wide = extent.high.x.saturating_sub(extent.low.x).saturating_add(1);
        let parts = parts_of(wide, width);
        for part in 0..parts {
            let from = cut_at(extent.low.x, wide, part, parts);
            let to = cut_at(extent.low.x, wide, part.saturating_add(1), parts).saturating_sub(1);
            let strip = Block {
                low: Position {
                    x: from,
                    ..extent.low
                },
                high: Position {
                    x: to,
                    ..extent.high
                },
            };
            self.cut_strip(site, strip, width)?;
        }
        Ok(())
    }

    /// The steps that the boxes promise to take, in tenths.
    fn expected(&self) -> u64 {
        (self.all / SHARED_BY).max(self.longest)
    }
}

/// The boxes of a model in tiles at most so wide, with borders moved by so much.
fn tile_model(alloc: Global, site: &BuildSite, width: i16, shift: i16) -> Result<Tiling, Memory> {
    let mut tiling = Tiling::empty(alloc, site)?;
    let Some(extent) = extent(site) else {
        return Ok(tiling);
    };
    let low = Position {
        x: extent.low.x.saturating_sub(shift).max(1),
        z: extent.low.z.saturating_sub(shift).max(1),
        y: extent.low.y,
    };
    let width = width.max(2).min(MOST_SIDE);
    tiling.cut(
        site,
        Block {
            low,
            high: extent.high,
        },
        width,
    )?;
    Ok(tiling)
}

/// The boxes of a model in tiles at most so wide, with borders moved by so much.
pub(crate) fn cut_tiles(
    alloc: Global,
    site: &BuildSite,
    width: i16,
    shift: i16,
) -> Result<Vec<CutBox>, Memory> {
    Ok(tile_model(alloc, site, width, shift)?.pieces)
}

/// The better of some boxes and those of tiles at most so wide.
fn better(
    alloc: Global,
    site: &BuildSite,
    best: Tiling,
    width: i16,
    shifts: &[i16],
) -> Result<Tiling, Memory> {
    let mut best = best;
    for shift in shifts {
        let other = tile_model(alloc, site, width, *shift)?;
        if other.expected() < best.expected() {
            best = other;
        }
    }
    Ok(best)
}

/// The boxes of a model in tiles of the size that promises the fewest steps.
pub(crate) fn cut_best_tiles(alloc: Global, site: &BuildSite) -> Result<Vec<CutBox>, Memory> {
    let mut best = tile_model(alloc, site, MOST_SIDE, 0)?;
    if site.side() > LARGE {
        for width in FEW_WIDTHS {
            best = better(alloc, site, best, width, &[0, 2])?;
        }
        return Ok(best.pieces);
    }
    for width in 10..32i16 {
        best = better(alloc, site, best, width, &[0, 1, 2, 4])?;
    }
    Ok(best.pieces)
}

/// The widths of tiles that are tried for a large model.
const FEW_WIDTHS: [i16; 6] = [31, 28, 25, 23, 20, 17];
