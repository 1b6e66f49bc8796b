//! Boxes of voxels, each filled by a team of one, two, four or eight bots near its corners.
use crate::positions::{HOME, Position, apart};

/// The most voxels along an axis that one command fills.
pub(crate) const MOST_SIDE: i16 = 31;

/// The most bots of a team.
pub(crate) const MOST_TEAM: usize = 8;

/// A box, by its lowest and highest corners.
#[derive(Clone, Copy, PartialEq, Eq, Debug)]
pub(crate) struct Block {
    pub(crate) low: Position,
    pub(crate) high: Position,
}

/// The corners of a box, each once.
#[derive(Clone, Copy, Debug)]
pub(crate) struct BoxCorners {
    spots: [Position; MOST_TEAM],
    pub(crate) count: usize,
}

impl BoxCorners {
    /// A corner by its number.
    pub(crate) fn get(&self, i: usize) -> Position {
        match self.spots.get(i) {
            Some(spot) => *spot,
            None => HOME,
        }
    }

    /// Adds a corner.
    fn add(&mut self, c: Position) {
        if let Some(spot) = self.spots.get_mut(self.count) {
            *spot = c;
            self.count = self.count.saturating_add(1);
        }
    }

    /// Adds the corners of a layer.
    fn add_layer(&mut self, block: Block, y: i16) {
        let Block { low, high } = block;
        self.add(Position { y, ..low });
        if low.x != high.x {
            self.add(Position {
                y,
                z: low.z,
                x: high.x,
            });
        }
        if low.z != high.z {
            self.add(Position {
                y,
                x: low.x,
                z: high.z,
            });
        }
        if low.x != high.x && low.z != high.z {
            self.add(Position { y, ..high });
        }
    }
}

impl Block {
    /// The axes along which the box is longer than one voxel; 2 to that power is the size of its team.
    pub(crate) fn dimensions(self) -> usize {
        usize::from(self.low.x != self.high.x)
            .wrapping_add(usize::from(self.low.y != self.high.y))
            .wrapping_add(usize::from(self.low.z != self.high.z))
    }

    /// The corners, the lower ones first.
    pub(crate) fn corners(self) -> BoxCorners {
        let mut corners = BoxCorners {
            spots: [HOME; MOST_TEAM],
            count: 0,
        };
        corners.add_layer(self, self.low.y);
        if self.low.y != self.high.y {
            corners.add_layer(self, self.high.y);
        }
        corners
    }

    /// The corner at the other end of the diagonal.
    pub(crate) fn opposite(self, corner: Position) -> Position {
        Position {
            x: other_end(corner.x, self.low.x, self.high.x),
            y: other_end(corner.y, self.low.y, self.high.y),
            z: other_end(corner.z, self.low.z, self.high.z),
        }
    }

    /// Returns whether a column has voxels of the box.
    pub(crate) fn has_column(self, x: i16, z: i16) -> bool {
        x >= self.low.x && x <= self.high.x && z >= self.low.z && z <= self.high.z
    }

    /// Returns whether a position is in the box or below it: nobody may be there when it is filled, or he would be shut in.
    pub(crate) fn is_over(self, c: Position) -> bool {
        self.has_column(c.x, c.z) && c.y <= self.high.y
    }

    /// Returns whether a voxel is in the box.
    pub(crate) fn has(self, c: Position) -> bool {
        self.is_over(c) && c.y >= self.low.y
    }

    /// The corner that is nearest to a position.
    pub(crate) fn nearest_corner(self, from: Position) -> Position {
        Position {
            x: nearer_end(from.x, self.low.x, self.high.x),
            y: nearer_end(from.y.wrapping_sub(1), self.low.y, self.high.y),
            z: nearer_end(from.z, self.low.z, self.high.z),
        }
    }

    /// The lowest layer, and what is above it.
    pub(crate) fn split_layer(self) -> (Block, Block) {
        let lower = Block {
            low: self.low,
            high: self.high.at_height(self.low.y),
        };
        let upper = Block {
            low: self.low.at_height(self.low.y.wrapping_add(1)),
            high: self.high,
        };
        (lower, upper)
    }

    /// The halves along the longer side of a layer.
    pub(crate) fn halves(self) -> (Block, Block) {
        let Block { low, high } = self;
        let (dx, dz) = (high.x.wrapping_sub(low.x), high.z.wrapping_sub(low.z));
        if dx >= dz {
            let middle = low.x.wrapping_add(dx / 2);
            let next = middle.wrapping_add(1);
            let first = Block {
                low,
                high: Position { x: middle, ..high },
            };
            (
                first,
                Block {
                    low: Position { x: next, ..low },
                    high,
                },
            )
        } else {
            let middle = low.z.wrapping_add(dz / 2);
            let next = middle.wrapping_add(1);
            let first = Block {
                low,
                high: Position { z: middle, ..high },
            };
            (
                first,
                Block {
                    low: Position { z: next, ..low },
                    high,
                },
            )
        }
    }
}

/// The end of a side that is not this one.
fn other_end(at: i16, low: i16, high: i16) -> i16 {
    if at == low { high } else { low }
}

/// The end of a side that is nearer.
fn nearer_end(at: i16, low: i16, high: i16) -> i16 {
    let (down, up) = (apart(at, low), apart(at, high));
    if down <= up { low } else { high }
}

/// A box of a plan, and the columns of its team's posts: later boxes there wait for it.
#[derive(Clone, Copy, Debug)]
pub(crate) struct CutBox {
    pub(crate) block: Block,
    pub(crate) guards: [Option<u32>; 4],
}

impl CutBox {
    /// A box for which nothing has to wait but what is above it.
    pub(crate) fn plain(block: Block) -> CutBox {
        CutBox {
            block,
            guards: [None; 4],
        }
    }
}
