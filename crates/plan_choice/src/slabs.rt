//! Takes a model down with four bots at the corners of a tile, by slabs of several layers: in each slab tile by tile, from its top
//! down. The definitions judge the proposal.
use crate::extent::{Extent, extent_of};
use crate::ways::{along, gap};
use nano_spec::{Command, CommandList};
use plan_tape::{Axis, next_stop};
use std::alloc::Global;
use vox_geom::{Coord, Diff, Far, Memory, Near, Region};
use vox_planes::Planes;
use voxel_reads::first_full;

/// The longest side of a tile in voxels.
const SIDE: u16 = 31;

/// The number of bots.
const BOTS: u64 = 4;

/// More moves than any leg has.
const MOST_MOVES: u32 = 100;

/// The tiles along x or z: the first tile's begin, the voxels that each has for itself, the distance of its ends, the number of
/// tiles, and the last tile's begin, which may overlap the one before.
#[derive(Clone, Copy)]
struct Tiles {
    first: u16,
    side: u16,
    far: u16,
    count: u16,
    last: u16,
}

impl Tiles {
    /// Returns tiles that cover low to high, two wide or more: as wide as possible, or all about equally wide.
    fn over(low: u16, high: u16, even: bool) -> Tiles {
        let far = high.saturating_sub(low);
        let count = far / SIDE + 1;
        let side = if even { far / count + 1 } else { SIDE };
        let far = far.max(1).min(side.saturating_sub(1).max(1));
        Tiles {
            first: low,
            side,
            far,
            count,
            last: high.saturating_sub(far).max(low),
        }
    }

    /// Returns the begin of a tile.
    fn begin(self, k: u16) -> u16 {
        let own = self.first.saturating_add(k.saturating_mul(self.side));
        own.min(self.last)
    }
}

/// Returns whether a box has a full voxel.
fn has_full(planes: &Planes, low: Coord, high: Coord) -> bool {
    let r = planes.resolution();
    let region = Region::of(low, high);
    let end = region.high();
    end.x < r && end.y < r && end.z < r && first_full(planes, &region).is_some()
}

/// Returns the k-th of n, counted forward or back.
fn turn_number(n: u16, back: bool, k: u16) -> u16 {
    if back {
        n.saturating_sub(1).saturating_sub(k)
    } else {
        k
    }
}

/// Returns a near difference.
fn near(dx: i16, dz: i16) -> Near {
    Near::of(Diff { dx, dy: 0, dz }).unwrap_or(Near::down())
}

/// Returns the command that voids a rectangle of the layer below, for the bot above a corner and the opposite corner this far away.
fn void_below(dx: i16, dz: i16) -> Command {
    match Far::of(Diff { dx, dy: 0, dz }) {
        Some(far) => Command::GVoid(Near::down(), far),
        None => Command::Wait,
    }
}

/// Four bots at the corners of a tile, in ascending order of bids: at the least corner, next to it along x, opposite, and next to
/// it along z. Keeps their commands, the least corner, the tiles, and the directions of the next slab and the next strip.
#[derive(Drop)]
struct Square {
    commands: CommandList,
    at: Coord,
    along_x: Tiles,
    along_z: Tiles,
    turn: bool,
    back: bool,
}

impl Square {
    /// Starts before the first command.
    fn begin(alloc: Global, extent: Extent, even: bool) -> Square {
        Square {
            commands: CommandList::new(alloc),
            at: Coord { x: 0, y: 0, z: 0 },
            along_x: Tiles::over(extent.low.x, extent.high.x, even),
            along_z: Tiles::over(extent.low.z, extent.high.z, even),
            turn: false,
            back: false,
        }
    }

    /// Adds two commands.
    fn two(&mut self, first: Command, second: Command) -> Result<(), Memory> {
        self.commands.push(first)?;
        self.commands.push(second)
    }

    /// Adds one command for several bots, while the ones before them wait.
    fn several(&mut self, waiting: u8, doing: u8, command: Command) -> Result<(), Memory> {
        for k in 0..waiting.saturating_add(doing) {
            let it = if k < waiting { Command::Wait } else { command };
            self.commands.push(it)?;
        }
        Ok(())
    }

    /// Moves the last bots along an axis from one component to another, while the ones before them wait.
    fn leg(
        &mut self,
        waiting: u8,
        moving: u8,
        axis: Axis,
        from: u16,
        to: u16,
    ) -> Result<(), Memory> {
        let mut at = from;
        for _ in 0..MOST_MOVES {
            if at == to {
                break;
            }
            let next = next_stop(at, to);
            self.several(waiting, moving, along(axis, at, next))?;
            at = next;
        }
        Ok(())
    }

    /// Switches to High, moves the first bot to the first tile at this height, and splits it.
    fn open(&mut self, height: u16) -> Result<(), Memory> {
        let (x, z) = (self.along_x.first, self.along_z.first);
        let (far_x, far_z) = (self.along_x.far, self.along_z.far);
        self.commands.push(Command::Flip)?;
        self.leg(0, 1, Axis::Y, 0, height)?;
        self.leg(0, 1, Axis::X, 0, x)?;
        self.leg(0, 1, Axis::Z, 0, z)?;
        self.at = Coord { x, y: height, z };
        self.commands.push(Command::Fission(near(1, 0), 1))?;
        self.leg(1, 1, Axis::X, 1, far_x)?;
        let split = Command::Fission(near(0, 1), 0);
        self.several(0, 2, split)?;
        self.leg(2, 2, Axis::Z, 1, far_z)
    }

    /// Fuses all bots, and halts the last one at home.
    fn close(&mut self) -> Result<(), Memory> {
        let Coord { x, y, z } = self.at;
        let (far_x, far_z) = (self.along_x.far, self.along_z.far);
        self.leg(2, 2, Axis::Z, far_z, 1)?;
        let (lead, join) = (Command::FusionP(near(0, 1)), Command::FusionS(near(0, -1)));
        self.several(0, 2, lead)?;
        self.several(0, 2, join)?;
        self.leg(1, 1, Axis::X, far_x, 1)?;
        let (lead, join) = (Command::FusionP(near(1, 0)), Command::FusionS(near(-1, 0)));
        self.two(lead, join)?;
        self.leg(0, 1, Axis::X, x, 0)?;
        self.leg(0, 1, Axis::Z, z, 0)?;
        self.leg(0, 1, Axis::Y, y, 0)?;
        self.two(Command::Flip, Command::Halt)
    }

    /// Moves all bots to another tile, from no lower than this height.
    fn go(&mut self, to: Coord, height: u16) -> Result<(), Memory> {
        let from = self.at;
        let mut y = from.y;
        if from.x != to.x || from.z != to.z {
            y = y.max(height);
        }
        self.leg(0, 4, Axis::Y, from.y, y)?;
        self.leg(0, 4, Axis::X, from.x, to.x)?;
        self.leg(0, 4, Axis::Z, from.z, to.z)?;
        self.leg(0, 4, Axis::Y, y, to.y)?;
        self.at = to;
        Ok(())
    }

    /// Voids the tile of the layer below.
    fn void_tile(&mut self) -> Result<(), Memory> {
        let (x, z) = (gap(0, self.along_x.far), gap(0, self.along_z.far));
        let (back_x, back_z) = (gap(self.along_x.far, 0), gap(self.along_z.far, 0));
        self.two(void_below(x, z), void_below(back_x, z))?;
        self.two(void_below(back_x, back_z), void_below(x, back_z))
    }

    /// Voids a tile of a slab from its top down: the i-th along x, the k-th along z.
    fn tile(&mut self, source: &Planes, i: u16, k: u16, low: u16, high: u16) -> Result<(), Memory> {
        let (x, z) = (self.along_x.begin(i), self.along_z.begin(k));
        let end_x = x.saturating_add(self.along_x.far);
        let end_z = z.saturating_add(self.along_z.far);
        let above = high.saturating_add(1);
        for j in 0..=high.saturating_sub(low) {
            let y = high.saturating_sub(j);
            let from = Coord { x, y, z };
            let to = Coord {
                x: end_x,
                y,
                z: end_z,
            };
            if has_full(source, from, to) {
                let y = y.saturating_add(1);
                self.go(Coord { x, y, z }, above)?;
                self.void_tile()?;
            }
        }
        Ok(())
    }

    /// Voids a strip of a slab, in the direction along z opposite to the one before.
    fn strip(&mut self, source: &Planes, i: u16, low: u16, high: u16) -> Result<(), Memory> {
        let count = self.along_z.count;
        let back = self.back;
        for k in 0..count {
            self.tile(source, i, turn_number(count, back, k), low, high)?;
        }
        self.back = !back;
        Ok(())
    }

    /// Voids a slab, in the direction along x opposite to the one before.
    fn slab(&mut self, source: &Planes, low: u16, high: u16) -> Result<(), Memory> {
        let count = self.along_x.count;
        let turn = self.turn;
        for i in 0..count {
            self.strip(source, turn_number(count, turn, i), low, high)?;
        }
        self.turn = !turn;
        Ok(())
    }
}

/// Returns the commands of four bots under High that void a model by slabs of `thick` layers, in tiles as wide as possible, or all
/// about equally wide. Returns none if they take more steps than the limit.
pub(crate) fn slabs(
    alloc: Global,
    source: &Planes,
    thick: u16,
    even: bool,
    most: u64,
) -> Result<Option<CommandList>, Memory> {
    let extent = extent_of(source);
    let mut square = Square::begin(alloc, extent, even);
    let top = extent.high.y;
    square.open(top.saturating_add(1))?;
    for s in 0..=top / thick.max(1) {
        let high = top.saturating_sub(s.saturating_mul(thick));
        let low = high.saturating_add(1).saturating_sub(thick);
        square.slab(source, low, high)?;
        if square.commands.as_slice().len() as u64 / BOTS > most {
            return Ok(None);
        }
    }
    square.close()?;
    Ok(Some(square.commands))
}
