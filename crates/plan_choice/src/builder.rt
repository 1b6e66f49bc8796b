//! Builds a model with one bot, layer by layer from the floor up. The bot moves above the layer and fills up to five voxels at each
//! stop. It fills a voxel once that is attached, that is, on the floor or next to a full one, so that all are grounded after each
//! step. Voxels of a layer that stay unattached are filled under High. Nothing is proved of the commands: a caller judges them.
use crate::extent::{Extent, extent_of_layer, is_full_at};
use crate::ways::{difference, next_end};
use nano_spec::{Command, CommandList};
use squad_plans::move_by;
use std::alloc::Global;
use vox_geom::{Coord, Diff, Memory, Near};
use vox_planes::Planes;

/// More moves than any path has.
const MOST_MOVES: u32 = 100;

/// The maximum number of sweeps along a lane before the bot goes on to the next lane.
const MOST_SWEEPS: u32 = 16;

/// The maximum number of passes over the lanes of a layer.
const MOST_PASSES: u32 = 64;

/// Returns the component shifted by a difference.
fn shift(at: u16, by: i16) -> u16 {
    if by < 0 {
        at.wrapping_sub(by.unsigned_abs())
    } else {
        at.wrapping_add(by.unsigned_abs())
    }
}

/// Returns the coordinate shifted along x and z.
fn beside(c: Coord, dx: i16, dz: i16) -> Coord {
    Coord {
        x: shift(c.x, dx),
        y: c.y,
        z: shift(c.z, dz),
    }
}

/// Returns whether a component is no farther from `low` than from `high`.
fn is_nearer(at: u16, low: u16, high: u16) -> bool {
    2 * u32::from(at) <= u32::from(low) + u32::from(high)
}

/// A building bot: the voxels it filled, its position, its commands, the number of voxels left in the layer, and whether it
/// switched to High.
#[derive(Drop)]
struct Builder {
    made: Planes,
    at: Coord,
    commands: CommandList,
    left: u32,
    high: bool,
}

impl Builder {
    /// Returns a bot at the origin with no commands yet.
    fn begin(alloc: Global, target: &Planes) -> Result<Builder, Memory> {
        Ok(Builder {
            made: Planes::empty(alloc, target.resolution())?,
            at: Coord { x: 0, y: 0, z: 0 },
            commands: CommandList::new(alloc),
            left: 0,
            high: false,
        })
    }

    /// Moves to a coordinate.
    fn go(&mut self, to: Coord) -> Result<(), Memory> {
        for _ in 0..MOST_MOVES {
            if self.at == to {
                break;
            }
            let next = next_end(self.at, to);
            if let Some(command) = move_by(difference(self.at, next)) {
                self.commands.push(command)?;
            }
            self.at = next;
        }
        Ok(())
    }

    /// Switches to High for good.
    fn raise(&mut self) -> Result<(), Memory> {
        if !self.high {
            self.commands.push(Command::Flip)?;
            self.high = true;
        }
        Ok(())
    }

    /// Returns whether the voxel is full in the target, and not filled yet.
    fn is_wanted(&self, target: &Planes, c: Coord) -> bool {
        is_full_at(target, c) && !is_full_at(&self.made, c)
    }

    /// Returns whether the voxel is on the floor or next to a full one.
    fn is_attached(&self, c: Coord) -> bool {
        c.y == 0
            || is_full_at(&self.made, Coord { y: c.y - 1, ..c })
            || is_full_at(&self.made, beside(c, -1, 0))
            || is_full_at(&self.made, beside(c, 1, 0))
            || is_full_at(&self.made, beside(c, 0, -1))
            || is_full_at(&self.made, beside(c, 0, 1))
    }

    /// Returns whether the voxel is still to be filled, and is attached unless voxels may `float`.
    fn may_fill(&self, target: &Planes, c: Coord, float: bool) -> bool {
        self.is_wanted(target, c) && (float || self.is_attached(c))
    }

    /// Returns the next voxel to fill from above `c`, on a path along z that rises if `on` is 1, and falls if it is -1.
    fn next_below(&self, target: &Planes, c: Coord, on: i16, float: bool) -> Option<Coord> {
        for (dx, dz) in [(0, on.wrapping_neg()), (-1, 0), (1, 0), (0, 0), (0, on)] {
            let it = beside(c, dx, dz);
            if self.may_fill(target, it, float) {
                return Some(it);
            }
        }
        None
    }

    /// Returns whether voxels behind `c` or beside it are left to fill, which the next stop on the path does not reach.
    fn is_worth_it(&self, target: &Planes, c: Coord, on: i16, float: bool) -> bool {
        self.may_fill(target, beside(c, 0, on.wrapping_neg()), float)
            || self.is_wanted(target, beside(c, -1, 0))
            || self.is_wanted(target, beside(c, 1, 0))
    }

    /// Fills a voxel near the bot.
    fn fill(&mut self, c: Coord) -> Result<(), Memory> {
        let r = self.made.resolution();
        if let Some(near) = Near::of(difference(self.at, c)) {
            self.commands.push(Command::Fill(near))?;
        }
        if c.x < r && c.y < r && c.z < r {
            self.made.set(c, true);
        }
        self.left = self.left.saturating_sub(1);
        Ok(())
    }

    /// Moves above `c` if a voxel may be filled from there, and fills up to five.
    fn stop(&mut self, target: &Planes, c: Coord, on: i16, float: bool) -> Result<(), Memory> {
        for _ in 0..5 {
            let Some(it) = self.next_below(target, c, on, float) else {
                break;
            };
            self.go(Coord {
                y: c.y.saturating_add(1),
                ..c
            })?;
            self.fill(it)?;
        }
        Ok(())
    }

    /// Sweeps once along the lane around this x, from the end that is nearer to the bot.
    fn sweep(
        &mut self,
        target: &Planes,
        extent: &Extent,
        x: u16,
        float: bool,
    ) -> Result<(), Memory> {
        let length = extent.high.z.saturating_sub(extent.low.z);
        let rises = is_nearer(self.at.z, extent.low.z, extent.high.z);
        let on = if rises { 1 } else { -1 };
        for k in 0..=length {
            let z = if rises {
                extent.low.z.saturating_add(k)
            } else {
                extent.high.z.saturating_sub(k)
            };
            let c = Coord {
                x,
                y: extent.low.y,
                z,
            };
            if k == length || self.is_worth_it(target, c, on, float) {
                self.stop(target, c, on, float)?;
            }
        }
        Ok(())
    }

    /// Sweeps a lane to and fro until a sweep fills nothing.
    fn lane(
        &mut self,
        target: &Planes,
        extent: &Extent,
        x: u16,
        float: bool,
    ) -> Result<(), Memory> {
        for _ in 0..MOST_SWEEPS {
            let before = self.left;
            self.sweep(target, extent, x, float)?;
            if self.left == before {
                break;
            }
        }
        Ok(())
    }

    /// Passes over all lanes, which are three columns wide, from the side that is nearer to the bot.
    fn pass(&mut self, target: &Planes, extent: &Extent, float: bool) -> Result<(), Memory> {
        let (low, high) = (extent.low.x, extent.high.x);
        let lanes = high.saturating_sub(low) / 3 + 1;
        let rises = is_nearer(self.at.x, low, high);
        for k in 0..lanes {
            let number = if rises { k } else { lanes - 1 - k };
            let first = u32::from(low) + 3 * u32::from(number);
            let middle = (first + u32::from(high).min(first + 2)) / 2;
            let x = middle.min(u32::from(high)) as u16;
            self.lane(target, extent, x, float)?;
            if self.left == 0 {
                break;
            }
        }
        Ok(())
    }

    /// Fills the voxels of a layer that are attached, or become attached as others are filled.
    fn attach(&mut self, target: &Planes, extent: &Extent) -> Result<(), Memory> {
        for _ in 0..MOST_PASSES {
            let before = self.left;
            self.pass(target, extent, false)?;
            if self.left == 0 || self.left == before {
                break;
            }
        }
        Ok(())
    }

    /// Builds all layers, filling unattached voxels under High. Returns false if High is needed but not allowed, or if there are
    /// more than `most` commands.
    fn build(&mut self, target: &Planes, may_rise: bool, most: u64) -> Result<bool, Memory> {
        for y in 0..target.resolution() {
            let extent = extent_of_layer(target, y);
            self.left = extent.count;
            if self.left > 0 {
                self.attach(target, &extent)?;
            }
            if self.left > 0 && !may_rise {
                return Ok(false);
            }
            if self.left > 0 {
                self.raise()?;
                self.pass(target, &extent, true)?;
            }
            if self.commands.as_slice().len() as u64 > most {
                return Ok(false);
            }
        }
        Ok(true)
    }

    /// Moves the bot to the origin, ends High, halts, and returns all commands.
    fn finish(mut self) -> Result<CommandList, Memory> {
        let y = self.at.y;
        self.go(Coord { x: 0, y, z: 0 })?;
        self.go(Coord { x: 0, y: 0, z: 0 })?;
        if self.high {
            self.commands.push(Command::Flip)?;
        }
        self.commands.push(Command::Halt)?;
        Ok(self.commands)
    }
}

/// Returns the commands of one bot that builds the target. Returns `None` if High is needed but not allowed by `may_rise`, or if
/// there are more than `most` commands.
///
/// The bot stays under High from the first layer with an unattached part on.
pub fn build_attached(
    alloc: Global,
    target: &Planes,
    may_rise: bool,
    most: u64,
) -> Result<Option<CommandList>, Memory> {
    let mut builder = Builder::begin(alloc, target)?;
    if !builder.build(target, may_rise, most)? {
        return Ok(None);
    }
    Ok(Some(builder.finish()?))
}
