//! The actions of squads of four that void a strip of columns: tile by tile, slab by slab of several layers.
use crate::site::Site;
use crate::spots::{Spot, nowhere, share, stride};
use crate::strips::Strip;
use std::alloc::Global;
use vox_geom::{Diff, Memory};

/// The longest side of a tile in voxels.
const SIDE: i16 = 31;

/// More moves than any path has.
const MOST_MOVES: u32 = 100;

/// More moves than any path within a layer has, however short they are.
const MOST_SHORT_MOVES: u32 = 1000;

/// Tiles along z: the first one's begin, the voxels of all, the number of tiles, and the voxels of each. All have the same length
/// if the last one may overlap the one before; some are one shorter if none may overlap.
#[derive(Clone, Copy)]
pub(crate) struct Rows {
    pub(crate) first: i16,
    length: i16,
    count: i16,
    side: i16,
    apart: bool,
}

impl Rows {
    /// Returns tiles from low to high, all about equally long, overlapping or not.
    pub(crate) fn over(low: i16, high: i16, apart: bool) -> Rows {
        let far = high.wrapping_sub(low).max(1).min(1000);
        let count = far / SIDE + 1;
        Rows {
            first: low,
            length: far.wrapping_add(1),
            count,
            side: share(far, count).wrapping_add(1).max(2),
            apart,
        }
    }

    /// Returns the begin of a tile.
    fn begin(self, k: i16) -> i16 {
        let own = if self.apart {
            share(self.length.wrapping_mul(k), self.count)
        } else {
            let last = self.length.wrapping_sub(self.side).max(0);
            k.wrapping_mul(self.side).min(last)
        };
        self.first.wrapping_add(own)
    }

    /// Returns the distance of the ends of a tile.
    pub(crate) fn far(self, k: i16) -> i16 {
        if self.apart {
            let next = self.begin(k.wrapping_add(1));
            next.wrapping_sub(self.begin(k)).wrapping_sub(1)
        } else {
            self.side.wrapping_sub(1)
        }
    }
}

/// An action of a squad's four bots in a step: all move alike, the two behind move, or all void the tile of this length right
/// below them.
#[derive(Clone, Copy)]
pub(crate) enum Stroke {
    Move(Diff),
    Stretch(Diff),
    Void(i16),
}

/// Returns whether a tile of a strip has a full voxel in a layer.
fn has_full(site: &Site, strip: Strip, y: i16, z: i16, end: i16) -> bool {
    for x in strip.low..=strip.high {
        for k in z..=end {
            if site.is_target(Spot { x, y, z: k }) {
                return true;
            }
        }
    }
    false
}

/// Returns whether a tile of a strip has a void voxel in a layer.
fn has_void(site: &Site, strip: Strip, y: i16, z: i16, end: i16) -> bool {
    for x in strip.low..=strip.high {
        for k in z..=end {
            if !site.is_target(Spot { x, y, z: k }) {
                return true;
            }
        }
    }
    false
}

/// The strokes of a squad one after another, its first bot's position after them, the distance of the bots behind from it, and
/// whether a tile that it voids is not all full.
#[derive(Drop)]
pub(crate) struct Descent {
    strokes: Vec<Stroke>,
    ragged: bool,
    height: i16,
    row: i16,
    far: i16,
    back: bool,
}

impl Descent {
    /// Moves up or down.
    fn climb(&mut self, to: i16) -> Result<(), Memory> {
        for _ in 0..MOST_MOVES {
            let dy = stride(to.wrapping_sub(self.height));
            if dy == 0 {
                break;
            }
            let d = Diff { dy, ..nowhere() };
            self.strokes.push(Stroke::Move(d)).map_err(|_| Memory)?;
            self.height = self.height.wrapping_add(dy);
        }
        Ok(())
    }

    /// Moves along z, by less than the distance of its bots each time.
    fn follow(&mut self, to: i16) -> Result<(), Memory> {
        let most = self.far.wrapping_sub(1).max(1);
        for _ in 0..MOST_SHORT_MOVES {
            let dz = stride(to.wrapping_sub(self.row))
                .min(most)
                .max(most.wrapping_neg());
            if dz == 0 {
                break;
            }
            let d = Diff { dz, ..nowhere() };
            self.strokes.push(Stroke::Move(d)).map_err(|_| Memory)?;
            self.row = self.row.wrapping_add(dz);
        }
        Ok(())
    }

    /// Moves the bots behind, so that all are at the corners of a tile of this length.
    fn stretch(&mut self, far: i16) -> Result<(), Memory> {
        let dz = far.wrapping_sub(self.far);
        if dz != 0 {
            let d = Diff { dz, ..nowhere() };
            self.strokes.push(Stroke::Stretch(d)).map_err(|_| Memory)?;
            self.far = far;
        }
        Ok(())
    }

    /// Moves to a row, from no lower than this height.
    fn go(&mut self, to: i16, far: i16, height: i16) -> Result<(), Memory> {
        if self.row != to {
            self.climb(self.height.max(height))?;
            self.stretch(far)?;
            self.follow(to)?;
        }
        Ok(())
    }

    /// Voids a tile of a slab from its top down.
    fn tile(
        &mut self,
        site: &Site,
        strip: Strip,
        z: i16,
        far: i16,
        low: i16,
        high: i16,
    ) -> Result<(), Memory> {
        let end = z.wrapping_add(far);
        for k in 0..=high.wrapping_sub(low) {
            let y = high.wrapping_sub(k);
            if has_full(site, strip, y, z, end) {
                self.go(z, far, high.wrapping_add(1))?;
                self.climb(y.wrapping_add(1))?;
                self.strokes.push(Stroke::Void(far)).map_err(|_| Memory)?;
                self.ragged = self.ragged || has_void(site, strip, y, z, end);
            }
        }
        Ok(())
    }

    /// Voids a slab, in the direction along z opposite to the one before.
    fn slab(
        &mut self,
        site: &Site,
        strip: Strip,
        rows: Rows,
        low: i16,
        high: i16,
    ) -> Result<(), Memory> {
        for k in 0..rows.count {
            let number = if self.back {
                rows.count.wrapping_sub(1).wrapping_sub(k)
            } else {
                k
            };
            let (z, far) = (rows.begin(number), rows.far(number));
            self.tile(site, strip, z, far, low, high)?;
        }
        self.back = !self.back;
        Ok(())
    }

    /// Voids all of a strip.
    fn strip(
        &mut self,
        site: &Site,
        strip: Strip,
        rows: Rows,
        top: i16,
        thick: i16,
    ) -> Result<(), Memory> {
        let thick = thick.max(1);
        for s in 0..=top / thick {
            let high = top.wrapping_sub(s.wrapping_mul(thick));
            let low = high.wrapping_add(1).wrapping_sub(thick).max(0);
            self.slab(site, strip, rows, low, high)?;
        }
        Ok(())
    }
}

/// Returns the descent of a strip's squad.
pub(crate) fn descent_of(
    alloc: Global,
    site: &Site,
    strip: Strip,
    rows: Rows,
    top: i16,
    thick: i16,
) -> Result<Descent, Memory> {
    let mut descent = Descent {
        strokes: Vec::new(alloc),
        ragged: false,
        height: top.wrapping_add(1),
        row: rows.first,
        far: rows.far(0),
        back: false,
    };
    descent.strip(site, strip, rows, top, thick)?;
    Ok(descent)
}

/// Returns the stroke of a squad in a turn, if it has one.
pub(crate) fn stroke_of(descents: &[Descent], squad: usize, number: usize) -> Option<Stroke> {
    match descents.get(squad)?.strokes.get(number) {
        Some(stroke) => Some(*stroke),
        None => None,
    }
}

/// Returns the number of turns of the longest descent.
pub(crate) fn longest(descents: &[Descent]) -> u64 {
    let mut most = 0;
    for descent in descents {
        most = most.max(descent.strokes.len() as u64);
    }
    most
}

/// Returns whether one of the descents voids a tile that is not all full.
pub(crate) fn some_are_ragged(descents: &[Descent]) -> bool {
    for descent in descents {
        if descent.ragged {
            return true;
        }
    }
    false
}
