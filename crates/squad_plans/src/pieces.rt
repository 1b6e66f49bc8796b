//! Pieces of a layer for two bots: runs along z, no longer than two bots fill at once.
use crate::site::Site;
use crate::spots::Spot;
use crate::strips::Strip;
use vox_geom::Memory;

/// The longest run that two bots fill, in voxels.
const MOST_RUN: i16 = 31;

/// Consecutive voxels along z of a column in a layer.
#[derive(Clone, Copy, Debug)]
pub(crate) struct Piece {
    pub(crate) x: i16,
    pub(crate) first: i16,
    pub(crate) last: i16,
}

impl Piece {
    /// Returns the number of voxels.
    pub(crate) fn length(self) -> i16 {
        self.last.wrapping_sub(self.first).wrapping_add(1)
    }

    /// Returns whether it has only one voxel.
    pub(crate) fn is_single(self) -> bool {
        self.first == self.last
    }

    /// Returns whether it may be filled: if some voxel of it is attached, or always if voxels may float.
    pub(crate) fn may_fill(self, site: &Site, y: i16, float: bool) -> bool {
        for z in self.first..=self.last {
            if site.may_fill(Spot { x: self.x, y, z }, float) {
                return true;
            }
        }
        false
    }
}

/// The next fill of two bots: their positions, the columns of their voxels, if they fill one each, and whether both fill one run
/// together.
#[derive(Clone, Copy, Debug)]
pub(crate) struct Job {
    pub(crate) x: i16,
    pub(crate) rear: i16,
    pub(crate) front: i16,
    pub(crate) rear_column: Option<i16>,
    pub(crate) front_column: Option<i16>,
    pub(crate) run: bool,
}

/// Adds the pieces of a run, about equally long.
fn cut_run(pieces: &mut Vec<Piece>, run: Piece) -> Result<(), Memory> {
    let length = run.length();
    let count = (length.wrapping_add(MOST_RUN - 1) / MOST_RUN).max(1);
    let each = (length.wrapping_add(count).wrapping_sub(1) / count).max(1);
    let mut first = run.first;
    for _ in 0..count {
        if first > run.last {
            break;
        }
        let last = first.wrapping_add(each).wrapping_sub(1).min(run.last);
        let piece = Piece { first, last, ..run };
        pieces.push(piece).map_err(|_| Memory)?;
        first = last.wrapping_add(1);
    }
    Ok(())
}

/// Adds the pieces of a column in a layer.
fn list_column(pieces: &mut Vec<Piece>, site: &Site, x: i16, y: i16) -> Result<(), Memory> {
    let mut begun: Option<i16> = None;
    for z in 0..=site.side() {
        if site.is_wanted(Spot { x, y, z }) {
            if begun.is_none() {
                begun = Some(z);
            }
        } else if let Some(first) = begun {
            let last = z.wrapping_sub(1);
            cut_run(pieces, Piece { x, first, last })?;
            begun = None;
        }
    }
    Ok(())
}

/// Adds the pieces of a strip in a layer.
pub(crate) fn list_layer(
    pieces: &mut Vec<Piece>,
    site: &Site,
    strip: Strip,
    y: i16,
) -> Result<(), Memory> {
    for x in strip.low..=strip.high {
        list_column(pieces, site, x, y)?;
    }
    Ok(())
}
