//! Poles under overhanging parts, so that all is built under Low: their positions, before anything is built.
use crate::air::Air;
use crate::site::Site;
use crate::spots::Spot;
use std::alloc::Global;
use vox_geom::{Diff, Memory};

/// The four sides of a voxel in its layer.
pub(crate) const SIDES: [(i16, i16); 4] = [(1, 0), (-1, 0), (0, 1), (0, -1)];

/// A column of voxels to fill that are not the target's, and a side on which the target has nothing.
#[derive(Clone, Copy, Debug)]
pub(crate) struct Pole {
    pub(crate) foot: Spot,
    pub(crate) high: i16,
    pub(crate) side: (i16, i16),
}

impl Pole {
    /// Returns the number of voxels.
    fn length(self) -> i16 {
        self.high.wrapping_sub(self.foot.y).wrapping_add(1)
    }
}

/// The visited voxels, and those of the current part.
#[derive(Drop)]
struct HangingParts {
    seen: Vec<bool>,
    part: Vec<Spot>,
}

impl HangingParts {
    /// Starts with no voxel visited.
    fn begin(alloc: Global, site: &Site) -> Result<HangingParts, Memory> {
        Ok(HangingParts {
            seen: vec![in alloc; false; site.count()]?,
            part: Vec::new(alloc),
        })
    }

    /// Marks a voxel as visited, and returns whether it was not before.
    fn see(&mut self, site: &Site, c: Spot) -> bool {
        let Some(number) = site.number(c) else {
            return false;
        };
        match self.seen.get_mut(number as usize) {
            Some(seen) => {
                let was = *seen;
                *seen = true;
                !was
            }
            None => false,
        }
    }

    /// Adds a voxel to the part, if it is one of the target's that was not visited.
    fn add(&mut self, site: &Site, c: Spot) -> Result<(), Memory> {
        if site.is_target(c) && self.see(site, c) {
            self.part.push(c).map_err(|_| Memory)?;
        }
        Ok(())
    }

    /// Gathers the part of a layer that has a voxel, if it was not visited.
    fn gather(&mut self, site: &Site, c: Spot) -> Result<(), Memory> {
        self.part.clear();
        self.add(site, c)?;
        for i in 0..self.seen.len() {
            let at = match self.part.get(i) {
                Some(at) => *at,
                None => break,
            };
            for (dx, dz) in SIDES {
                self.add(site, at.beside(dx, dz))?;
            }
        }
        Ok(())
    }

    /// Returns whether the part has a voxel above a full one.
    fn is_supported(&self, site: &Site) -> bool {
        for c in self.part.as_slice() {
            if site.is_target(c.below()) {
                return true;
            }
        }
        self.part.as_slice().is_empty()
    }

    /// Returns the shortest pole under the part with air along one side.
    fn pole(&self, site: &Site, air: &Air) -> Option<Pole> {
        let mut best: Option<Pole> = None;
        for c in self.part.as_slice() {
            let foot = foot_of(site, *c);
            if let Some(pole) = pole_below(site, air, foot, c.y.wrapping_sub(1)) {
                let is_shorter = match best {
                    Some(other) => pole.length() < other.length(),
                    None => true,
                };
                if is_shorter {
                    best = Some(pole);
                }
            }
        }
        best
    }
}

/// Returns the lowest voxel of the column of void voxels right below a voxel.
fn foot_of(site: &Site, c: Spot) -> Spot {
    let mut foot = c;
    for _ in 0..site.side() {
        if foot.y <= 0 || site.is_target(foot.below()) {
            break;
        }
        foot = foot.below();
    }
    foot
}

/// Returns whether a column is air from one height to another.
fn is_air(air: &Air, site: &Site, low: Spot, high: i16) -> bool {
    for y in low.y..=high {
        if !air.has(site, Spot { y, ..low }) {
            return false;
        }
    }
    true
}

/// Returns the pole from a foot up, if one of its sides is air.
fn pole_below(site: &Site, air: &Air, foot: Spot, high: i16) -> Option<Pole> {
    for side in SIDES {
        let beside = foot.beside(side.0, side.1);
        if is_air(air, site, beside, high) {
            return Some(Pole { foot, high, side });
        }
    }
    None
}

/// Adds the voxels of a pole to the target.
fn plant(site: &mut Site, pole: Pole) {
    for y in pole.foot.y..=pole.high {
        site.want(Spot { y, ..pole.foot });
    }
}

/// Returns whether a voxel is the target's and the one below is not, as for each voxel of an overhanging part.
fn is_bare(site: &Site, c: Spot) -> bool {
    site.is_target(c) && !site.is_target(c.below())
}

/// Returns whether a layer has an overhanging part.
fn hangs_in_layer(site: &Site, parts: &mut HangingParts, y: i16) -> Result<bool, Memory> {
    let side = site.side();
    for x in 0..side {
        for z in 0..side {
            let c = Spot { x, y, z };
            if is_bare(site, c) {
                parts.gather(site, c)?;
                if !parts.is_supported(site) {
                    return Ok(true);
                }
            }
        }
    }
    Ok(false)
}

/// Returns whether there is an overhanging part.
fn some_hang(alloc: Global, site: &Site) -> Result<bool, Memory> {
    let mut parts = HangingParts::begin(alloc, site)?;
    for y in 1..site.side() {
        if hangs_in_layer(site, &mut parts, y)? {
            return Ok(true);
        }
    }
    Ok(false)
}

/// Plants poles under the overhanging parts of a layer, and returns whether all of them get one.
fn plant_layer(
    site: &mut Site,
    air: &Air,
    parts: &mut HangingParts,
    poles: &mut Vec<Pole>,
    y: i16,
) -> Result<bool, Memory> {
    let side = site.side();
    for x in 0..side {
        for z in 0..side {
            let c = Spot { x, y, z };
            if !is_bare(site, c) {
                continue;
            }
            parts.gather(site, c)?;
            if !parts.is_supported(site) {
                let Some(pole) = parts.pole(site, air) else {
                    return Ok(false);
                };
                plant(site, pole);
                poles.push(pole).map_err(|_| Memory)?;
            }
        }
    }
    Ok(true)
}

/// Plants poles under all overhanging parts. Returns `None` if a part can get none.
pub(crate) fn plant_all(alloc: Global, site: &mut Site) -> Result<Option<Vec<Pole>>, Memory> {
    let mut poles = Vec::new(alloc);
    if !some_hang(alloc, site)? {
        return Ok(Some(poles));
    }
    let air = Air::around(alloc, site)?;
    let mut parts = HangingParts::begin(alloc, site)?;
    for y in 1..site.side() {
        if !plant_layer(site, &air, &mut parts, &mut poles, y)? {
            return Ok(None);
        }
    }
    Ok(Some(poles))
}
