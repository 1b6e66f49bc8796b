//! Poles under all parts of a layer that hang, so that everything can be built from below under Low.
use crate::positions::{HOME, NEIGHBORS, Position, SIDES, by};
use crate::site::BuildSite;
use std::alloc::Global;
use vox_geom::Memory;

/// Voxels in a column that are filled for the time being.
#[derive(Clone, Copy, Debug)]
pub(crate) struct TemporaryPole {
    pub(crate) foot: Position,
    pub(crate) high: i16,
}

impl TemporaryPole {
    /// How many voxels it has.
    fn length(self) -> i16 {
        self.high.saturating_sub(self.foot.y).saturating_add(1)
    }
}

/// Searches of a model, voxel by voxel: those that were seen, and those that are still to be looked at.
#[derive(Drop)]
struct Search {
    seen: Vec<bool>,
    queue: Vec<Position>,
}

impl Search {
    /// Nothing was seen.
    fn new(alloc: Global, site: &BuildSite) -> Result<Search, Memory> {
        Ok(Search {
            seen: vec![in alloc; false; site.volume()]?,
            queue: Vec::new(alloc),
        })
    }

    /// Returns whether a voxel was seen.
    fn has(&self, site: &BuildSite, c: Position) -> bool {
        let Some(index) = site.index(c) else {
            return false;
        };
        match self.seen.get(index) {
            Some(seen) => *seen,
            None => false,
        }
    }

    /// Adds a voxel that was not seen before.
    fn add(&mut self, site: &BuildSite, c: Position) -> Result<(), Memory> {
        let Some(index) = site.index(c) else {
            return Ok(());
        };
        let Some(seen) = self.seen.get_mut(index) else {
            return Ok(());
        };
        if *seen {
            return Ok(());
        }
        *seen = true;
        self.queue.push(c).map_err(|_| Memory)
    }

    /// Adds the void neighbors of a voxel.
    fn add_void_neighbors(&mut self, site: &BuildSite, at: Position) -> Result<(), Memory> {
        for (dx, dy, dz) in NEIGHBORS {
            let c = at.plus(by(dx, dy, dz));
            if !site.is_goal(c) {
                self.add(site, c)?;
            }
        }
        Ok(())
    }

    /// Sees all that is void and open to the outside.
    fn flood(&mut self, site: &BuildSite) -> Result<(), Memory> {
        self.add(site, HOME)?;
        for _ in 0..site.volume() {
            let Some(at) = self.queue.pop() else {
                break;
            };
            self.add_void_neighbors(site, at)?;
        }
        Ok(())
    }

    /// Sees the part of a layer that has a voxel, if it was not seen. The queue has it then.
    fn gather(&mut self, site: &BuildSite, c: Position) -> Result<(), Memory> {
        self.queue.clear();
        self.add(site, c)?;
        for i in 0..site.volume() {
            let at = match self.queue.get(i) {
                Some(at) => *at,
                None => break,
            };
            for (dx, dy, dz) in SIDES {
                let side = at.plus(by(dx, dy, dz));
                if site.is_goal(side) {
                    self.add(site, side)?;
                }
            }
        }
        Ok(())
    }

    /// Returns whether the part in the queue has a voxel above another one of the model.
    fn is_supported(&self, site: &BuildSite) -> bool {
        for c in self.queue.as_slice() {
            if site.is_goal(c.plus(by(0, -1, 0))) {
                return true;
            }
        }
        false
    }

    /// The shortest pole under the part in the queue with a side that is open to the outside.
    fn best_pole(&self, site: &BuildSite, open: &Search) -> Option<TemporaryPole> {
        let mut best: Option<TemporaryPole> = None;
        for c in self.queue.as_slice() {
            let pole = pole_under(site, *c);
            let is_shorter = match best {
                Some(other) => pole.length() < other.length(),
                None => true,
            };
            if is_shorter && has_open_side(site, open, pole) {
                best = Some(pole);
            }
        }
        best
    }
}

/// The voxels below one, down to the floor or to the model.
fn pole_under(site: &BuildSite, c: Position) -> TemporaryPole {
    let mut foot = c;
    for _ in 0..site.side() {
        let below = foot.plus(by(0, -1, 0));
        if below.y < 0 || site.is_goal(below) {
            break;
        }
        foot = below;
    }
    TemporaryPole {
        foot,
        high: c.y.saturating_sub(1),
    }
}

/// Returns whether all voxels beside a pole on some side are open to the outside.
fn has_open_side(site: &BuildSite, open: &Search, pole: TemporaryPole) -> bool {
    for (dx, dy, dz) in SIDES {
        if is_side_open(site, open, pole, pole.foot.plus(by(dx, dy, dz))) {
            return true;
        }
    }
    false
}

/// Returns whether all voxels of a column beside a pole are open to the outside.
fn is_side_open(site: &BuildSite, open: &Search, pole: TemporaryPole, beside: Position) -> bool {
    for y in pole.foot.y..=pole.high {
        let c = beside.at_height(y);
        if !open.has(site, c) {
            return false;
        }
    }
    true
}

/// Adds the voxels of a pole to the model.
fn plant(site: &mut BuildSite, pole: TemporaryPole) {
    for y in pole.foot.y..=pole.high {
        site.want(pole.foot.at_height(y));
    }
}

/// The parts of layers that were looked at, and what was open to the outside before the first pole was planted.
#[derive(Drop)]
struct Planting {
    parts: Search,
    open: Search,
    poles: Vec<TemporaryPole>,
}

impl Planting {
    /// Plants a pole under the part that has a voxel, if it hangs and was not seen. Returns whether it is held then.
    fn hold(&mut self, site: &mut BuildSite, c: Position) -> Result<bool, Memory> {
        if self.parts.has(site, c) {
            return Ok(true);
        }
        self.parts.gather(site, c)?;
        if self.parts.is_supported(site) {
            return Ok(true);
        }
        let Some(pole) = self.parts.best_pole(site, &self.open) else {
            return Ok(false);
        };
        plant(site, pole);
        self.poles.push(pole).map_err(|_| Memory)?;
        Ok(true)
    }

    /// Plants poles under all parts of a layer that hang. Returns whether all are held then.
    fn hold_layer(&mut self, site: &mut BuildSite, y: i16) -> Result<bool, Memory> {
        for x in 0..site.side() {
            for z in 0..site.side() {
                let c = Position { x, y, z };
                if site.is_goal(c) && !self.hold(site, c)? {
                    return Ok(false);
                }
            }
        }
        Ok(true)
    }
}

/// Plants poles under all parts that hang. None if a part can get none.
pub(crate) fn plant_poles(
    alloc: Global,
    site: &mut BuildSite,
) -> Result<Option<Vec<TemporaryPole>>, Memory> {
    let mut planting = Planting {
        parts: Search::new(alloc, site)?,
        open: Search::new(alloc, site)?,
        poles: Vec::new(alloc),
    };
    planting.open.flood(site)?;
    for y in 1..site.side() {
        if !planting.hold_layer(site, y)? {
            return Ok(None);
        }
    }
    Ok(Some(planting.poles))
}
