//! Routes of bots that take poles away: below an overhang they are searched, and from there they lead through the sky.
use crate::positions::{Position, by, length, sign};
use crate::search::{SearchGoal, Searcher, reversed};
use crate::site::BuildSite;
use std::alloc::Global;
use vox_geom::Memory;

/// The first position of a path, or another one if it is empty.
fn first_of(path: &[Position], otherwise: Position) -> Position {
    match path.first() {
        Some(first) => *first,
        None => otherwise,
    }
}

/// Extends a path by the positions after one, straight to another one.
fn extend(path: &mut Vec<Position>, from: Position, to: Position) -> Result<(), Memory> {
    let d = from.to(to);
    let one = by(sign(d.dx), sign(d.dy), sign(d.dz));
    let mut at = from;
    for _ in 0..length(d) {
        at = at.plus(one);
        path.push(at).map_err(|_| Memory)?;
    }
    Ok(())
}

impl BuildSite {
    /// The lowest height at which all positions along x from one to another are in the sky.
    fn top_along_x(&self, from: Position, to: Position) -> i16 {
        let mut top = 0i16;
        for x in from.x.min(to.x)..=from.x.max(to.x) {
            top = top.max(self.top(x, from.z));
        }
        top
    }

    /// The lowest height at which all positions along z from one to another are in the sky.
    fn top_along_z(&self, from: Position, to: Position) -> i16 {
        let mut top = 0i16;
        for z in from.z.min(to.z)..=from.z.max(to.z) {
            top = top.max(self.top(from.x, z));
        }
        top
    }

    /// Extends a path through the sky from a position to another one: up, along x, along z, and down. Returns whether there is room
    /// above the columns on the way.
    fn extend_through_sky(
        &self,
        path: &mut Vec<Position>,
        from: Position,
        to: Position,
    ) -> Result<bool, Memory> {
        let corner = Position { x: to.x, ..from };
        let top = self
            .top_along_x(from, to)
            .max(self.top_along_z(corner, to))
            .max(from.y)
            .max(to.y);
        if top >= self.side() {
            return Ok(false);
        }
        extend(path, from, from.at_height(top))?;
        extend(path, from.at_height(top), corner.at_height(top))?;
        extend(path, corner.at_height(top), to.at_height(top))?;
        extend(path, to.at_height(top), to)?;
        Ok(true)
    }
}

impl Searcher {
    /// A path from a position to another one, with both. None if none was found.
    pub(crate) fn route(
        &mut self,
        alloc: Global,
        site: &BuildSite,
        from: Position,
        to: Position,
    ) -> Result<Option<Vec<Position>>, Memory> {
        let Some(inside) = self.path_to(alloc, site, to, SearchGoal::SkyOr(from))? else {
            return Ok(None);
        };
        let entry = first_of(inside.as_slice(), to);
        if entry == from {
            return Ok(Some(inside));
        }
        let Some(outside) = self.path_to(alloc, site, from, SearchGoal::Sky)? else {
            return Ok(None);
        };
        let exit = first_of(outside.as_slice(), from);
        let mut path = reversed(alloc, outside.as_slice())?;
        if !site.extend_through_sky(&mut path, exit, entry)? {
            return Ok(None);
        }
        for spot in inside.as_slice().iter().skip(1) {
            path.push(*spot).map_err(|_| Memory)?;
        }
        Ok(Some(path))
    }
}
