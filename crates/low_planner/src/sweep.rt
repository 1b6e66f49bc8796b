//! A sweep over the voxels of a model, layer by layer from the floor up and part by part.
ghost use Rattle.std.specs.Prelude.{◌≡◌, ◌+◌, ◌++◌, ◌∷◌, [], ◌<◌, ◌≤◌, ◌≢◌, false, IfOk, IsTrue, MatchOption, OnOk, List, length};
ghost use Rattle.vox_geom.specs.declared.coordinate.Coord.{Coord as Coordinate};
ghost use Rattle.vox_geom.specs.Space.{IsInSpace};
ghost use Rattle.nano_spec.specs.Matrix.{is_full as is_full_of};
ghost use Rattle.nano_spec.specs.State.{origin};
ghost use Rattle.low_planner.specs.Supported.{rests as rests_of};
ghost use Rattle.low_planner.specs.Sweep.{AreAllSwept, AreSwept, AreBesideInLayer, IsNextFull, IsNextRow, IsPartStart, IsStartInRow, IsSweep, IsSweptRow, IsVoidRow, TakesVoxel, Visits};
ghost use Rattle.vox_geom.specs.Point.{coord};

use std::alloc::Global;
use vox_geom::{Coord, Memory, Region};
use vox_planes::Planes;
use voxel_reads::{first_full, is_full};

/// The next visit of a sweep.
#[derive(Clone, Copy, Debug)]
pub enum Visit {
    /// The first voxel of a part: it has a full voxel right below it, or is on the floor.
    First(Coord),
    /// A neighbor of the last voxel of the trail.
    Onward(Coord),
    /// The voxel before the last one of the trail; the trail gets shorter.
    Back(Coord),
}

/// A sweep: the voxels not visited yet, the trail through the current part, and the start of that part.
#[derive(Drop)]
pub struct Sweep {
    pub remaining: Planes,
    pub trail: Vec<Coord>,
    pub at: Coord,
}

/// Returns whether a part may begin at the voxel: it is on the floor, or the voxel right below it is full.
fn rests(target: &Planes, c: Coord) -> bool
    requires { IsInSpace target.now.resolution c }
    ensures { result ≡ rests_of target.now c }
{
    c.y == 0 || is_full(target, Coord { y: c.y - 1, ..c })
}

/// Returns the first full voxel of a row, from a coordinate on.
fn next_full(planes: &Planes, from: Coord) -> Option<Coord>
    requires { IsInSpace planes.now.resolution from }
    ensures { MatchOption result (IsVoidRow planes.now from) (IsNextFull planes.now from) }
{
    let end = planes.resolution() - 1;
    first_full(planes, &Region::of(from, Coord { z: end, ..from }))
}

/// Returns the start of the next row.
fn next_row(from: Coord, resolution: u16) -> Coord
    requires x { from.x < resolution }
    requires y { from.y < resolution }
    requires z { from.z < resolution }
    ensures { IsNextRow resolution from result }
{
    if from.x + 1 < resolution {
        Coord {
            x: from.x + 1,
            y: from.y,
            z: 0,
        }
    } else {
        Coord {
            x: 0,
            y: from.y + 1,
            z: 0,
        }
    }
}

impl Sweep {
    /// Returns a sweep that has visited nothing.
    pub fn begin(alloc: Global, target: &Planes) -> Result<Sweep, Memory>
        ensures sweep { IfOk result (IsSweep target.now) }
        ensures remaining { IfOk result (λ s. s.remaining ≡ target.now) }
        ensures trail { IfOk result (λ s. s.trail.items ≡ []) }
        ensures at { IfOk result (λ s. s.at ≡ origin) }
    {
        Ok(Sweep {
            remaining: target.copy(alloc)?,
            trail: Vec::new(alloc),
            at: Coord { x: 0, y: 0, z: 0 },
        })
    }

    /// Returns the last coordinate of the trail.
    fn last(&self) -> Option<Coord>
        ensures { MatchOption result (self.now.trail.items ≡ [])
            (λ c. (most : List Coordinate) × (self.now.trail.items ≡ most ++ c ∷ [])) }
    {
        self.trail.last().copied()
    }

    /// Removes the last coordinate of the trail.
    fn shorten(&mut self)
        ensures trail { (most : List Coordinate) (c : Coordinate) → self.old.trail.items ≡ most ++ c ∷ []
            → self.new.trail.items ≡ most }
        ensures remaining { self.new.remaining ≡ self.old.remaining }
        ensures at { self.new.at ≡ self.old.at }
    {
        let _ = self.trail.pop();
    }

    /// Returns whether the voxel is full and was not visited.
    fn is_left(&self, x: u16, y: u16, z: u16) -> bool
        ensures { result ≡ is_full_of self.now.remaining (coord x y z) }
    {
        let r = self.remaining.resolution();
        x < r && y < r && z < r && is_full(&self.remaining, Coord { x, y, z })
    }

    /// Returns a voxel that was not visited, next to a coordinate in its layer.
    fn beside(&self, c: Coord) -> Option<Coord>
        requires { IsInSpace self.now.remaining.resolution c }
        ensures { MatchOption result ((d : Coordinate) → AreBesideInLayer c d → is_full_of self.now.remaining d ≡ false)
            (λ d. AreBesideInLayer c d × IsTrue (is_full_of self.now.remaining d)) }
    {
        self.remaining.recall();
        let Coord { x, y, z } = c;
        if self.is_left(x, y, z + 1) {
            return Some(Coord { x, y, z: z + 1 });
        }
        if z > 0 && self.is_left(x, y, z - 1) {
            return Some(Coord { x, y, z: z - 1 });
        }
        if self.is_left(x + 1, y, z) {
            return Some(Coord { x: x + 1, y, z });
        }
        if x > 0 && self.is_left(x - 1, y, z) {
            return Some(Coord { x: x - 1, y, z });
        }
        None
    }

    /// Visits a voxel, and appends it to the trail.
    fn take(&mut self, c: Coord) -> Result<(), Memory>
        requires { IsTrue (is_full_of self.old.remaining c) }
        ensures takes { OnOk result (TakesVoxel self.old self.new c) }
        ensures at { self.new.at ≡ self.old.at }
    {
        match self.trail.push(c) {
            Ok(()) => {}
            Err(_) => return Err(Memory),
        }
        self.remaining.set(c, false);
        Ok(())
    }

    /// Returns the first voxel of a row, from a coordinate on, that was not visited and at which a part may begin.
    fn start_in_row(&self, target: &Planes, from: Coord) -> Option<Coord>
        requires within { IsInSpace target.now.resolution from }
        requires same { self.now.remaining.resolution ≡ target.now.resolution }
        ensures { MatchOption result (IsSweptRow target.now self.now.remaining from target.now.resolution)
            (IsStartInRow target.now self.now.remaining from) }
    {
        let end = target.resolution() - 1;
        let mut at = from;
        while let Some(c) = next_full(&self.remaining, at) {
            if rests(target, c) {
                return Some(c);
            }
            if c.z == end {
                return None;
            }
            at = Coord { z: c.z + 1, ..c };
        }
        None
    }

    /// Returns the next voxel that was not visited and at which a part may begin.
    fn start(&self, target: &Planes) -> Option<Coord>
        requires same { self.now.remaining.resolution ≡ target.now.resolution }
        requires place { IsInSpace target.now.resolution self.now.at }
        requires swept { AreSwept target.now self.now.remaining self.now.at }
        ensures { MatchOption result (AreAllSwept target.now self.now.remaining) (IsPartStart target.now self.now) }
    {
        let resolution = target.resolution();
        let mut from = self.at;
        while from.y < resolution {
            let found = self.start_in_row(target, from);
            if found.is_some() {
                return found;
            }
            from = next_row(from, resolution);
        }
        None
    }

    /// Visits the first voxel of the next part.
    fn next_part(&mut self, target: &Planes) -> Result<Option<Visit>, Memory>
        requires sweep { IsSweep target.now self.old }
        requires none { self.old.trail.items ≡ [] }
        ensures sweep { IfOk result (λ _. IsSweep target.now self.new) }
        ensures visits { IfOk result (Visits target.now self.old self.new) }
    {
        match self.start(target) {
            Some(c) => {
                self.at = c;
                self.take(c)?;
                Ok(Some(Visit::First(c)))
            }
            None => Ok(None),
        }
    }

    /// Visits the next voxel, or goes back on the trail. Returns `None` once all reachable voxels are visited.
    pub fn next(&mut self, target: &Planes) -> Result<Option<Visit>, Memory>
        requires { IsSweep target.now self.old }
        ensures sweep { IfOk result (λ _. IsSweep target.now self.new) }
        ensures visits { IfOk result (Visits target.now self.old self.new) }
    {
        let Some(top) = self.last() else {
            return self.next_part(target);
        };
        if let Some(c) = self.beside(top) {
            self.take(c)?;
            return Ok(Some(Visit::Onward(c)));
        }
        self.shorten();
        match self.last() {
            Some(c) => Ok(Some(Visit::Back(c))),
            None => self.next_part(target),
        }
    }
}
