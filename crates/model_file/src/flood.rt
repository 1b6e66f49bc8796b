//! A search from the floor, many voxels at a time, which removes all that it reaches from a copy of the planes.
ghost use Rattle.std.specs.Prelude.{◌≡◌, ◌+◌, ◌<◌, ◌%◌, ◌≤◌, ◌++◌, ◌∷◌, [], All, IfOk, false, true};
ghost use Rattle.vox_geom.specs.Counting.{IsBlankOf};
ghost use Rattle.vox_geom.specs.declared.coordinate.Coord.{Coord as Coordinate};
ghost use Rattle.vox_geom.specs.Space.{IsInSpace};
ghost use Rattle.nano_spec.specs.Grounded.{FirstUngrounded};
ghost use Rattle.nano_spec.specs.Matrix.{Matrix, is_full};
ghost use Rattle.model_file.specs.declared.flood.Flood.{Flood as FloodModel};
ghost use Rattle.model_file.specs.Flood.{AreOut, IsAmong, IsBegun, IsBeside, IsFlood, IsNextTo, IsStart, LooksAround, TakesOut, weight};

use crate::least::least_full;
use counter_permit::CounterPermit;
use std::alloc::Global;
use std::marker::Brand;
use std::sync::ledger::{Blank, Ledger};
use vox_geom::{Coord, MOST_R, Memory, Region, Steps};
use vox_planes::Planes;

/// A segment of a row: those, of 64 voxels from a coordinate on, whose bit is 1.
#[derive(Clone, Copy, Debug)]
struct Stretch {
    first: Coord,
    bits: u64,
}

/// The remaining voxels of a matrix, and the frontier: segments of removed voxels whose neighbors were not visited yet.
#[derive(Drop)]
struct Flood {
    remaining: Planes,
    found: Vec<Stretch>,
}

impl Flood {
    /// Removes the full voxels of a segment and appends them to the frontier. No voxel outside the matrix is full.
    fn take<L: Ledger>(
        &mut self,
        first: Coord,
        bits: u64,
        steps: &mut Steps<L>,
    ) -> Result<(), Memory>
        requires { first.z % 64 ≡ 0 }
        ensures takes { IfOk result
            (λ _. TakesOut (IsAmong (record { first = first; bits = bits })) self.old self.new) }
        ensures gone { IfOk result
            (λ _. (d : Coordinate) → IsAmong (record { first = first; bits = bits }) d → is_full self.new.remaining d
            ≡ false) }
    {
        let r = self.remaining.resolution();
        if r <= first.x || r <= first.y || r <= first.z {
            return Ok(());
        }
        let count = u32::from(r - first.z).min(64);
        let taken = self.remaining.take_row(first, count, bits, steps);
        if taken == 0 {
            return Ok(());
        }
        match self.found.push(Stretch { first, bits: taken }) {
            Ok(()) => Ok(()),
            Err(_) => Err(Memory),
        }
    }

    /// Removes the neighbors of a segment.
    fn take_around<L: Ledger>(
        &mut self,
        first: Coord,
        bits: u64,
        steps: &mut Steps<L>,
    ) -> Result<(), Memory>
        requires start { IsStart MOST_R (record { first = first; bits = bits }) }
        requires most { self.old.remaining.resolution ≤ MOST_R }
        ensures takes { IfOk result
            (λ _. TakesOut (IsBeside (record { first = first; bits = bits })) self.old self.new) }
        ensures gone { IfOk result
            (λ _. (d : Coordinate) → IsBeside (record { first = first; bits = bits }) d → is_full self.new.remaining d
            ≡ false) }
    {
        let Coord { x, y, z } = first;
        self.take(Coord { x: x + 1, y, z }, bits, steps)?;
        self.take(
            Coord {
                x: x.wrapping_sub(1),
                y,
                z,
            },
            bits,
            steps,
        )?;
        self.take(Coord { x, y: y + 1, z }, bits, steps)?;
        self.take(
            Coord {
                x,
                y: y.wrapping_sub(1),
                z,
            },
            bits,
            steps,
        )?;
        self.take(first, (bits << 1) | (bits >> 1), steps)?;
        self.take(Coord { x, y, z: z + 64 }, bits >> 63, steps)?;
        self.take(
            Coord {
                x,
                y,
                z: z.wrapping_sub(64),
            },
            bits << 63,
            steps,
        )?;
        Ok(())
    }

    /// Expands a segment: if full neighbors are in its own word, the segment joins the frontier again, with them; otherwise all
    /// its neighbors are removed.
    ///
    /// Without the first case, a search that enters a word at one voxel would proceed voxel by voxel.
    fn look_around<L: Ledger>(
        &mut self,
        first: Coord,
        bits: u64,
        steps: &mut Steps<L>,
    ) -> Result<(), Memory>
        requires within { IsInSpace self.old.remaining.resolution first }
        requires each { first.z % 64 ≡ 0 }
        requires most { self.old.remaining.resolution ≤ MOST_R }
        ensures reaches { IfOk result
            (λ _. (m : Matrix) (s : FloodModel) → IsFlood m s → self.old.remaining ≡ s.remaining
            → s.found.items ≡ self.old.found.items ++ record { first = first; bits = bits } ∷ [] → IsFlood m self.new) }
        ensures resolution { IfOk result (λ _. self.new.remaining.resolution ≡ self.old.remaining.resolution) }
        ensures starts { IfOk result
            (λ _. All (IsStart self.old.remaining.resolution) self.old.found.items → All
            (IsStart self.old.remaining.resolution) self.new.found.items) }
        ensures weighs { IfOk result (λ _. weight self.new ≤ weight self.old) }
    {
        let count = u32::from(self.remaining.resolution() - first.z).min(64);
        let more = self
            .remaining
            .take_row(first, count, (bits << 1) | (bits >> 1), steps);
        if more == 0 {
            self.take_around(first, bits, steps)?;
            return Ok(());
        }
        match self.found.push(Stretch {
            first,
            bits: bits | more,
        }) {
            Ok(()) => Ok(()),
            Err(_) => Err(Memory),
        }
    }

    /// Returns whether voxels of a segment remain.
    fn is_left<L: Ledger>(&self, first: Coord, bits: u64, steps: &mut Steps<L>) -> bool
        ensures { result ≡ false → (d : Coordinate) → IsAmong (record { first = first; bits = bits }) d
            → is_full self.now.remaining d ≡ false }
    {
        let r = self.remaining.resolution();
        if bits == 0 {
            return false;
        }
        if r <= first.x || r <= first.y || r <= first.z {
            return false;
        }
        let count = u32::from(r - first.z).min(64);
        self.remaining.peek_row(first, count, bits, steps) != 0
    }

    /// Returns whether neighbors of a segment remain.
    fn is_left_around<L: Ledger>(&self, first: Coord, bits: u64, steps: &mut Steps<L>) -> bool
        requires { IsStart MOST_R (record { first = first; bits = bits }) }
        ensures { result ≡ false → (d : Coordinate) → IsBeside (record { first = first; bits = bits }) d
            → is_full self.now.remaining d ≡ false }
    {
        let Coord { x, y, z } = first;
        let left = x.wrapping_sub(1);
        let under = y.wrapping_sub(1);
        let before = z.wrapping_sub(64);
        if self.is_left(Coord { x: x + 1, y, z }, bits, steps) {
            return true;
        }
        if self.is_left(Coord { x: left, y, z }, bits, steps) {
            return true;
        }
        if self.is_left(Coord { x, y: y + 1, z }, bits, steps) {
            return true;
        }
        if self.is_left(Coord { x, y: under, z }, bits, steps) {
            return true;
        }
        if self.is_left(first, (bits << 1) | (bits >> 1), steps) {
            return true;
        }
        if self.is_left(Coord { x, y, z: z + 64 }, bits >> 63, steps) {
            return true;
        }
        self.is_left(Coord { x, y, z: before }, bits << 63, steps)
    }

    /// Returns the removed voxels of a segment, as its bits.
    fn out_of<L: Ledger>(&self, planes: &Planes, first: Coord, steps: &mut Steps<L>) -> u64
        requires within { IsInSpace planes.now.resolution first }
        requires begun { IsBegun planes.now self.now }
        ensures { AreOut planes.now self.now.remaining first result }
    {
        let count = u32::from(planes.resolution() - first.z).min(64);
        let own = self.remaining.peek_row(first, count, u64::MAX, steps);
        planes.peek_row(first, count, !own, steps)
    }

    /// Removes the neighbors of the voxels of a segment that are removed already.
    fn take_beside<L: Ledger>(
        &mut self,
        planes: &Planes,
        first: Coord,
        steps: &mut Steps<L>,
    ) -> Result<(), Memory>
        requires within { IsInSpace planes.now.resolution first }
        requires most { planes.now.resolution ≤ MOST_R }
        requires each { first.z % 64 ≡ 0 }
        requires begun { IsBegun planes.now self.old }
        ensures { IfOk result (λ _. LooksAround planes.now (IsNextTo first) self.old self.new) }
    {
        let out = self.out_of(planes, first, steps);
        if !self.is_left_around(first, out, steps) {
            return Ok(());
        }
        self.take_around(first, out, steps)?;
        Ok(())
    }

    /// Removes the neighbors of the voxels of a row that are removed already.
    fn take_beside_row<L: Ledger>(
        &mut self,
        planes: &Planes,
        x: u16,
        y: u16,
        steps: &mut Steps<L>,
    ) -> Result<(), Memory>
        requires x { x < planes.now.resolution }
        requires y { y < planes.now.resolution }
        requires most { planes.now.resolution ≤ MOST_R }
        requires begun { IsBegun planes.now self.old }
        ensures { IfOk result (λ _. LooksAround planes.now (λ d. (d.x ≡ x) × (d.y ≡ y)) self.old self.new) }
    {
        let words = planes.resolution().div_ceil(64);
        for k in 0..words {
            self.take_beside(planes, Coord { x, y, z: 64 * k }, steps)?;
        }
        Ok(())
    }

    /// Returns whether no voxel remains in a layer, nor in the layers below and above it.
    fn is_bare_at<L: Ledger>(&self, y: u16, steps: &mut Steps<L>) -> bool
        requires { y < self.now.remaining.resolution }
        ensures { result ≡ true → (d : Coordinate) → y ≤ d.y + 1 → d.y ≤ y + 1
            → is_full self.now.remaining d ≡ false }
    {
        let end = self.remaining.resolution() - 1;
        let low = Coord {
            x: 0,
            y: y.max(1) - 1,
            z: 0,
        };
        let high = Coord {
            x: end,
            y: (y + 1).min(end),
            z: end,
        };
        self.remaining
            .region_full(&Region::of(low, high), steps)
            .is_none()
    }

    /// Removes the neighbors of the voxels of a layer that are removed already.
    fn take_beside_layer<L: Ledger>(
        &mut self,
        planes: &Planes,
        y: u16,
        steps: &mut Steps<L>,
    ) -> Result<(), Memory>
        requires y { y < planes.now.resolution }
        requires most { planes.now.resolution ≤ MOST_R }
        requires begun { IsBegun planes.now self.old }
        ensures { IfOk result (λ _. LooksAround planes.now (λ d. d.y ≡ y) self.old self.new) }
    {
        if self.is_bare_at(y, steps) {
            return Ok(());
        }
        for x in 0..planes.resolution() {
            self.take_beside_row(planes, x, y, steps)?;
        }
        Ok(())
    }

    /// Removes the neighbors of the voxels that are removed already.
    fn take_beside_all<L: Ledger>(
        &mut self,
        planes: &Planes,
        steps: &mut Steps<L>,
    ) -> Result<(), Memory>
        requires most { planes.now.resolution ≤ MOST_R }
        requires begun { IsBegun planes.now self.old }
        ensures { IfOk result (λ _. LooksAround planes.now (λ _. Unit {0}) self.old self.new) }
    {
        for y in 0..planes.resolution() {
            self.take_beside_layer(planes, y, steps)?;
        }
        Ok(())
    }

    /// Removes all voxels that are reachable from the frontier.
    fn spread<L: Ledger>(&mut self, steps: &mut Steps<L>) -> Result<(), Memory>
        requires most { self.old.remaining.resolution ≤ MOST_R }
        requires starts { All (IsStart self.old.remaining.resolution) self.old.found.items }
        ensures reaches { IfOk result (λ _. (m : Matrix) → IsFlood m self.old → IsFlood m self.new) }
        ensures all { IfOk result (λ _. self.new.found.items ≡ []) }
    {
        while let Some(stretch) = self.found.pop() {
            self.look_around(stretch.first, stretch.bits, steps)?;
        }
        Ok(())
    }
}

/// Returns the least full voxel that is not grounded. Counts touches in its own ledger.
///
/// First removes all supported columns by one pass over the words; the search begins at their neighbors.
fn first_ungrounded_in<L: Ledger>(
    alloc: Global,
    planes: &Planes,
    blank: Blank,
) -> Result<Option<Coord>, Memory>
    requires blank { IsBlankOf blank L.name L.parts }
    ensures { IfOk result (λ at. FirstUngrounded planes.now at) }
{
    let mut steps: Steps<L> = Steps::new(blank, CounterPermit);
    if planes.has_no_overhangs(&mut steps) {
        return Ok(None);
    }
    let mut flood = Flood {
        remaining: planes.copy(alloc)?,
        found: Vec::new(alloc),
    };
    flood.remaining.drop_heap(planes, &mut steps);
    flood.take_beside_all(planes, &mut steps)?;
    flood.spread(&mut steps)?;
    Ok(least_full(&flood.remaining))
}

/// Returns the least full voxel that is not grounded, or `None` if each is grounded. A matrix without overhangs is not searched.
///
/// Its reads use a counter of touches that is discarded.
pub fn first_ungrounded(alloc: Global, planes: &Planes) -> Result<Option<Coord>, Memory>
    ensures { IfOk result (λ at. FirstUngrounded planes.now at) }
{
    first_ungrounded_in::<Brand>(alloc, planes, Blank::new(1))
}
