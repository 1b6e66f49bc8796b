//! Counts and comparisons of whole planes.
ghost use Rattle.std.specs.Prelude.{◌≡◌, ◌+◌, ◌*◌, ◌<◌, ◌≤◌, ◌&&◌, ◌||◌, ℕ, Bool, true, false, not, count_by, length};
ghost use Rattle.vox_geom.specs.declared.coordinate.Coord.{Coord as Coordinate};
ghost use Rattle.vox_geom.specs.Least.{LeastOf};
ghost use Rattle.vox_geom.specs.Space.{is_before as is_before_of};
ghost use Rattle.nano_spec.specs.Matrix.{all_of, is_full};
ghost use Rattle.nano_spec.specs.Model.{bit, volume};
ghost use Rattle.nano_spec.specs.Verdict.{first_difference};
ghost use Rattle.vox_planes.specs.Difference.{earlier as earlier_of, in_layer_differ};
ghost use Rattle.vox_planes.specs.Heap.{HasNoOverhangs, goes, is_stacked};
ghost use Rattle.vox_planes.specs.Layers.{is_set as is_set_of, layer_words as layer_words_of};
ghost use Rattle.vox_planes.specs.Voxel.{IsWhole};

use super::{Planes, WORD_BITS};
use std::sync::ledger::Ledger;
use vox_geom::{Coord, Steps};

impl Planes {
    /// Returns the number of full voxels. Makes at most as many touches as there are voxels.
    pub fn count<L: Ledger>(&self, steps: &mut Steps<L>) -> u32
        ensures value { result ≡ count_by (is_full self.now) (all_of self.now) }
        ensures touches { steps.new ≤ steps.old + volume self.now.resolution }
    {
        let mut full = 0;
        for word in &self.words {
            steps.tick();
            full += word.count_ones();
        }
        full
    }

    /// Returns the least coordinate of a layer at which the two differ: the least x, and the least z for it.
    pub fn layer_difference<L: Ledger>(
        &self,
        other: &Planes,
        y: u16,
        steps: &mut Steps<L>,
    ) -> Option<Coord>
        requires same { self.now.resolution ≡ other.now.resolution }
        requires within { y < self.now.resolution }
        ensures least { LeastOf self.now.resolution (in_layer_differ self.now other.now y) result }
        ensures touches { steps.new ≤ steps.old + 2 * layer_words_of self.now.resolution }
    {
        let side = usize::from(self.resolution);
        let count = self.layer;
        let first = usize::from(y) * count;
        for i in 0..count {
            steps.tick();
            steps.tick();
            let difference = self.words[first + i] ^ other.words[first + i];
            if difference != 0 {
                let bit = i * WORD_BITS + difference.trailing_zeros() as usize;
                return Some(Coord {
                    x: (bit / side) as u16,
                    y,
                    z: (bit % side) as u16,
                });
            }
        }
        None
    }

    /// Returns the least coordinate at which the two differ, or `None` if they are equal. Makes at most two touches for each
    /// voxel.
    pub fn equal<L: Ledger>(&self, other: &Planes, steps: &mut Steps<L>) -> Option<Coord>
        requires { self.now.resolution ≡ other.now.resolution }
        ensures value { result ≡ first_difference self.now other.now }
        ensures touches { steps.new ≤ steps.old + 2 * volume self.now.resolution }
    {
        let mut least = None;
        for y in 0..self.resolution {
            least = earlier(least, self.layer_difference(other, y, steps));
        }
        least
    }

    /// Returns whether there are no overhangs: each full voxel is on the floor or above a full one.
    ///
    /// Makes at most two touches for each voxel.
    pub fn has_no_overhangs<L: Ledger>(&self, steps: &mut Steps<L>) -> bool
        ensures heap { result ≡ true → HasNoOverhangs self.now }
        ensures other { result ≡ false → HasNoOverhangs self.now → ⊥ }
        ensures touches { steps.new ≤ steps.old + 2 * volume self.now.resolution }
    {
        let layer = self.layer;
        for i in layer..self.words.len() {
            steps.tick();
            steps.tick();
            if self.words[i] & !self.words[i - layer] != 0 {
                return false;
            }
        }
        true
    }

    /// Voids the supported columns of `full`, which rise from the floor without a gap. This matrix is a copy of `full`.
    ///
    /// Makes at most four touches for each voxel.
    pub fn drop_heap<L: Ledger>(&mut self, full: &Planes, steps: &mut Steps<L>)
        requires { self.old ≡ full.now }
        ensures left { (c : Coordinate) → is_full self.new c ≡ (is_full full.now c && not (is_stacked full.now c)) }
        ensures resolution { self.new.resolution ≡ full.now.resolution }
        ensures whole { IsWhole self.new }
        ensures touches { steps.new ≤ steps.old + 4 * volume full.now.resolution }
    {
        drop_stacked(&mut self.words, &full.words, self.layer, steps);
    }
}

/// Returns the bits of the word at an index that are in the lowest layer, or above a bit that was 1 and has been cleared.
#[inline(always)]
fn going<L: Ledger>(full: &[u64], left: &[u64], layer: usize, i: usize, steps: &mut Steps<L>) -> u64
    requires full { i < length full.now }
    requires left { i < length left.now }
    ensures bits { (k : ℕ) → k < 64 → bit result k ≡ goes full.now left.now layer (i * 64 + k) }
    ensures touches { steps.new ≤ steps.old + 2 }
{
    if i < layer {
        return u64::MAX;
    }
    steps.tick();
    steps.tick();
    full[i - layer] & !left[i - layer]
}

/// Clears the bits of the supported columns of the full words, which rise from the lowest layer without a gap.
fn drop_stacked<L: Ledger>(left: &mut [u64], full: &[u64], layer: usize, steps: &mut Steps<L>)
    requires some { 1 ≤ layer }
    requires same { length left.old ≡ length full.now }
    ensures left { (j : ℕ) → j < length full.now * 64
        → is_set_of left.new j ≡ (is_set_of left.old j && not (goes full.now left.new layer j)) }
    ensures touches { steps.new ≤ steps.old + 4 * length full.now }
{
    for i in 0..full.len() {
        let gone = going(full, left, layer, i, steps);
        steps.tick();
        steps.tick();
        let word = &mut left[i];
        *word &= !gone;
    }
}

/// Returns whether one coordinate is before the other.
fn is_before(a: Coord, b: Coord) -> bool
    ensures { result ≡ is_before_of a b }
{
    a < b
}

/// Returns the earlier of two coordinates, or the only one.
pub fn earlier(a: Option<Coord>, b: Option<Coord>) -> Option<Coord>
    ensures value { result ≡ earlier_of a b }
    // The least coordinates that pass two tests give the least that passes either.
    ensures least { (r : ℕ) (f g : Coordinate → Bool) → LeastOf r f a → LeastOf r g b
        → LeastOf r (λ c. f c || g c) result }
{
    match (a, b) {
        (Some(c), Some(d)) => Some(if is_before(d, c) { d } else { c }),
        (Some(c), None) => Some(c),
        (None, d) => d,
    }
}
