//! Regions filled or voided, row by row, by whole words.
ghost use Rattle.std.specs.Prelude.{◌≡◌, ℕ, ◌+◌, ◌-◌, ◌*◌, ◌%◌, ◌^◌, ◌<◌, ◌≤◌, IsFalse, length};
ghost use Rattle.vox_geom.specs.declared.TheConstants.{MOST_R};
ghost use Rattle.vox_geom.specs.Region.{size, span};
ghost use Rattle.vox_geom.specs.Space.{IsInSpace};
ghost use Rattle.vox_planes.specs.Bits.{others_of};
ghost use Rattle.vox_planes.specs.Layers.{is_set as is_set_of};
ghost use Rattle.vox_planes.specs.Painting.{IsPainted, is_in_layer, is_in_row, other_count, with_box};
ghost use Rattle.vox_planes.specs.Places.{is_from};
ghost use Rattle.vox_planes.specs.Voxel.{IsWhole};
ghost use Rattle.vox_planes.specs.Walk.{layer_size};

use super::places::{bits_at, part, put_bits};
use super::{Planes, WORD_BITS, bit_index, end_after};
use std::sync::ledger::Ledger;
use vox_geom::{Coord, Region, Steps};

impl Planes {
    /// Fills or voids a row, from a coordinate on to the last component z. Returns how many voxels changed.
    fn set_row<L: Ledger>(
        &mut self,
        first: Coord,
        last: u16,
        full: bool,
        steps: &mut Steps<L>,
    ) -> u32
        requires within { IsInSpace self.old.resolution first }
        requires order { first.z ≤ last }
        requires end { last < self.old.resolution }
        ensures painted { IsPainted self.old self.new (is_in_row first last) full result }
        ensures most { result ≤ last + 1 - first.z }
        ensures resolution { self.new.resolution ≡ self.old.resolution }
        ensures whole { IsWhole self.new }
        ensures touches { steps.new ≤ steps.old + (last + 1 - first.z) }
    {
        let index = bit_index(first, self.resolution, self.layer);
        let count = u32::from(last - first.z) + 1;
        let changed = set_bits(&mut self.words, index, count, full, steps);
        let end = index + usize::from(last - first.z);
        self.end = end_after(&self.words, self.end, end / WORD_BITS, full);
        changed
    }

    /// Fills or voids the coordinates of the region with this y. Returns how many voxels changed.
    fn set_layer<L: Ledger>(&mut self, b: &Region, y: u16, full: bool, steps: &mut Steps<L>) -> u32
        requires within { IsInSpace self.old.resolution b.now.high }
        requires low { b.now.low.y ≤ y }
        requires high { y ≤ b.now.high.y }
        ensures painted { IsPainted self.old self.new (is_in_layer b.now y (b.now.high.x + 1)) full result }
        ensures most { result ≤ layer_size b.now }
        ensures resolution { self.new.resolution ≡ self.old.resolution }
        ensures whole { IsWhole self.new }
        ensures touches { steps.new ≤ steps.old + layer_size b.now }
    {
        self.recall();
        let low = b.low();
        let high = b.high();
        let mut changed = 0;
        for x in low.x..high.x + 1 {
            changed += self.set_row(Coord { x, y, z: low.z }, high.z, full, steps);
        }
        changed
    }

    /// Fills or voids the region, and returns how many voxels changed.
    ///
    /// Makes at most as many touches as the region has coordinates.
    pub fn set_region<L: Ledger>(&mut self, b: &Region, full: bool, steps: &mut Steps<L>) -> u32
        requires { IsInSpace self.old.resolution b.now.high }
        ensures value { self.new ≡ with_box self.old b.now full }
        ensures count { result ≡ other_count self.old b.now full }
        ensures most { result ≤ size (span b.now) }
        ensures resolution { self.new.resolution ≡ self.old.resolution }
        ensures whole { IsWhole self.new }
        ensures touches { steps.new ≤ steps.old + size (span b.now) }
    {
        self.recall();
        recall_size(b);
        let low = b.low();
        let high = b.high();
        let mut changed = 0;
        for y in low.y..high.y + 1 {
            changed += self.set_layer(b, y, full, steps);
        }
        changed
    }
}

/// Proof aid: shows that a region has few coordinates. No effect.
#[inline(always)]
fn recall_size(b: &Region)
    requires { IsInSpace MOST_R b.now.high }
    ensures { size (span b.now) ≤ MOST_R * MOST_R * MOST_R }
{
    let _ = b.size();
}

/// Sets or clears `count` bits from an index on, all in one word. Returns how many changed.
#[inline(always)]
fn set_some(words: &mut [u64], index: usize, count: u32, full: bool) -> u32
    requires within { index < 64 * length words.old }
    requires some { 1 ≤ count }
    requires word { index % 64 + count ≤ 64 }
    ensures here { (k : ℕ) → k < count → is_set_of words.new (index + k) ≡ full }
    ensures others { (j : ℕ) → IsFalse (is_from index count j) → is_set_of words.new j ≡ is_set_of words.old j }
    ensures count { result ≡ others_of words.old index count full }
    ensures most { result ≤ count }
{
    let ones = bits_at(words, index, count).count_ones();
    if full {
        put_bits(words, index, count, u64::MAX);
        count - ones
    } else {
        put_bits(words, index, count, 0);
        ones
    }
}

/// Sets or clears `count` bits from an index on. Returns how many changed.
fn set_bits<L: Ledger>(
    words: &mut [u64],
    index: usize,
    count: u32,
    full: bool,
    steps: &mut Steps<L>,
) -> u32
    requires within { index + count ≤ 64 * length words.old }
    requires small { index + count < 2 ^ 32 }
    ensures here { (k : ℕ) → k < count → is_set_of words.new (index + k) ≡ full }
    ensures others { (j : ℕ) → IsFalse (is_from index count j) → is_set_of words.new j ≡ is_set_of words.old j }
    ensures count { result ≡ others_of words.old index count full }
    ensures most { result ≤ count }
    ensures touches { steps.new ≤ steps.old + count }
{
    let mut changed = 0;
    let mut done = 0;
    while done < count {
        steps.tick();
        let at = index + done as usize;
        let some = part(count - done, at, count - done);
        changed += set_some(words, at, some, full);
        done += some;
    }
    changed
}
