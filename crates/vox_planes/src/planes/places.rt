//! Many voxels at a time: of a row, and by their places.
ghost use Rattle.std.specs.Prelude.{◌≡◌, ◌+◌, ◌-◌, ◌*◌, ◌%◌, ◌^◌, ◌<◌, ◌≤◌, ◌&&◌, ◌||◌, not, IsFalse, ℕ, cond, length};
ghost use Rattle.vox_geom.specs.declared.coordinate.Coord.{Coord as Coordinate};
ghost use Rattle.vox_geom.specs.Space.{IsInSpace, place as place_of};
ghost use Rattle.nano_spec.specs.Matrix.{is_full};
ghost use Rattle.nano_spec.specs.Model.{bit, volume};
ghost use Rattle.vox_planes.specs.Layers.{is_set as is_set_of};
ghost use Rattle.vox_planes.specs.Places.{is_from, is_marked, voxel_at};
ghost use Rattle.vox_planes.specs.Voxel.{IsWhole};
ghost use Rattle.vox_planes.specs.Walk.{at as in_row};

use super::{Planes, WORD_BITS, bit_index, end_after};
use std::sync::ledger::Ledger;
use vox_geom::{Coord, Steps};

impl Planes {
    /// Fills or voids the first of up to `most` voxels, at consecutive places from a coordinate on, by the bits of a word.
    /// Returns their number: those whose bits are in one word of a row.
    fn set_part(&mut self, first: Coord, most: u32, bits: u64) -> u32
        requires some { 1 ≤ most }
        requires few { most ≤ 64 }
        requires within { IsInSpace self.old.resolution first }
        requires end { place_of self.old.resolution first + most ≤ volume self.old.resolution }
        ensures some { 1 ≤ result }
        ensures most { result ≤ most }
        ensures places { (p : ℕ) → voxel_at self.new p
            ≡ cond (is_from (place_of self.old.resolution first) result p)
            (bit bits (p - place_of self.old.resolution first)) (voxel_at self.old p) }
        ensures resolution { self.new.resolution ≡ self.old.resolution }
        ensures whole { IsWhole self.new }
    {
        let index = bit_index(first, self.resolution, self.layer);
        let count = part(u32::from(self.resolution - first.z), index, most);
        put_bits(&mut self.words, index, count, bits);
        self.end = end_after(&self.words, self.end, index / WORD_BITS, bits != 0);
        count
    }

    /// Fills or voids up to 64 voxels of a row, from a coordinate on, by the bits of a word. All other voxels stay.
    pub fn set_row_bits(&mut self, first: Coord, count: u32, bits: u64)
        requires few { count ≤ 64 }
        requires within { IsInSpace self.old.resolution first }
        requires row { first.z + count ≤ self.old.resolution }
        ensures places { (p : ℕ) → voxel_at self.new p
            ≡ cond (is_from (place_of self.old.resolution first) count p)
            (bit bits (p - place_of self.old.resolution first)) (voxel_at self.old p) }
        ensures resolution { self.new.resolution ≡ self.old.resolution }
        ensures whole { IsWhole self.new }
    {
        self.recall();
        let mut done = 0;
        while done < count {
            let at = Coord {
                z: first.z + done as u16,
                ..first
            };
            done += self.set_part(at, count - done, bits >> done);
        }
    }

    /// Fills the voxels at consecutive places. All other voxels stay.
    pub fn fill_places(&mut self, from: u32, end: u32)
        requires order { from ≤ end }
        requires within { end ≤ volume self.old.resolution }
        ensures places { (p : ℕ) → voxel_at self.new p ≡ (is_from from (end - from) p || voxel_at self.old p) }
        ensures resolution { self.new.resolution ≡ self.old.resolution }
        ensures whole { IsWhole self.new }
    {
        self.recall();
        let mut at = from;
        while at < end {
            let first = Coord::of_place(at, self.resolution);
            at += self.set_part(first, (end - at).min(64), u64::MAX);
        }
    }

    /// Returns up to 64 voxels at consecutive places, as the bits of a word. Makes at most as many touches as voxels.
    pub fn places<L: Ledger>(&self, from: u32, count: u32, steps: &mut Steps<L>) -> u64
        requires few { count ≤ 64 }
        requires within { from + count ≤ volume self.now.resolution }
        ensures bits { (k : ℕ) → k < count → bit result k ≡ voxel_at self.now (from + k) }
        ensures below { result < 2 ^ count }
        ensures touches { steps.new ≤ steps.old + count }
    {
        let mut bits = 0;
        let mut done = 0;
        while done < count {
            steps.tick();
            let c = Coord::of_place(from + done, self.resolution);
            let index = bit_index(c, self.resolution, self.layer);
            let some = part(u32::from(self.resolution - c.z), index, count - done);
            bits += bits_at(&self.words, index, some) << done;
            done += some;
        }
        bits
    }

    /// Voids voxels of a row: those of `count` from a coordinate on whose bit in `bits` is 1. Returns which of them were full, as
    /// the bits of a word.
    ///
    /// All other voxels stay. Makes at most as many touches as voxels.
    pub fn take_row<L: Ledger>(
        &mut self,
        first: Coord,
        count: u32,
        bits: u64,
        steps: &mut Steps<L>,
    ) -> u64
        requires few { count ≤ 64 }
        requires within { IsInSpace self.old.resolution first }
        requires row { first.z + count ≤ self.old.resolution }
        ensures was { (k : ℕ) → k < count
            → bit result k ≡ (bit bits k && is_full self.old (in_row first (first.z + k))) }
        ensures below { result < 2 ^ count }
        ensures left { (d : Coordinate)
            → is_full self.new d ≡ (is_full self.old d && not (is_marked first count bits d)) }
        ensures resolution { self.new.resolution ≡ self.old.resolution }
        ensures whole { IsWhole self.new }
        ensures touches { steps.new ≤ steps.old + count }
    {
        let index = bit_index(first, self.resolution, self.layer);
        take_bits(&mut self.words, index, count, bits, steps)
    }

    /// Returns which voxels of a row are full, as the bits of a word: among `count` from a coordinate on, those whose bit in
    /// `bits` is 1.
    ///
    /// Makes at most as many touches as voxels.
    pub fn peek_row<L: Ledger>(
        &self,
        first: Coord,
        count: u32,
        bits: u64,
        steps: &mut Steps<L>,
    ) -> u64
        requires few { count ≤ 64 }
        requires within { IsInSpace self.now.resolution first }
        requires row { first.z + count ≤ self.now.resolution }
        ensures full { (k : ℕ) → k < count
            → bit result k ≡ (bit bits k && is_full self.now (in_row first (first.z + k))) }
        ensures below { result < 2 ^ count }
        ensures touches { steps.new ≤ steps.old + count }
    {
        let index = bit_index(first, self.resolution, self.layer);
        peek_bits(&self.words, index, count, bits, steps)
    }
}

/// Returns how many of `most` bits from an index on are in one word and in a row, which has `row` bits left.
#[inline(always)]
pub(super) fn part(row: u32, index: usize, most: u32) -> u32
    requires row { 1 ≤ row }
    requires some { 1 ≤ most }
    ensures some { 1 ≤ result }
    ensures most { result ≤ most }
    ensures row { result ≤ row }
    ensures word { index % 64 + result ≤ 64 }
{
    let word = (WORD_BITS - index % WORD_BITS) as u32;
    most.min(row).min(word)
}

/// Returns the mask of `count` bits from `first` on.
fn mask(first: u32, count: u32) -> u64
    requires some { 1 ≤ count }
    requires within { first + count ≤ 64 }
    ensures { result ≡ 2 ^ (first + count) - 2 ^ first }
{
    (u64::MAX >> (64 - count)) << first
}

/// Returns `count` bits from an index on, all in one word.
#[inline(always)]
pub(super) fn bits_at(words: &[u64], index: usize, count: u32) -> u64
    requires within { index < 64 * length words.now }
    requires some { 1 ≤ count }
    requires word { index % 64 + count ≤ 64 }
    ensures bits { (k : ℕ) → k < count → bit result k ≡ is_set_of words.now (index + k) }
    ensures below { result < 2 ^ count }
{
    (words[index / WORD_BITS] >> (index % WORD_BITS)) & mask(0, count)
}

/// Writes the lowest bits of another word to `count` bits from an index on, all in one word.
#[inline(always)]
pub(super) fn put_bits(words: &mut [u64], index: usize, count: u32, bits: u64)
    requires within { index < 64 * length words.old }
    requires some { 1 ≤ count }
    requires word { index % 64 + count ≤ 64 }
    ensures here { (k : ℕ) → k < count → is_set_of words.new (index + k) ≡ bit bits k }
    ensures others { (j : ℕ) → IsFalse (is_from index count j) → is_set_of words.new j ≡ is_set_of words.old j }
{
    let mask = mask((index % WORD_BITS) as u32, count);
    let word = &mut words[index / WORD_BITS];
    *word = (*word & !mask) | ((bits << (index % WORD_BITS)) & mask);
}

/// Clears the bits, all in one word, of `count` from an index on whose bit in `bits` is 1. Returns which of them were 1.
fn take_part(words: &mut [u64], index: usize, count: u32, bits: u64) -> u64
    requires within { index < 64 * length words.old }
    requires some { 1 ≤ count }
    requires word { index % 64 + count ≤ 64 }
    ensures was { (k : ℕ) → k < count → bit result k ≡ (bit bits k && is_set_of words.old (index + k)) }
    ensures below { result < 2 ^ count }
    ensures left { (j : ℕ)
        → is_set_of words.new j ≡ (is_set_of words.old j && not (is_from index count j && bit bits (j - index))) }
{
    let present = bits_at(words, index, count);
    put_bits(words, index, count, present & !bits);
    present & bits
}

/// Clears the bits, of `count` from an index on, whose bit in `bits` is 1. Returns which of them were 1.
fn take_bits<L: Ledger>(
    words: &mut [u64],
    index: usize,
    count: u32,
    bits: u64,
    steps: &mut Steps<L>,
) -> u64
    requires few { count ≤ 64 }
    requires within { index + count ≤ 64 * length words.old }
    requires small { index < 2 ^ 32 }
    ensures was { (k : ℕ) → k < count → bit result k ≡ (bit bits k && is_set_of words.old (index + k)) }
    ensures below { result < 2 ^ count }
    ensures left { (j : ℕ)
        → is_set_of words.new j ≡ (is_set_of words.old j && not (is_from index count j && bit bits (j - index))) }
    ensures touches { steps.new ≤ steps.old + count }
{
    let mut taken = 0;
    let mut done = 0;
    while done < count {
        steps.tick();
        let at = index + done as usize;
        let some = part(count - done, at, count - done);
        taken += take_part(words, at, some, bits >> done) << done;
        done += some;
    }
    taken
}

/// Returns which bits are 1, all in one word: among `count` from an index on, those whose bit in `bits` is 1.
#[inline(always)]
fn peek_part(words: &[u64], index: usize, count: u32, bits: u64) -> u64
    requires within { index < 64 * length words.now }
    requires some { 1 ≤ count }
    requires word { index % 64 + count ≤ 64 }
    ensures full { (k : ℕ) → k < count → bit result k ≡ (bit bits k && is_set_of words.now (index + k)) }
    ensures below { result < 2 ^ count }
{
    bits_at(words, index, count) & bits
}

/// Returns which bits are 1: among `count` from an index on, those whose bit in `bits` is 1.
fn peek_bits<L: Ledger>(
    words: &[u64],
    index: usize,
    count: u32,
    bits: u64,
    steps: &mut Steps<L>,
) -> u64
    requires few { count ≤ 64 }
    requires within { index + count ≤ 64 * length words.now }
    requires small { index < 2 ^ 32 }
    ensures full { (k : ℕ) → k < count → bit result k ≡ (bit bits k && is_set_of words.now (index + k)) }
    ensures below { result < 2 ^ count }
    ensures touches { steps.new ≤ steps.old + count }
{
    let mut found = 0;
    let mut done = 0;
    while done < count {
        steps.tick();
        let at = index + done as usize;
        let some = part(count - done, at, count - done);
        found += peek_part(words, at, some, bits >> done) << done;
        done += some;
    }
    found
}
