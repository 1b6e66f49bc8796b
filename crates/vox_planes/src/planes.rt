//! Bit planes: one bit for each voxel of a matrix.
ghost use Rattle.std.specs.Prelude.{◌≡◌, ◌≢◌, ℕ, ◌+◌, ◌*◌, ◌/◌, ◌%◌, ◌<◌, ◌≤◌, IfOk, cond, false, length, max, true};
ghost use Rattle.vox_geom.specs.declared.coordinate.Coord.{Coord as Coordinate};
ghost use Rattle.vox_geom.specs.Space.{IsInSpace};
ghost use Rattle.nano_spec.specs.Matrix.{empty as empty_of, is_full};
ghost use Rattle.vox_planes.specs.Layers.{AreZeroFrom, bit_index as bit_index_of, is_set as is_set_of, layer_words as layer_words_of};
ghost use Rattle.vox_planes.specs.Voxel.{IsWhole, with_voxel};

mod lines;
mod painting;
mod places;
mod regions;
mod whole;

use std::alloc::Global;
use std::marker::Model;
use std::sync::ledger::Ledger;
use vox_geom::{Coord, MOST_R, Memory, Steps};
pub use whole::earlier;

/// The number of bits in a word.
const WORD_BITS: usize = 64;

/// The most words of 0 that one change of voxels passes in the search for the last word that is not 0.
const MOST_TRIMMED: u8 = 8;

/// The full voxels of a matrix, one bit each. Contracts see the matrix: its resolution and, in the order of places, its voxels.
#[derive(Drop)]
pub struct Planes {
    resolution: u16,
    // The number of words in a layer: each index needs it.
    layer: usize,
    words: Vec<u64>,
    // The index of a word from which on all words are 0.
    end: usize,
}

impl Model for Planes {
    ghost use Rattle.nano_spec.specs.Matrix.{Matrix};
    ghost use Rattle.std.specs.Prelude.{◌≡◌};
    ghost use Rattle.vox_planes.specs.Layers.{AreZeroFrom, IsLayered, layer_words, layered};

    ghost Value = { Matrix };

    ghost view = { λ p. layered p.resolution p.words.items };

    ghost invariant = { λ p. IsLayered p.resolution p.words.items × (p.layer ≡ layer_words p.resolution)
        × AreZeroFrom p.words.items p.end };
}

/// Returns the number of words in a layer.
#[inline(always)]
fn layer_words(r: u16) -> usize
    requires { r ≤ MOST_R }
    ensures { result ≡ layer_words_of r }
{
    let side = usize::from(r);
    (side * side).div_ceil(WORD_BITS)
}

/// Returns the index of a coordinate's bit among all words, given the number of words in a layer.
#[inline(always)]
fn bit_index(c: Coord, r: u16, layer: usize) -> usize
    requires resolution { r ≤ MOST_R }
    requires layer { layer ≡ layer_words_of r }
    requires within { IsInSpace r c }
    ensures value { result ≡ bit_index_of r c }
    ensures below { result / 64 < r * layer_words_of r }
{
    let below = usize::from(c.y) * layer * WORD_BITS;
    below + usize::from(c.x) * usize::from(r) + usize::from(c.z)
}

/// Returns whether the bit at this index is 1.
#[tactic(auto, unfolding(crate::specs::Layers::is_set))]
#[inline(always)]
fn is_set(words: &[u64], i: usize) -> bool
    requires { i / 64 < length words.now }
    ensures { result ≡ is_set_of words.now i }
{
    (words[i / WORD_BITS] >> (i % WORD_BITS)) % 2 == 1
}

/// Sets the bit at this index to 1 or 0.
#[tactic(auto, unfolding(crate::specs::Layers::is_set))]
#[inline(always)]
fn set_bit(words: &mut [u64], i: usize, value: bool)
    requires { i / 64 < length words.old }
    ensures here { is_set_of words.new i ≡ value }
    ensures others { (j : ℕ) → j ≢ i → is_set_of words.new j ≡ is_set_of words.old j }
{
    let mask = 1u64 << (i % WORD_BITS);
    let word = &mut words[i / WORD_BITS];
    if value {
        *word |= mask;
    } else {
        *word &= !mask;
    }
}

/// Returns an index from which on all words are 0, given one such index: tests the last few words before it.
#[inline(never)]
fn trim(words: &[u64], end: usize) -> usize
    requires { AreZeroFrom words.now end }
    ensures { AreZeroFrom words.now result }
{
    let mut left = end;
    for _ in 0..MOST_TRIMMED {
        if left == 0 {
            return left;
        }
        if words[left - 1] != 0 {
            return left;
        }
        left -= 1;
    }
    left
}

/// Returns an index from which on all words are 0, after bits up to the word at `at` were set or cleared.
///
/// A distant end moves only in part at each call.
#[inline(always)]
fn end_after(words: &[u64], end: usize, at: usize, full: bool) -> usize
    requires at { at < length words.now }
    requires zero { AreZeroFrom words.now (cond full (max end (at + 1)) end) }
    ensures { AreZeroFrom words.now result }
{
    if full {
        return end.max(at + 1);
    }
    if words[at] != 0 {
        return end;
    }
    if end != 0 && words[end - 1] != 0 {
        return end;
    }
    trim(words, end)
}

impl Planes {
    /// Returns the matrix of a resolution in which every voxel is void.
    pub fn empty(alloc: Global, r: u16) -> Result<Planes, Memory>
        requires some { 1 ≤ r }
        requires most { r ≤ MOST_R }
        ensures value { IfOk result (λ p. p ≡ empty_of r) }
        ensures resolution { IfOk result (λ p. p.resolution ≡ r) }
        ensures whole { IfOk result (λ p. IsWhole p) }
    {
        let layer = layer_words(r);
        let words = vec![in alloc; 0u64; usize::from(r) * layer]?;
        Ok(Planes {
            resolution: r,
            layer,
            words,
            end: 0,
        })
    }

    /// Returns a copy of the matrix.
    pub fn copy(&self, alloc: Global) -> Result<Planes, Memory>
        ensures value { IfOk result (λ p. p ≡ self.now) }
        ensures resolution { IfOk result (λ p. p.resolution ≡ self.now.resolution) }
        ensures whole { IfOk result (λ p. IsWhole p) }
    {
        let words = Vec::from_slice(alloc, self.words.as_slice())?;
        Ok(Planes {
            resolution: self.resolution,
            layer: self.layer,
            words,
            end: self.end,
        })
    }

    /// Returns the resolution, 1 to [`MOST_R`].
    pub fn resolution(&self) -> u16
        ensures value { result ≡ self.now.resolution }
        ensures whole { IsWhole self.now }
    {
        self.recall();
        self.resolution
    }

    /// Proof aid: exposes the type's invariant to the caller. No effect.
    #[inline(always)]
    pub fn recall(&self)
        ensures whole { IsWhole self.now }
    {
        let _ = &self.resolution;
    }

    /// Returns whether all is known to be void from the layer of y on: one touch if it is, and none if that is not known.
    #[inline(always)]
    pub fn is_void_from<L: Ledger>(&self, y: u16, steps: &mut Steps<L>) -> bool
        ensures void { result ≡ true → (c : Coordinate) → y ≤ c.y → is_full self.now c ≡ false }
        ensures touches { steps.new ≤ steps.old + cond result 1 0 }
    {
        if self.end > usize::from(y) * self.layer {
            return false;
        }
        steps.tick();
        true
    }

    /// Returns the index of the bit of the voxel at the coordinate, for a caller that reads it and writes it later:
    /// [`Planes::full_at_bit`], [`Planes::set_at_bit`].
    #[inline(always)]
    pub fn bit_of(&self, c: Coord) -> usize
        requires { IsInSpace self.now.resolution c }
        ensures { result ≡ bit_index_of self.now.resolution c }
    {
        bit_index(c, self.resolution, self.layer)
    }

    /// Like [`Planes::full_at`], by the index of the voxel's bit.
    #[inline(always)]
    pub fn full_at_bit<L: Ledger>(&self, c: Coord, bit: usize, steps: &mut Steps<L>) -> bool
        requires within { IsInSpace self.now.resolution c }
        requires bit { bit ≡ bit_index_of self.now.resolution c }
        ensures value { result ≡ is_full self.now c }
        ensures touches { steps.new ≡ steps.old + 1 }
    {
        steps.tick();
        is_set(&self.words, bit)
    }

    /// Returns whether the voxel at the coordinate is full: one touch.
    #[inline(always)]
    pub fn full_at<L: Ledger>(&self, c: Coord, steps: &mut Steps<L>) -> bool
        requires { IsInSpace self.now.resolution c }
        ensures value { result ≡ is_full self.now c }
        ensures touches { steps.new ≡ steps.old + 1 }
    {
        self.full_at_bit(c, self.bit_of(c), steps)
    }

    /// Like [`Planes::set`], by the index of the voxel's bit.
    #[inline(always)]
    pub fn set_at_bit(&mut self, c: Coord, bit: usize, full: bool)
        requires within { IsInSpace self.old.resolution c }
        requires bit { bit ≡ bit_index_of self.old.resolution c }
        ensures value { self.new ≡ with_voxel self.old c full }
        ensures resolution { self.new.resolution ≡ self.old.resolution }
        ensures here { is_full self.new c ≡ full }
        ensures others { (d : Coordinate) → d ≢ c → is_full self.new d ≡ is_full self.old d }
        ensures whole { IsWhole self.new }
    {
        set_bit(&mut self.words, bit, full);
        self.end = end_after(&self.words, self.end, bit / WORD_BITS, full);
    }

    /// Fills or voids the voxel at the coordinate. All other voxels stay.
    #[inline(always)]
    pub fn set(&mut self, c: Coord, full: bool)
        requires { IsInSpace self.old.resolution c }
        ensures value { self.new ≡ with_voxel self.old c full }
        ensures resolution { self.new.resolution ≡ self.old.resolution }
        ensures here { is_full self.new c ≡ full }
        ensures others { (d : Coordinate) → d ≢ c → is_full self.new d ≡ is_full self.old d }
        ensures whole { IsWhole self.new }
    {
        let bit = self.bit_of(c);
        self.set_at_bit(c, bit, full);
    }
}
