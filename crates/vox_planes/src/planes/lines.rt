//! Searches along lines: the bits of a line along x or y are equally spaced.
ghost use Rattle.std.specs.Prelude.{◌≡◌, ℕ, ◌+◌, ◌*◌, ◌/◌, ◌^◌, ◌≤◌, ◌<◌, IfSome, IfNone, find, length};
ghost use Rattle.vox_geom.specs.Region.{size, span};
ghost use Rattle.vox_geom.specs.Space.{IsInSpace};
ghost use Rattle.nano_spec.specs.Matrix.{all_of, is_full};
ghost use Rattle.vox_planes.specs.Bits.{AreClear, IsFirstBit};
ghost use Rattle.vox_planes.specs.Layers.{is_set as is_set_of};
ghost use Rattle.vox_planes.specs.Walk.{passes_in};

use super::{Planes, WORD_BITS, bit_index, is_set};
use std::sync::ledger::Ledger;
use vox_geom::{Coord, Region, Steps};

impl Planes {
    /// Returns the least full coordinate of a region that is a line along x.
    pub(super) fn line_along_x<L: Ledger>(&self, b: &Region, steps: &mut Steps<L>) -> Option<Coord>
        requires within { IsInSpace self.now.resolution b.now.high }
        requires y { b.now.low.y ≡ b.now.high.y }
        requires z { b.now.low.z ≡ b.now.high.z }
        ensures value { result ≡ find (passes_in b.now (is_full self.now)) (all_of self.now) }
        ensures touches { steps.new ≤ steps.old + size (span b.now) }
    {
        let apart = usize::from(self.resolution);
        let low = b.low();
        let high = b.high();
        let first = bit_index(low, self.resolution, self.layer);
        let count = high.x - low.x + 1;
        let Some(n) = next_apart(&self.words, first, apart, count, steps) else {
            return None;
        };
        Some(Coord {
            x: low.x + n,
            ..low
        })
    }

    /// Returns the least full coordinate of a region that is a line along y.
    pub(super) fn line_along_y<L: Ledger>(&self, b: &Region, steps: &mut Steps<L>) -> Option<Coord>
        requires within { IsInSpace self.now.resolution b.now.high }
        requires x { b.now.low.x ≡ b.now.high.x }
        requires z { b.now.low.z ≡ b.now.high.z }
        ensures value { result ≡ find (passes_in b.now (is_full self.now)) (all_of self.now) }
        ensures touches { steps.new ≤ steps.old + size (span b.now) }
    {
        let apart = self.layer;
        let low = b.low();
        let high = b.high();
        let first = bit_index(low, self.resolution, self.layer);
        let count = high.y - low.y + 1;
        let Some(n) = next_above(&self.words, first, apart, count, steps) else {
            return None;
        };
        Some(Coord {
            y: low.y + n,
            ..low
        })
    }
}

/// Returns the number of the first of `count` bits that is 1. The first is at the index `from`, and each `apart` after the one
/// before.
#[inline(always)]
fn next_apart<L: Ledger>(
    words: &[u64],
    from: usize,
    apart: usize,
    count: u16,
    steps: &mut Steps<L>,
) -> Option<u16>
    requires within { (n : ℕ) → n < count → (from + n * apart) / 64 < length words.now }
    requires small { from + count * apart < 2 ^ 63 }
    ensures found { IfSome result (λ n. IsFirstBit words.now from apart n) }
    ensures below { IfSome result (λ n. n < count) }
    ensures none { IfNone result (AreClear words.now from apart count) }
    ensures touches { steps.new ≤ steps.old + count }
{
    let mut at = from;
    for n in 0..count {
        steps.tick();
        if is_set(words, at) {
            return Some(n);
        }
        at += apart;
    }
    None
}

/// Returns whether the bit at an offset of a word is 1.
#[tactic(auto, unfolding(crate::specs::Layers::is_set))]
#[inline(always)]
fn is_set_in(words: &[u64], at: usize, place: usize) -> bool
    requires within { at < length words.now }
    requires place { place < 64 }
    ensures { result ≡ is_set_of words.now (at * 64 + place) }
{
    (words[at] >> place) % 2 == 1
}

/// Like [`next_apart`], for bits that are `apart` whole words apart, all at one offset of their words.
#[inline(always)]
fn next_above<L: Ledger>(
    words: &[u64],
    from: usize,
    apart: usize,
    count: u16,
    steps: &mut Steps<L>,
) -> Option<u16>
    requires within { (n : ℕ) → n < count → (from + n * (apart * 64)) / 64 < length words.now }
    requires small { from + count * (apart * 64) < 2 ^ 63 }
    ensures found { IfSome result (λ n. IsFirstBit words.now from (apart * 64) n) }
    ensures below { IfSome result (λ n. n < count) }
    ensures none { IfNone result (AreClear words.now from (apart * 64) count) }
    ensures touches { steps.new ≤ steps.old + count }
{
    let place = from % WORD_BITS;
    let mut word = from / WORD_BITS;
    for n in 0..count {
        steps.tick();
        if is_set_in(words, word, place) {
            return Some(n);
        }
        word += apart;
    }
    None
}
