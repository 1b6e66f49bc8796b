//! Searches and lists over a region, row by row.
ghost use Rattle.std.specs.Prelude.{◌≡◌, ◌+◌, ◌-◌, ◌*◌, ◌/◌, ◌^◌, ◌≤◌, ◌<◌, IfSome, IfNone, ◌++◌, ◌&&◌, not, filter, find, length};
ghost use Rattle.std.specs.Option.{option_or};
ghost use Rattle.vox_geom.specs.Point.{point};
ghost use Rattle.vox_geom.specs.Region.{is_within, size, span};
ghost use Rattle.vox_geom.specs.Space.{IsInSpace, place};
ghost use Rattle.nano_spec.specs.Matrix.{all_of, is_full};
ghost use Rattle.vox_planes.specs.Bits.{AreBitsFrom, LacksValue, IsMarked, IsNextBit, has_bit};
ghost use Rattle.vox_planes.specs.Voxel.{is_state};
ghost use Rattle.vox_planes.specs.Walk.{coordinates_from, passes_in, row, row_start, row_size, wall_size};

use super::{Planes, WORD_BITS, bit_index};
use crate::change_list::ChangeList;
use std::sync::ledger::Ledger;
use vox_geom::{Coord, Region, Steps};

impl Planes {
    /// Returns the first coordinate of a row that is full, or void if `full` is false, from one on to the last component z.
    pub fn row_next<L: Ledger>(
        &self,
        first: Coord,
        last: u16,
        full: bool,
        steps: &mut Steps<L>,
    ) -> Option<Coord>
        requires within { IsInSpace self.now.resolution first }
        requires order { first.z ≤ last }
        requires end { last < self.now.resolution }
        ensures value { result ≡ find (is_state self.now full) (row first last) }
        ensures touches { steps.new ≤ steps.old + (last + 1 - first.z) }
        ensures touches_found { IfSome result (λ c. steps.new + first.z ≤ steps.old + (c.z + 1)) }
    {
        let start = bit_index(first, self.resolution, self.layer);
        let end = start + usize::from(last - first.z) + 1;
        let Some(i) = next_bit(&self.words, start, end, full, steps) else {
            return None;
        };
        let z = first.z + (i - start) as u16;
        Some(Coord { z, ..first })
    }

    /// Returns the first full coordinate of the region among those with this x.
    fn wall_full<L: Ledger>(&self, b: &Region, x: u16, steps: &mut Steps<L>) -> Option<Coord>
        requires within { IsInSpace self.now.resolution b.now.high }
        requires low { b.now.low.x ≤ x }
        requires high { x ≤ b.now.high.x }
        ensures value { option_or result
            (find (passes_in b.now (is_full self.now))
            (coordinates_from self.now.resolution
            (place self.now.resolution (row_start b.now (x + 1) b.now.low.y))))
            ≡ find (passes_in b.now (is_full self.now))
            (coordinates_from self.now.resolution (place self.now.resolution (row_start b.now x b.now.low.y))) }
        ensures touches { steps.new ≤ steps.old + wall_size b.now }
    {
        let low = b.low();
        let high = b.high();
        for y in low.y..=high.y {
            let found = self.row_next(Coord { x, y, z: low.z }, high.z, true, steps);
            if found.is_some() {
                return found;
            }
        }
        None
    }

    /// Returns the least full coordinate of the region, wall by wall.
    fn walls_full<L: Ledger>(&self, b: &Region, steps: &mut Steps<L>) -> Option<Coord>
        requires { IsInSpace self.now.resolution b.now.high }
        ensures value { result ≡ find (λ c. is_full self.now c && is_within (span b.now) (point c)) (all_of self.now) }
        ensures touches { steps.new ≤ steps.old + size (span b.now) }
    {
        let low = b.low();
        let high = b.high();
        for x in low.x..=high.x {
            let found = self.wall_full(b, x, steps);
            if found.is_some() {
                return found;
            }
        }
        None
    }

    /// Returns the least full coordinate of the region, or `None` if it is void.
    ///
    /// Makes at most as many touches as the region has coordinates.
    #[inline(always)]
    pub fn region_full<L: Ledger>(&self, b: &Region, steps: &mut Steps<L>) -> Option<Coord>
        requires { IsInSpace self.now.resolution b.now.high }
        ensures value { result ≡ find (λ c. is_full self.now c && is_within (span b.now) (point c)) (all_of self.now) }
        ensures touches { steps.new ≤ steps.old + size (span b.now) }
    {
        let low = b.low();
        if self.is_void_from(low.y, steps) {
            return None;
        }
        let high = b.high();
        if low.z == high.z {
            if low.y == high.y {
                return self.line_along_x(b, steps);
            }
            if low.x == high.x {
                return self.line_along_y(b, steps);
            }
        } else if low.x == high.x {
            if low.y == high.y {
                return self.row_next(low, high.z, true, steps);
            }
        }
        self.walls_full(b, steps)
    }

    /// Appends the coordinates of a row that are full, or those that are void if `full` is false.
    fn list_row<L: Ledger>(
        &self,
        first: Coord,
        last: u16,
        full: bool,
        list: &mut ChangeList,
        steps: &mut Steps<L>,
    )
        requires within { IsInSpace self.now.resolution first }
        requires order { first.z ≤ last }
        requires end { last < self.now.resolution }
        requires room { last + 1 - first.z ≤ list.old.spare }
        ensures items { list.new.items ≡ list.old.items ++ filter (is_state self.now full) (row first last) }
        ensures room { list.old.spare + length list.old.items ≤ list.new.spare + length list.new.items }
        ensures left { list.old.spare ≤ list.new.spare + (last + 1 - first.z) }
        ensures touches { steps.new ≤ steps.old + (last + 1 - first.z) }
    {
        let start = bit_index(first, self.resolution, self.layer) - usize::from(first.z);
        let mut z = first.z;
        while z <= last {
            steps.tick();
            let at = start + usize::from(z);
            let bits = bits_from(&self.words, at, full);
            let stop = last.min(z + (WORD_BITS - 1 - at % WORD_BITS) as u16);
            list_bits(bits, Coord { z, ..first }, stop, list);
            z = stop + 1;
        }
    }

    /// Appends the full, or the void, coordinates of the region among those with this x.
    fn list_wall<L: Ledger>(
        &self,
        b: &Region,
        x: u16,
        full: bool,
        list: &mut ChangeList,
        steps: &mut Steps<L>,
    )
        requires within { IsInSpace self.now.resolution b.now.high }
        requires low { b.now.low.x ≤ x }
        requires high { x ≤ b.now.high.x }
        requires room { wall_size b.now ≤ list.old.spare }
        ensures items { list.new.items
            ++ filter (passes_in b.now (is_state self.now full))
            (coordinates_from self.now.resolution
            (place self.now.resolution (row_start b.now (x + 1) b.now.low.y)))
            ≡ list.old.items
            ++ filter (passes_in b.now (is_state self.now full))
            (coordinates_from self.now.resolution (place self.now.resolution (row_start b.now x b.now.low.y))) }
        ensures room { list.old.spare + length list.old.items ≤ list.new.spare + length list.new.items }
        ensures left { list.old.spare ≤ list.new.spare + wall_size b.now }
        ensures touches { steps.new ≤ steps.old + wall_size b.now }
    {
        let low = b.low();
        let high = b.high();
        for y in low.y..=high.y {
            self.list_row(Coord { x, y, z: low.z }, high.z, full, list, steps);
        }
    }

    /// Appends the full, or the void, coordinates of the region.
    fn list_region<L: Ledger>(
        &self,
        b: &Region,
        full: bool,
        list: &mut ChangeList,
        steps: &mut Steps<L>,
    )
        requires within { IsInSpace self.now.resolution b.now.high }
        requires room { size (span b.now) ≤ list.old.spare }
        ensures items { list.new.items
            ≡ list.old.items ++ filter (passes_in b.now (is_state self.now full)) (all_of self.now) }
        ensures room { list.old.spare + length list.old.items ≤ list.new.spare + length list.new.items }
        ensures touches { steps.new ≤ steps.old + size (span b.now) }
    {
        let low = b.low();
        let high = b.high();
        for x in low.x..=high.x {
            self.list_wall(b, x, full, list, steps);
        }
    }

    /// Appends the void coordinates of the region, in rising order. Makes at most as many touches as the region has coordinates.
    pub fn list_void<L: Ledger>(&self, b: &Region, list: &mut ChangeList, steps: &mut Steps<L>)
        requires within { IsInSpace self.now.resolution b.now.high }
        requires room { size (span b.now) ≤ list.old.spare }
        ensures items { list.new.items
            ≡ list.old.items
            ++ filter (λ c. not (is_full self.now c) && is_within (span b.now) (point c)) (all_of self.now) }
        ensures room { list.old.spare + length list.old.items ≤ list.new.spare + length list.new.items }
        ensures touches { steps.new ≤ steps.old + size (span b.now) }
    {
        self.list_region(b, false, list, steps);
    }

    /// Appends the full coordinates of the region, in rising order. Makes at most as many touches as the region has coordinates.
    pub fn list_full<L: Ledger>(&self, b: &Region, list: &mut ChangeList, steps: &mut Steps<L>)
        requires within { IsInSpace self.now.resolution b.now.high }
        requires room { size (span b.now) ≤ list.old.spare }
        ensures items { list.new.items
            ≡ list.old.items ++ filter (λ c. is_full self.now c && is_within (span b.now) (point c)) (all_of self.now) }
        ensures room { list.old.spare + length list.old.items ≤ list.new.spare + length list.new.items }
        ensures touches { steps.new ≤ steps.old + size (span b.now) }
    {
        self.list_region(b, true, list, steps);
    }
}

/// Appends the coordinates of a row whose bit is 1. The lowest bit is that of the first coordinate.
#[inline(always)]
fn list_bits(bits: u64, first: Coord, last: u16, list: &mut ChangeList)
    requires order { first.z ≤ last }
    requires end { last < 65535 }
    requires room { last + 1 - first.z ≤ list.old.spare }
    ensures items { list.new.items ≡ list.old.items ++ filter (has_bit bits first) (row first last) }
    ensures room { list.old.spare + length list.old.items ≤ list.new.spare + length list.new.items }
    ensures left { list.old.spare ≤ list.new.spare + (last + 1 - first.z) }
{
    let end = last + 1;
    let mut left = bits;
    let mut z = first.z;
    while left != 0 {
        let gap = left.trailing_zeros() as u16;
        if gap >= end - z {
            break;
        }
        z += gap;
        list.push(Coord { z, ..first });
        z += 1;
        left = left >> gap >> 1;
    }
}

/// Returns a word whose bits are 1 if those of the given one have the value.
fn mark(word: u64, value: bool) -> u64
    ensures { IsMarked word result value }
{
    if value { word } else { !word }
}

/// Returns the bits of a word from an index on, 1 if they have the value. The lowest is that of the index.
#[inline(always)]
fn bits_from(words: &[u64], at: usize, value: bool) -> u64
    requires { at / 64 < length words.now }
    ensures { AreBitsFrom words.now at result value }
{
    mark(words[at / WORD_BITS], value) >> (at % WORD_BITS)
}

/// Returns the index of the first bit of a value, from one index on and before an end.
fn next_bit<L: Ledger>(
    words: &[u64],
    from: usize,
    end: usize,
    value: bool,
    steps: &mut Steps<L>,
) -> Option<usize>
    requires order { from ≤ end }
    requires within { end ≤ 64 * length words.now }
    requires small { end < 2 ^ 32 }
    ensures found { IfSome result (λ i. IsNextBit words.now from i value) }
    ensures before_end { IfSome result (λ i. i < end) }
    ensures none { IfNone result (LacksValue words.now from end value) }
    ensures touches { steps.new ≤ steps.old + (end - from) }
    ensures touches_found { IfSome result (λ i. steps.new + from ≤ steps.old + (i + 1)) }
{
    let mut at = from;
    while at < end {
        steps.tick();
        let bits = mark(words[at / WORD_BITS], value) >> (at % WORD_BITS);
        if bits != 0 {
            let found = at + bits.trailing_zeros() as usize;
            return if found < end { Some(found) } else { None };
        }
        at += WORD_BITS - at % WORD_BITS;
    }
    None
}
