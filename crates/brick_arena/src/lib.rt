//! Slots of 512 words in raw memory. Contracts see a finite map from a slot's number to its words.
#![tactic(auto)]

mod chunk;
mod chunks;

ghost use Rattle.std.specs.Prelude.{◌≡◌, ◌+◌, ◌%◌, ◌<◌, ◌≤◌, ℕ, None, replicate, slice_index, slice_set, OnErr, IfOk};
ghost use Rattle.std.specs.FinMap as map;
ghost use Rattle.brick_arena.specs.Slots.{IsLive, words_of, with_row, AreSlots, HasSlot, swapped as swapped_of};

use chunk::CHUNK_SLOTS;
pub use chunk::Chunk;
pub use chunks::start_in_chunk;
use chunks::{clear, load, place, reserve, store, store_row};
use std::alloc::Global;
use std::marker::Model;
use std::sync::ledger::Ledger;
use vox_geom::{Memory, Steps};

/// The number of words in a slot.
pub const SLOT_WORDS: u16 = 512;

/// The most slots that can be live at a time. The number of a slot is below it.
pub const MOST_SLOTS: u32 = 1_048_576;

/// Returns the index of the word at an offset of its slot, and the offset of the word with an index.
///
/// The word with the index 64 a + 8 b + c is at the offset 64 b + 8 a + c, so that words whose indices share their middle digit
/// are contiguous.
#[tactic(auto, unfolding(crate::specs::Slots::swapped))]
#[inline(always)]
pub fn swapped(index: u16) -> u16
    ensures { result ≡ swapped_of index }
{
    64 * (index / 8 % 8) + 8 * (index / 64) + index % 8
}

/// Slots of 512 words, each all 0 when it is taken.
///
/// The memory is allocated in chunks of 64 slots, when they are first used. A vacant slot's first word links to the next vacant
/// one. All memory is freed at the end.
#[derive(Drop)]
pub struct Bricks {
    alloc: Global,
    chunks: Vec<Chunk>,
    // Slots with numbers below this were taken at least once; the words of the others are 0.
    reached: u32,
    // The number of those that are vacant, and the first of their chain.
    vacant: u32,
    first_vacant: u32,
}

impl Model for Bricks {
    ghost use Rattle.std.specs.Prelude.{ℕ, List};
    ghost use Rattle.std.specs.Ordering.{nat_cmp};
    ghost use Rattle.std.specs.FinMap as map;
    ghost use Rattle.std.specs.Coded.{coded_ℕ, coded_list};
    ghost use Rattle.brick_arena.specs.Arena.{view_of, IsArena};

    ghost Value = { map.FinMap nat_cmp (List ℕ) };

    ghost coded = { map.code coded_ℕ (coded_list coded_ℕ) };

    ghost view = { λ b. view_of b.chunks.items b.first_vacant b.vacant b.reached };

    ghost invariant = { λ b. IsArena b.chunks.items b.first_vacant b.vacant b.reached };
}

impl Bricks {
    /// Returns an arena without slots. It does not allocate.
    pub fn new(alloc: Global) -> Bricks
        ensures { result ≡ map.empty }
    {
        Bricks {
            alloc,
            chunks: Vec::new(alloc),
            reached: 0,
            vacant: 0,
            first_vacant: 0,
        }
    }

    /// Returns the number of live slots.
    pub fn live(&self) -> u32
        ensures count { result ≡ map.len self.now }
        ensures slots { AreSlots self.now }
    {
        self.reached - self.vacant
    }

    /// Takes a slot that was not live, with all words 0. `Memory` leaves the slots as they were.
    pub fn take(&mut self) -> Result<u32, Memory>
        requires { map.len self.old < MOST_SLOTS }
        ensures near { IfOk result (λ slot. slot < MOST_SLOTS) }
        ensures fresh { IfOk result (λ slot. map.get self.old slot ≡ None) }
        ensures live { IfOk result (IsLive self.new) }
        ensures zeros { IfOk result (λ slot. self.new ≡ map.insert self.old slot (replicate SLOT_WORDS 0)) }
        ensures err { OnErr result (self.new ≡ self.old) }
        ensures slots { AreSlots self.new }
    {
        if self.vacant == 0 {
            let slot = self.reached;
            reserve(&mut self.chunks, self.alloc, slot)?;
            self.reached += 1;
            return Ok(slot);
        }
        let slot = self.first_vacant;
        self.first_vacant = load(&self.chunks, place(slot, 0));
        clear(&mut self.chunks, slot);
        self.vacant -= 1;
        Ok(slot)
    }

    /// Frees the slot: it is no longer live.
    pub fn give(&mut self, slot: u32)
        requires { IsLive self.old slot }
        ensures value { self.new ≡ map.remove self.old slot }
        ensures slots { AreSlots self.new }
    {
        store(&mut self.chunks, place(slot, 0), self.first_vacant);
        self.first_vacant = slot;
        self.vacant += 1;
    }

    /// Returns the word at an offset of a live slot, by one touch.
    #[inline(always)]
    pub fn word_at<L: Ledger>(&self, slot: u32, at: u16, steps: &mut Steps<L>) -> u32
        requires live { IsLive self.now slot }
        requires place { at < SLOT_WORDS }
        ensures value { result ≡ slice_index (words_of self.now slot) (swapped_of at) }
        ensures touch { steps.new ≡ steps.old + 1 }
        ensures slots { AreSlots self.now }
    {
        steps.tick();
        load(&self.chunks, place(slot, at))
    }

    /// Returns the word at `index` of a live slot, by one touch.
    pub fn word<L: Ledger>(&self, slot: u32, index: u16, steps: &mut Steps<L>) -> u32
        requires live { IsLive self.now slot }
        requires index { index < SLOT_WORDS }
        ensures value { result ≡ slice_index (words_of self.now slot) index }
        ensures touch { steps.new ≡ steps.old + 1 }
        ensures slots { AreSlots self.now }
    {
        self.word_at(slot, swapped(index), steps)
    }

    /// Returns the chunk that contains the words of a live slot by their offsets, from [`start_in_chunk`] on. A caller that reads
    /// several of them looks it up once.
    #[inline(always)]
    pub fn chunk(&self, slot: u32) -> &Chunk
        requires { IsLive self.now slot }
        ensures { HasSlot self.now slot result.now }
    {
        &self.chunks[slot as usize / CHUNK_SLOTS]
    }

    /// Writes the word at an offset of a live slot, by one touch.
    #[inline(always)]
    pub fn set_word_at<L: Ledger>(&mut self, slot: u32, at: u16, word: u32, steps: &mut Steps<L>)
        requires live { IsLive self.old slot }
        requires place { at < SLOT_WORDS }
        ensures value { self.new ≡ map.insert self.old slot (slice_set (words_of self.old slot) (swapped_of at) word) }
        ensures written { slice_index (words_of self.new slot) (swapped_of at) ≡ word }
        ensures touch { steps.new ≡ steps.old + 1 }
        ensures slots { AreSlots self.new }
    {
        steps.tick();
        store(&mut self.chunks, place(slot, at), word);
    }

    /// Writes the word at `index` of a live slot, by one touch.
    pub fn set_word<L: Ledger>(&mut self, slot: u32, index: u16, word: u32, steps: &mut Steps<L>)
        requires live { IsLive self.old slot }
        requires index { index < SLOT_WORDS }
        ensures value { self.new ≡ map.insert self.old slot (slice_set (words_of self.old slot) index word) }
        ensures written { slice_index (words_of self.new slot) index ≡ word }
        ensures touch { steps.new ≡ steps.old + 1 }
        ensures slots { AreSlots self.new }
    {
        self.set_word_at(slot, swapped(index), word, steps);
    }

    /// Writes one word at eight offsets of a live slot from one on, which is a multiple of eight.
    ///
    /// Has the effect of eight calls of [`Bricks::set_word_at`], by one touch each.
    #[inline(always)]
    pub fn set_row<L: Ledger>(&mut self, slot: u32, at: u16, word: u32, steps: &mut Steps<L>)
        requires live { IsLive self.old slot }
        requires place { at < SLOT_WORDS }
        requires row { at % 8 ≡ 0 }
        ensures value { self.new ≡ with_row self.old slot (swapped_of at) 8 word }
        ensures written { (k : ℕ) → k < 8
            → slice_index (words_of (with_row self.old slot (swapped_of at) (k + 1) word) slot) (swapped_of at + k)
            ≡ word }
        ensures touches { steps.new ≡ steps.old + 8 }
        ensures slots { AreSlots self.new }
    {
        for _ in 0..8u16 {
            steps.tick();
        }
        store_row(&mut self.chunks, place(slot, at), word);
    }
}
