//! A chunk of raw memory: the only code with a raw pointer.
ghost use Rattle.std.specs.Prelude.{◌≡◌, ℕ, ◌+◌, ◌*◌, ◌<◌, ◌≤◌, List, Option, Some, None, length, slice_index, slice_index_or, slice_set, IfOk, IfSome};
ghost use denote.RawPtr.{Ptr};
ghost use Rattle.brick_arena.specs.declared.chunk.TheConstants.{CHUNK_WORDS};
ghost use Rattle.brick_arena.specs.Ownership.{chunk_type, no_words, words_own, words_lent, IsFilled};
ghost use Rattle.brick_arena.specs.Chunks.{IsBlank, SetsRange};

use std::alloc::{Allocator, Global};
use std::marker::{Model, PhantomData};
use std::sync::ledger::Ledger;
use vox_geom::{Memory, Steps};

/// The number of slots in a chunk.
pub(crate) const CHUNK_SLOTS: usize = 64;

/// The number of words in a chunk.
pub(crate) const CHUNK_WORDS: usize = 32_768;

/// The number of bytes in a chunk.
const CHUNK_BYTES: usize = 131_072;

/// The number of words that are written at once.
pub(crate) const ROW_WORDS: usize = 8;

/// The words of a chunk, from the address `at` on. An offset without a word was never written.
pub(crate) struct Words {
    at: *mut u32,
    pub(crate) ghost words: { List (Option ℕ) },
    pub(crate) ghost count: { length words ≡ CHUNK_WORDS },
}

impl Model for Words {
    ghost also_owns = { λ c. words_own c.at c.words };

    ghost also_shares = { λ c _ κ. words_lent c.at c.words κ };
}

/// The right to free the chunk at `at` with `alloc`. It takes no bytes.
pub(crate) struct Title<A: Allocator> {
    marker: PhantomData<A>,
    pub(crate) ghost alloc: { A },
    pub(crate) ghost at: { Ptr },
}

impl<A: Allocator> Model for Title<A> {
    ghost also_owns = { λ d. A.dealloc_token d.alloc chunk_type d.at };
}

/// Allocates a chunk. No word of it is written yet.
pub(crate) fn allocate<A: Allocator>(alloc: &A) -> Option<(Words, Title<A>)>
    ensures { IfSome result (λ r. (r.0.words ≡ no_words) × (r.1.alloc ≡ alloc.now) × (r.1.at ≡ r.0.at)) }
{
    match alloc.allocate(CHUNK_BYTES, 4) {
        Ok(block) => {
            let at = block as *mut u32;
            let marker = PhantomData;
            Some((Words { at }, Title { marker }))
        }
        Err(_) => None,
    }
}

/// Frees a chunk's memory.
pub(crate) fn free<A: Allocator>(words: Words, title: Title<A>, alloc: &A)
    requires { (title.alloc ≡ alloc.now) × (title.at ≡ words.at) }
{
    let Words { at } = words;
    let Title { marker: _ } = title;
    unsafe { alloc.deallocate(at as *mut u8, CHUNK_BYTES, 4) }
}

impl Words {
    /// Writes the word at an offset, whether or not it was written before.
    pub(crate) fn set(&mut self, index: usize, word: u32)
        requires { index < CHUNK_WORDS }
        ensures { (self.new.words ≡ slice_set self.old.words index (Some word)) × (self.new.at ≡ self.old.at) }
    {
        unsafe { self.at.add(index).write(word) }
    }

    /// Returns the word at an offset that was written.
    pub(crate) fn get(&self, index: usize) -> u32
        requires { IsFilled self.now.words index }
        ensures { slice_index_or self.now.words index None ≡ Some result }
    {
        unsafe { *self.at.add(index) }
    }

    /// Returns the word `behind` offsets after `index`, which was written.
    pub(crate) fn get_behind(&self, index: usize, behind: usize) -> u32
        requires { IsFilled self.now.words (index + behind) }
        ensures { slice_index_or self.now.words (index + behind) None ≡ Some result }
    {
        unsafe { *self.at.add(index).add(behind) }
    }

    /// Writes one word at the offsets of a row, from `index` on, whether or not they were written before.
    pub(crate) fn set_row(&mut self, index: usize, word: u32)
        requires { index + ROW_WORDS ≤ CHUNK_WORDS }
        ensures { SetsRange (Some word) None self.old.words self.new.words index (index + ROW_WORDS)
            × (self.new.at ≡ self.old.at) }
    {
        unsafe { (self.at.add(index) as *mut [u32; ROW_WORDS]).write([word; ROW_WORDS]) }
    }

    /// Writes 0 at the offsets of `rows` rows from `start` on.
    pub(crate) fn set_zeros(&mut self, start: usize, rows: usize)
        requires { start + ROW_WORDS * rows ≤ CHUNK_WORDS }
        ensures zeros { SetsRange (Some 0) None self.old.words self.new.words start (start + ROW_WORDS * rows) }
        ensures place { self.new.at ≡ self.old.at }
    {
        for row in 0..rows {
            self.set_row(start + row * ROW_WORDS, 0);
        }
    }
}

/// A chunk, which frees its memory when it is dropped.
pub struct Chunk {
    words: Words,
    title: Title<Global>,
    alloc: Global,
}

impl Model for Chunk {
    ghost use Rattle.std.specs.Prelude.{◌≡◌, ℕ, List};
    ghost use Rattle.brick_arena.specs.Known.{known, AllFilled};

    ghost Value = { List ℕ };

    ghost view = { λ c. known c.words.words };

    ghost invariant = { λ c. AllFilled c.words.words × (c.title.alloc ≡ c.alloc) × (c.title.at ≡ c.words.at) };
}

impl Chunk {
    /// Returns a chunk of zeros.
    pub(crate) fn new(alloc: Global) -> Result<Chunk, Memory>
        ensures { IfOk result IsBlank }
    {
        let Some((mut words, title)) = allocate(&alloc) else {
            return Err(Memory);
        };
        words.set_zeros(0, CHUNK_WORDS / ROW_WORDS);
        Ok(Chunk {
            words,
            title,
            alloc,
        })
    }

    /// Returns the word at an offset, without a touch: the caller counts it.
    pub(crate) fn peek(&self, index: usize) -> u32
        requires { index < length self.now }
        ensures { result ≡ slice_index self.now index }
    {
        self.words.get(index)
    }

    /// Returns the word at an offset, by one touch.
    #[inline(always)]
    pub fn word<L: Ledger>(&self, index: usize, steps: &mut Steps<L>) -> u32
        requires { index < length self.now }
        ensures value { result ≡ slice_index self.now index }
        ensures touch { steps.new ≡ steps.old + 1 }
    {
        steps.tick();
        self.peek(index)
    }

    /// Returns the word `behind` offsets after `index`, by one touch.
    ///
    /// Two arguments let the compiler see that a loop reads consecutive words, which it may not see for a loop over sums.
    #[inline(always)]
    pub fn word_behind<L: Ledger>(&self, index: usize, behind: usize, steps: &mut Steps<L>) -> u32
        requires { index + behind < length self.now }
        ensures value { result ≡ slice_index self.now (index + behind) }
        ensures touch { steps.new ≡ steps.old + 1 }
    {
        steps.tick();
        self.words.get_behind(index, behind)
    }

    pub(crate) fn set_word(&mut self, index: usize, word: u32)
        requires { index < length self.old }
        ensures { self.new ≡ slice_set self.old index word }
    {
        self.words.set(index, word)
    }

    /// Writes one word at the offsets of a row, from `index` on.
    #[inline(always)]
    pub(crate) fn set_row(&mut self, index: usize, word: u32)
        requires { index + ROW_WORDS ≤ length self.old }
        ensures { SetsRange word 0 self.old self.new index (index + ROW_WORDS) }
    {
        self.words.set_row(index, word)
    }

    /// Writes 0 into `rows` rows of words from `start` on.
    pub(crate) fn set_zeros(&mut self, start: usize, rows: usize)
        requires { start + ROW_WORDS * rows ≤ length self.old }
        ensures { SetsRange 0 0 self.old self.new start (start + ROW_WORDS * rows) }
    {
        self.words.set_zeros(start, rows)
    }
}

impl Drop for Chunk {
    fn drop(self) {
        let Chunk {
            words,
            title,
            alloc,
        } = self;
        free(words, title, &alloc)
    }
}
