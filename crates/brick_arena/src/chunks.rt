//! Words over a list of chunks, by offset: the words of slot 0, those of slot 1, and so on.
ghost use Rattle.std.specs.Prelude.{◌≡◌, ◌+◌, ◌*◌, ◌%◌, ◌<◌, ◌≤◌, length, OnOk, OnErr};
ghost use Rattle.brick_arena.specs.Chunks.{chunk_word, AreChunks, IsStored, IsRowStored, IsCleared, HasRoom};
ghost use Rattle.brick_arena.specs.Slots.{start_in_chunk as start_in_chunk_of};

use super::SLOT_WORDS;
use super::chunk::{CHUNK_SLOTS, CHUNK_WORDS, Chunk, ROW_WORDS};
use std::alloc::Global;
use vox_geom::Memory;

/// Returns the offset of a slot's word over all chunks.
pub(crate) fn place(slot: u32, index: u16) -> usize
    ensures { result ≡ slot * SLOT_WORDS + index }
{
    slot as usize * usize::from(SLOT_WORDS) + usize::from(index)
}

pub(crate) fn load(chunks: &Vec<Chunk>, place: usize) -> u32
    requires inside { place < CHUNK_WORDS * length chunks.now.items }
    requires chunks { AreChunks chunks.now.items }
    ensures { result ≡ chunk_word chunks.now.items place }
{
    chunks[place / CHUNK_WORDS].peek(place % CHUNK_WORDS)
}

pub(crate) fn store(chunks: &mut Vec<Chunk>, place: usize, word: u32)
    requires inside { place < CHUNK_WORDS * length chunks.old.items }
    requires chunks { AreChunks chunks.old.items }
    ensures { IsStored chunks.old.items chunks.new.items place word }
{
    let chunk = &mut chunks[place / CHUNK_WORDS];
    chunk.set_word(place % CHUNK_WORDS, word);
}

/// Writes one word at the offsets of a row, all in one chunk.
#[inline(always)]
pub(crate) fn store_row(chunks: &mut Vec<Chunk>, place: usize, word: u32)
    requires inside { place < CHUNK_WORDS * length chunks.old.items }
    requires row { place % CHUNK_WORDS + ROW_WORDS ≤ CHUNK_WORDS }
    requires chunks { AreChunks chunks.old.items }
    ensures { IsRowStored chunks.old.items chunks.new.items place word }
{
    let chunk = &mut chunks[place / CHUNK_WORDS];
    chunk.set_row(place % CHUNK_WORDS, word);
}

/// Returns the offset of a slot's first word in its chunk.
#[inline(always)]
pub fn start_in_chunk(slot: u32) -> usize
    ensures { result ≡ start_in_chunk_of slot }
{
    slot as usize % CHUNK_SLOTS * usize::from(SLOT_WORDS)
}

/// Writes 0 into all words of a slot.
pub(crate) fn clear(chunks: &mut Vec<Chunk>, slot: u32)
    requires inside { slot < CHUNK_SLOTS * length chunks.old.items }
    requires chunks { AreChunks chunks.old.items }
    ensures { IsCleared chunks.old.items chunks.new.items slot }
{
    let chunk = &mut chunks[slot as usize / CHUNK_SLOTS];
    let start = start_in_chunk(slot);
    chunk.set_zeros(start, usize::from(SLOT_WORDS) / ROW_WORDS);
}

/// Appends a chunk if there is none for the slot yet.
pub(crate) fn reserve(chunks: &mut Vec<Chunk>, alloc: Global, slot: u32) -> Result<(), Memory>
    requires near { slot ≤ CHUNK_SLOTS * length chunks.old.items }
    requires chunks { AreChunks chunks.old.items }
    ensures ok { OnOk result (HasRoom chunks.old.items chunks.new.items slot) }
    ensures err { OnErr result (chunks.new.items ≡ chunks.old.items) }
{
    if slot as usize / CHUNK_SLOTS < chunks.len() {
        return Ok(());
    }
    let chunk = Chunk::new(alloc)?;
    let Ok(()) = chunks.push(chunk) else {
        return Err(Memory);
    };
    Ok(())
}
