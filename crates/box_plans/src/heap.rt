//! A priority queue of boxes: the most valuable comes first.
use crate::blocks::Block;
use crate::positions::Position;
use std::alloc::Global;
use vox_geom::Memory;

/// More levels than any heap has.
const MOST_LEVELS: u32 = 64;

/// A box with its value, and the voxel for which it is the best one.
#[derive(Clone, Copy, Debug)]
pub(crate) struct Entry {
    pub(crate) value: u64,
    pub(crate) seed: Position,
    pub(crate) block: Block,
}

/// The index of the entry above one.
fn parent_of(at: usize) -> usize {
    at.saturating_sub(1) / 2
}

/// A binary heap.
#[derive(Drop)]
pub(crate) struct Heap {
    entries: Vec<Entry>,
}

impl Heap {
    /// No box.
    pub(crate) fn new(alloc: Global) -> Heap {
        Heap {
            entries: Vec::new(alloc),
        }
    }

    /// An entry.
    fn get(&self, i: usize) -> Option<Entry> {
        match self.entries.get(i) {
            Some(entry) => Some(*entry),
            None => None,
        }
    }

    /// Changes an entry.
    fn put(&mut self, i: usize, entry: Entry) {
        if let Some(place) = self.entries.get_mut(i) {
            *place = entry;
        }
    }

    /// Adds a box.
    pub(crate) fn push(&mut self, entry: Entry) -> Result<(), Memory> {
        let mut at = self.entries.len();
        self.entries.push(entry).map_err(|_| Memory)?;
        for _ in 0..MOST_LEVELS {
            if at == 0 {
                break;
            }
            let parent = parent_of(at);
            let Some(above) = self.get(parent) else {
                break;
            };
            if above.value >= entry.value {
                break;
            }
            self.put(at, above);
            self.put(parent, entry);
            at = parent;
        }
        Ok(())
    }

    /// The greater of the entries below one.
    fn child(&self, at: usize) -> Option<(usize, Entry)> {
        let left = at.wrapping_mul(2).wrapping_add(1);
        let right = left.wrapping_add(1);
        let one = self.get(left)?;
        let Some(other) = self.get(right) else {
            return Some((left, one));
        };
        if other.value > one.value {
            Some((right, other))
        } else {
            Some((left, one))
        }
    }

    /// Takes the most valuable box.
    pub(crate) fn pop(&mut self) -> Option<Entry> {
        let top = self.get(0);
        let last = self.entries.pop()?;
        self.put(0, last);
        let mut at = 0usize;
        for _ in 0..MOST_LEVELS {
            let Some((below, entry)) = self.child(at) else {
                break;
            };
            if entry.value <= last.value {
                break;
            }
            self.put(at, entry);
            self.put(below, last);
            at = below;
        }
        top
    }

    /// Drops all boxes.
    pub(crate) fn clear(&mut self) {
        self.entries.clear();
    }
}
