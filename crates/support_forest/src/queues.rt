//! First-in, first-out queues of candidates.
ghost use Rattle.std.specs.Prelude.{◌≡◌, ◌<◌, [], length};

use crate::offer::IndexOffer;
use std::alloc::{AllocError, Global};
use std::marker::Model;
use std::mem;

/// A list that is read from the front. What was read stays in memory until the list is filled again.
#[derive(Drop)]
pub struct Line {
    items: Vec<IndexOffer>,
    at: usize,
}

impl Model for Line {
    ghost use Rattle.std.specs.Prelude.{List, ◌≤◌, drop, length};
    ghost use Rattle.support_forest.specs.declared.offer.IndexOffer.{IndexOffer};

    ghost Value = { List IndexOffer };

    ghost view = { λ l. drop l.at l.items.items };

    ghost invariant = { λ l. l.at ≤ length l.items.items };
}

impl Line {
    ghost use Rattle.std.specs.Prelude.{◌≡◌, ◌==◌, ◌<◌, ◌∷◌, [], MatchOption, length, slice_index_or};

    /// Returns a queue of the candidates of a list.
    pub fn new(items: Vec<IndexOffer>) -> Line
        ensures { result ≡ items.items }
    {
        Line { items, at: 0 }
    }

    /// Returns the list, to be used again.
    pub fn into_list(self) -> Vec<IndexOffer> {
        self.items
    }

    /// Returns whether it is empty.
    #[inline(always)]
    pub fn is_empty(&self) -> bool
        ensures { result ≡ (length self.now == 0) }
    {
        self.at == self.items.len()
    }

    /// Returns the first candidate.
    #[inline(always)]
    pub fn first(&self) -> &IndexOffer
        requires { 0 < length self.now }
        ensures { result.now ≡ slice_index_or self.now 0 result.now }
    {
        &self.items[self.at]
    }

    /// Removes and returns the first candidate.
    #[inline(always)]
    pub fn pop_front(&mut self) -> Option<IndexOffer>
        ensures { MatchOption result ((length self.old ≡ 0) × (length self.new ≡ 0)) (λ c. self.old ≡ c ∷ self.new) }
    {
        if self.at == self.items.len() {
            return None;
        }
        let c = self.items[self.at];
        self.at += 1;
        Some(c)
    }

    /// Fills it with the candidates of another list, and returns its own list, emptied.
    pub fn refill(&mut self, items: Vec<IndexOffer>) -> Vec<IndexOffer>
        ensures filled { self.new ≡ items.items }
        ensures emptied { result.items ≡ [] }
    {
        let mut taken = mem::replace(&mut self.items, items);
        self.at = 0;
        taken.clear();
        taken
    }

    /// Empties it.
    pub fn clear(&mut self)
        ensures { self.new ≡ [] }
    {
        self.items.clear();
        self.at = 0;
    }
}

/// A first-in, first-out queue: the candidates of `front`, then those of `back`.
///
/// The two lists are swapped when `front` is empty. A ring buffer was slower: it computes each index modulo the capacity.
#[derive(Drop)]
pub struct Queue {
    alloc: Global,
    front: Line,
    back: Vec<IndexOffer>,
}

impl Model for Queue {
    ghost use Rattle.std.specs.Prelude.{List, ◌++◌};
    ghost use Rattle.support_forest.specs.declared.offer.IndexOffer.{IndexOffer};

    ghost Value = { List IndexOffer };

    ghost view = { λ q. q.front ++ q.back.items };
}

/// Moves the candidates of `back` to `front`, which is empty.
#[inline(never)]
fn turn(alloc: Global, front: &mut Line, back: &mut Vec<IndexOffer>)
    ensures front { front.new ≡ back.old.items }
    ensures back { back.new.items ≡ [] }
{
    let came = mem::replace(back, Vec::new(alloc));
    *back = front.refill(came);
}

impl Queue {
    ghost use Rattle.std.specs.Prelude.{◌≡◌, ◌==◌, ◌<◌, ◌∷◌, ◌++◌, [], IfOk, OnErr, MatchOption, length, slice_index_or};

    /// Returns an empty queue. It does not allocate.
    pub fn new(alloc: Global) -> Queue
        ensures { result ≡ [] }
    {
        Queue {
            alloc,
            front: Line::new(Vec::new(alloc)),
            back: Vec::new(alloc),
        }
    }

    /// Returns whether it is empty.
    #[inline(always)]
    pub fn is_empty(&self) -> bool
        ensures { result ≡ (length self.now == 0) }
    {
        self.front.is_empty() && self.back.is_empty()
    }

    /// Returns the first candidate.
    #[inline(always)]
    pub fn first(&self) -> &IndexOffer
        requires { 0 < length self.now }
        ensures { result.now ≡ slice_index_or self.now 0 result.now }
    {
        if self.front.is_empty() {
            return &self.back[0];
        }
        self.front.first()
    }

    /// Appends a candidate.
    #[inline(always)]
    pub fn push_back(&mut self, c: IndexOffer) -> Result<(), AllocError>
        ensures items { IfOk result (λ _. self.new ≡ self.old ++ c ∷ []) }
        ensures err { OnErr result (self.new ≡ self.old) }
    {
        self.back.push(c)?;
        Ok(())
    }

    /// Removes and returns the first candidate.
    #[inline(always)]
    pub fn pop_front(&mut self) -> Option<IndexOffer>
        ensures { MatchOption result ((length self.old ≡ 0) × (length self.new ≡ 0)) (λ c. self.old ≡ c ∷ self.new) }
    {
        if self.front.is_empty() {
            turn(self.alloc, &mut self.front, &mut self.back);
        }
        self.front.pop_front()
    }

    /// Empties it.
    pub fn clear(&mut self)
        ensures { self.new ≡ [] }
    {
        self.front.clear();
        self.back.clear();
    }
}
