//! Lists of coordinates with capacity reserved beforehand.
ghost use Rattle.std.specs.Prelude.{◌≡◌, ◌+◌, ◌≤◌, [], ◌∷◌, ◌++◌, length, IfOk};

use std::alloc::Global;
use std::marker::Model;
use vox_geom::{Coord, Memory};

/// A list of coordinates with capacity reserved beforehand, so that none of its methods allocates.
#[derive(Drop)]
pub struct ChangeList {
    items: Vec<Coord>,
    room: u32,
}

impl Model for ChangeList {
    ghost use Rattle.std.specs.Prelude.{◌-◌, ◌≤◌, vec_capacity, length};
    ghost use Rattle.vox_planes.specs.Changes.{Changes};

    ghost Value = { Changes };

    ghost view = { λ l. record { items = l.items.items; spare = l.room - length l.items.items } };

    ghost invariant = { λ l. (length l.items.items ≤ l.room) × (l.room ≤ vec_capacity l.items) };
}

impl ChangeList {
    /// Returns the empty list, with capacity for `n` coordinates.
    pub fn with_room(alloc: Global, n: u32) -> Result<ChangeList, Memory>
        ensures empty { IfOk result (λ l. l.items ≡ []) }
        ensures room { IfOk result (λ l. n ≤ l.spare) }
    {
        let items = Vec::with_capacity(alloc, n as usize)?;
        Ok(ChangeList { items, room: n })
    }

    /// Returns how many more coordinates the list has capacity for.
    pub fn spare(&self) -> u32
        ensures { result ≡ self.now.spare }
    {
        self.room - self.items.len() as u32
    }

    /// Appends a coordinate.
    pub fn push(&mut self, c: Coord)
        requires { 1 ≤ self.old.spare }
        ensures items { self.new.items ≡ self.old.items ++ c ∷ [] }
        ensures room { self.old.spare ≤ self.new.spare + 1 }
    {
        let _ = self.items.push(c);
    }

    /// Removes all coordinates, and keeps the capacity.
    pub fn clear(&mut self)
        ensures items { self.new.items ≡ [] }
        ensures room { self.old.spare + length self.old.items ≤ self.new.spare }
    {
        self.items.clear();
    }

    /// Returns the coordinates, in the order in which they were added.
    pub fn as_slice(&self) -> &[Coord]
        ensures { result.now ≡ self.now.items }
    {
        self.items.as_slice()
    }
}
