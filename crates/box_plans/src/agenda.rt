//! The boxes of a plan: which of them are ready to be filled, and which boxes each of the others waits for.
//!
//! A box waits for all boxes below it in its columns, and for the boxes whose bots have posts in these columns. Ready boxes are
//! found by the columns of their corners.
use crate::blocks::{Block, CutBox};
use crate::chains::Chains;
use crate::positions::HOME;
use crate::site::BuildSite;
use std::alloc::Global;
use vox_geom::Memory;

/// The width of a bucket of boxes along x and along z, in columns.
const WIDTH: i16 = 8;

/// The state of a box.
#[derive(Clone, Copy, PartialEq, Eq, Debug)]
pub(crate) enum BoxState {
    /// The box waits for other boxes.
    Waits,
    /// The box waits for no other: a team may take it.
    Ready,
    /// A team has taken the box.
    Taken,
    /// The box is full.
    Done,
}

/// A box: the number of boxes that it waits for, the last search that found it, the last step in which it was seen hanging in the
/// air, and the range of its anchors if these are known.
#[derive(Clone, Copy, Debug)]
pub(crate) struct Item {
    pub(crate) block: Block,
    pub(crate) state: BoxState,
    pub(crate) waits: u32,
    pub(crate) search: u32,
    pub(crate) hung: u32,
    pub(crate) anchors: Option<(usize, usize)>,
}

/// The result of [`Agenda::get`] for a number that no box has.
const NONE: Item = Item {
    block: Block {
        low: HOME,
        high: HOME,
    },
    state: BoxState::Done,
    waits: 0,
    search: 0,
    hung: 0,
    anchors: None,
};

/// All boxes, their `users` (the boxes that wait for each), and buckets of boxes by columns, `across` of them along an axis. Then
/// the numbers of boxes that are ready, taken and not yet full, and of searches.
#[derive(Drop)]
pub(crate) struct Agenda {
    items: Vec<Item>,
    users: Chains,
    buckets: Chains,
    across: i16,
    ready: usize,
    taken: usize,
    left: usize,
    searches: u32,
}

/// For each column, the last box added to it so far, and the boxes whose bots have posts in it.
#[derive(Drop)]
struct ColumnOrder {
    last: Vec<u32>,
    guarded: Chains,
}

impl Agenda {
    /// Returns an agenda without boxes, for a matrix of `side` voxels along each axis.
    fn empty(alloc: Global, side: i16) -> Result<Agenda, Memory> {
        let across = (side.max(0) / WIDTH).saturating_add(1);
        let n = across.max(0) as usize;
        Ok(Agenda {
            items: Vec::new(alloc),
            users: Chains::new(alloc, 0)?,
            buckets: Chains::new(alloc, n.wrapping_mul(n))?,
            across,
            ready: 0,
            taken: 0,
            left: 0,
            searches: 0,
        })
    }

    /// Returns the agenda of these boxes, which are in an order in which each comes after all boxes below it.
    pub(crate) fn of(alloc: Global, site: &BuildSite, pieces: &[CutBox]) -> Result<Agenda, Memory> {
        let mut agenda = Agenda::empty(alloc, site.side())?;
        let mut columns = ColumnOrder {
            last: vec![in alloc; u32::MAX; site.area()]?,
            guarded: Chains::new(alloc, site.area())?,
        };
        for piece in pieces {
            agenda.add_piece(site, &mut columns, *piece)?;
        }
        agenda.searches = agenda.items.len().min(u32::MAX as usize) as u32;
        for number in 0..agenda.searches {
            if agenda.get(number).waits == 0 {
                agenda.make_ready(number)?;
            }
        }
        Ok(agenda)
    }

    /// Adds a box, makes it wait for earlier boxes in its columns, and records the columns of its bots' posts.
    fn add_piece(
        &mut self,
        site: &BuildSite,
        columns: &mut ColumnOrder,
        piece: CutBox,
    ) -> Result<(), Memory> {
        let block = piece.block;
        let number = self.add(block)?;
        for x in block.low.x..=block.high.x {
            for z in block.low.z..=block.high.z {
                if let Some(column) = site.column(x, z) {
                    self.wait_in(columns, column, number)?;
                }
            }
        }
        for guard in piece.guards {
            if let Some(column) = guard {
                columns.guarded.add(column as usize, number)?;
            }
        }
        Ok(())
    }

    /// Adds a box that waits for no other, and returns its number.
    fn add(&mut self, block: Block) -> Result<u32, Memory> {
        let number = self.items.len().min(u32::MAX as usize) as u32;
        let item = Item {
            block,
            state: BoxState::Waits,
            ..NONE
        };
        self.items.push(item).map_err(|_| Memory)?;
        self.users.add_list()?;
        self.left = self.left.saturating_add(1);
        Ok(number)
    }

    /// Makes a box wait for the last box of a column and for those with posts there. The box becomes the column's last one.
    fn wait_in(
        &mut self,
        columns: &mut ColumnOrder,
        column: usize,
        number: u32,
    ) -> Result<(), Memory> {
        let mut before = u32::MAX;
        if let Some(last) = columns.last.get_mut(column) {
            before = *last;
            *last = number;
        }
        self.wait_for(before, number)?;
        let mut at = columns.guarded.first(column);
        for _ in 0..columns.guarded.most() {
            let Some(link) = at else {
                break;
            };
            if let Some(guard) = columns.guarded.item(link) {
                self.wait_for(guard, number)?;
            }
            at = columns.guarded.after(link);
        }
        Ok(())
    }

    /// Makes box `number` wait for box `other`, unless it does already.
    fn wait_for(&mut self, other: u32, number: u32) -> Result<(), Memory> {
        let mark = number.saturating_add(1);
        let Some(item) = self.items.get_mut(other as usize) else {
            return Ok(());
        };
        if item.search == mark || other == number {
            return Ok(());
        }
        item.search = mark;
        self.users.add(other as usize, number)?;
        if let Some(item) = self.items.get_mut(number as usize) {
            item.waits = item.waits.saturating_add(1);
        }
        Ok(())
    }

    /// Returns the box with this number.
    pub(crate) fn get(&self, number: u32) -> Item {
        match self.items.get(number as usize) {
            Some(item) => *item,
            None => NONE,
        }
    }

    /// Replaces the box with this number.
    fn put(&mut self, number: u32, item: Item) {
        if let Some(place) = self.items.get_mut(number as usize) {
            *place = item;
        }
    }

    /// Returns the number of boxes.
    pub(crate) fn count(&self) -> u32 {
        self.items.len().min(u32::MAX as usize) as u32
    }

    /// Returns the number of boxes that are not full.
    pub(crate) fn left(&self) -> usize {
        self.left
    }

    /// Returns the number of boxes that are ready: teams may take them.
    pub(crate) fn ready(&self) -> usize {
        self.ready
    }

    /// Returns the number of boxes that teams have taken.
    pub(crate) fn taken(&self) -> usize {
        self.taken
    }

    /// Makes a waiting box ready, and puts it into its buckets.
    fn make_ready(&mut self, number: u32) -> Result<(), Memory> {
        let item = self.get(number);
        if item.state != BoxState::Waits {
            return Ok(());
        }
        self.put(
            number,
            Item {
                state: BoxState::Ready,
                ..item
            },
        );
        self.ready = self.ready.saturating_add(1);
        self.list(number)
    }

    /// Puts a box into the buckets of its corners.
    fn list(&mut self, number: u32) -> Result<(), Memory> {
        let Block { low, high } = self.get(number).block;
        let (x, z) = (low.x / WIDTH, low.z / WIDTH);
        let (last_x, last_z) = (high.x / WIDTH, high.z / WIDTH);
        self.list_at(x, z, number)?;
        if last_x != x {
            self.list_at(last_x, z, number)?;
        }
        if last_z != z {
            self.list_at(x, last_z, number)?;
        }
        if last_x != x && last_z != z {
            self.list_at(last_x, last_z, number)?;
        }
        Ok(())
    }

    /// Puts a box into a bucket.
    fn list_at(&mut self, x: i16, z: i16, number: u32) -> Result<(), Memory> {
        match self.bucket(x, z) {
            Some(bucket) => self.buckets.add(bucket, number),
            None => Ok(()),
        }
    }

    /// Returns the number of a bucket, or `None` if there is no such bucket.
    fn bucket(&self, x: i16, z: i16) -> Option<usize> {
        let n = self.across;
        if x < 0 || z < 0 || x >= n || z >= n {
            return None;
        }
        Some((x as u32).wrapping_mul(n as u32).wrapping_add(z as u32) as usize)
    }

    /// Returns the number of buckets along an axis.
    pub(crate) fn across(&self) -> i16 {
        self.across
    }

    /// Returns the index of the bucket of a component, along its axis.
    pub(crate) fn bucket_of(at: i16) -> i16 {
        at / WIDTH
    }

    /// Begins a search, which finds no box twice.
    pub(crate) fn begin_search(&mut self) {
        self.searches = self.searches.saturating_add(1);
    }

    /// Appends the ready boxes of a bucket to `found`, without those that this search has found before. Drops full boxes from the
    /// bucket.
    pub(crate) fn collect(&mut self, x: i16, z: i16, found: &mut Vec<u32>) -> Result<(), Memory> {
        let Some(bucket) = self.bucket(x, z) else {
            return Ok(());
        };
        let mut at = self.buckets.first(bucket);
        let mut before = None;
        for _ in 0..self.buckets.most() {
            let Some(link) = at else {
                break;
            };
            at = self.buckets.after(link);
            let number = match self.buckets.item(link) {
                Some(number) => number,
                None => break,
            };
            let item = self.get(number);
            if item.state == BoxState::Done {
                self.buckets.remove(bucket, before, link);
                continue;
            }
            before = Some(link);
            if item.state == BoxState::Ready && item.search != self.searches {
                self.put(
                    number,
                    Item {
                        search: self.searches,
                        ..item
                    },
                );
                found.push(number).map_err(|_| Memory)?;
            }
        }
        Ok(())
    }

    /// Records the step in which a box was seen hanging in the air.
    pub(crate) fn hang(&mut self, number: u32, step: u32) {
        let item = self.get(number);
        self.put(number, Item { hung: step, ..item });
    }

    /// Records the range of the anchors of a box.
    pub(crate) fn set_anchors(&mut self, number: u32, from: usize, to: usize) {
        let item = self.get(number);
        self.put(
            number,
            Item {
                anchors: Some((from, to)),
                ..item
            },
        );
    }

    /// Marks a ready box as taken by a team.
    pub(crate) fn take(&mut self, number: u32) {
        let item = self.get(number);
        if item.state == BoxState::Ready {
            self.ready = self.ready.saturating_sub(1);
            self.taken = self.taken.saturating_add(1);
            self.put(
                number,
                Item {
                    state: BoxState::Taken,
                    ..item
                },
            );
        }
    }

    /// Makes a taken box ready again, because its team gives it up.
    pub(crate) fn release(&mut self, number: u32) {
        let item = self.get(number);
        if item.state == BoxState::Taken {
            self.ready = self.ready.saturating_add(1);
            self.taken = self.taken.saturating_sub(1);
            self.put(
                number,
                Item {
                    state: BoxState::Ready,
                    ..item
                },
            );
        }
    }

    /// Marks a box as full. The boxes that waited for it alone become ready.
    pub(crate) fn finish(&mut self, number: u32) -> Result<(), Memory> {
        let item = self.get(number);
        if item.state == BoxState::Done {
            return Ok(());
        }
        match item.state {
            BoxState::Ready => self.ready = self.ready.saturating_sub(1),
            BoxState::Taken => self.taken = self.taken.saturating_sub(1),
            _ => {}
        }
        self.put(
            number,
            Item {
                state: BoxState::Done,
                ..item
            },
        );
        self.left = self.left.saturating_sub(1);
        let mut at = self.users.first(number as usize);
        for _ in 0..self.users.most() {
            let Some(link) = at else {
                break;
            };
            if let Some(user) = self.users.item(link) {
                self.wait_less(user)?;
            }
            at = self.users.after(link);
        }
        Ok(())
    }

    /// Lowers the number of boxes that a box waits for by one, and makes the box ready if that is 0.
    fn wait_less(&mut self, number: u32) -> Result<(), Memory> {
        let item = self.get(number);
        let waits = item.waits.saturating_sub(1);
        self.put(number, Item { waits, ..item });
        if waits == 0 {
            self.make_ready(number)?;
        }
        Ok(())
    }

    /// Cuts a ready box above its lowest layer. The upper part becomes a box that waits for the layer.
    pub(crate) fn split(&mut self, number: u32) -> Result<(), Memory> {
        let (lower, upper) = self.get(number).block.split_layer();
        let rest = self.add(upper)?;
        self.users.hand_over(number as usize, rest as usize);
        self.users.add(number as usize, rest)?;
        let item = self.get(rest);
        self.put(rest, Item { waits: 1, ..item });
        self.replace(number, lower)
    }

    /// Returns whether a box is ready and has more than one voxel.
    pub(crate) fn can_halve(&self, number: u32) -> bool {
        let item = self.get(number);
        item.state == BoxState::Ready && item.block.low != item.block.high
    }

    /// Cuts a ready box in two: its lowest layer and the rest. A box of one layer is cut along its longer side instead, and a half
    /// without voxels of the model is then done.
    pub(crate) fn halve(&mut self, number: u32, site: &BuildSite) -> Result<(), Memory> {
        let block = self.get(number).block;
        if block.low.y != block.high.y {
            return self.split(number);
        }
        let (first, second) = block.halves();
        let rest = self.add(second)?;
        self.copy_users(number, rest)?;
        self.replace(number, first)?;
        self.make_ready(rest)?;
        if !site.has_goal_in(first) {
            self.finish(number)?;
        }
        if !site.has_goal_in(second) {
            self.finish(rest)?;
        }
        Ok(())
    }

    /// Makes all boxes that wait for box `number` wait for box `other` too.
    fn copy_users(&mut self, number: u32, other: u32) -> Result<(), Memory> {
        let mut at = self.users.first(number as usize);
        for _ in 0..self.users.most() {
            let Some(link) = at else {
                break;
            };
            at = self.users.after(link);
            let Some(user) = self.users.item(link) else {
                break;
            };
            self.users.add(other as usize, user)?;
            let item = self.get(user);
            self.put(
                user,
                Item {
                    waits: item.waits.saturating_add(1),
                    ..item
                },
            );
        }
        Ok(())
    }

    /// Replaces a box by a part of it, whose anchors are not known yet.
    fn replace(&mut self, number: u32, block: Block) -> Result<(), Memory> {
        let item = self.get(number);
        self.put(
            number,
            Item {
                block,
                anchors: None,
                ..item
            },
        );
        self.list(number)
    }

    /// Returns the least height at which a box begins that is ready or taken.
    pub(crate) fn lowest(&self) -> i16 {
        let mut lowest = i16::MAX;
        for item in self.items.as_slice() {
            if item.state == BoxState::Ready || item.state == BoxState::Taken {
                lowest = lowest.min(item.block.low.y);
            }
        }
        lowest
    }

    /// Returns how many bots the boxes that no team has would need, if each box had a team of its own.
    pub(crate) fn bots_needed(&self) -> usize {
        let mut sum = 0usize;
        for item in self.items.as_slice() {
            if item.state == BoxState::Ready || item.state == BoxState::Waits {
                let bots = item.block.corners().count;
                sum = sum.saturating_add(bots);
            }
        }
        sum
    }
}
