//! Lists of numbers that grow, many of them in two vectors.
use std::alloc::Global;
use vox_geom::Memory;

/// The end of a list.
const END: u32 = u32::MAX;

/// A number in a list, and the index of the link behind it.
#[derive(Clone, Copy, Debug)]
struct Link {
    item: u32,
    next: u32,
}

/// As many lists as it was made for.
#[derive(Drop)]
pub(crate) struct Chains {
    heads: Vec<u32>,
    links: Vec<Link>,
}

impl Chains {
    /// Makes `count` empty lists.
    pub(crate) fn new(alloc: Global, count: usize) -> Result<Chains, Memory> {
        Ok(Chains {
            heads: vec![in alloc; END; count]?,
            links: Vec::new(alloc),
        })
    }

    /// Adds an empty list.
    pub(crate) fn add_list(&mut self) -> Result<(), Memory> {
        self.heads.push(END).map_err(|_| Memory)
    }

    /// Puts a number in front of a list.
    pub(crate) fn add(&mut self, list: usize, item: u32) -> Result<(), Memory> {
        let number = self.links.len().min(END as usize) as u32;
        let Some(head) = self.heads.get_mut(list) else {
            return Ok(());
        };
        let next = *head;
        *head = number;
        self.links.push(Link { item, next }).map_err(|_| Memory)
    }

    /// The most numbers that a list can have.
    pub(crate) fn most(&self) -> usize {
        self.links.len()
    }

    /// The first link of a list.
    pub(crate) fn first(&self, list: usize) -> Option<u32> {
        match self.heads.get(list) {
            Some(head) if *head != END => Some(*head),
            _ => None,
        }
    }

    /// The number of a link.
    pub(crate) fn item(&self, link: u32) -> Option<u32> {
        match self.links.get(link as usize) {
            Some(link) => Some(link.item),
            None => None,
        }
    }

    /// The link behind a link.
    pub(crate) fn after(&self, link: u32) -> Option<u32> {
        match self.links.get(link as usize) {
            Some(link) if link.next != END => Some(link.next),
            _ => None,
        }
    }

    /// Takes all numbers out of a list, and puts them into another one, which was empty.
    pub(crate) fn hand_over(&mut self, from: usize, to: usize) {
        let head = match self.heads.get(from) {
            Some(head) => *head,
            None => END,
        };
        if let Some(list) = self.heads.get_mut(to) {
            *list = head;
        }
        if let Some(list) = self.heads.get_mut(from) {
            *list = END;
        }
    }

    /// Takes a link out of a list: the first one, or the one behind a link.
    pub(crate) fn remove(&mut self, list: usize, before: Option<u32>, link: u32) {
        let next = match self.links.get(link as usize) {
            Some(link) => link.next,
            None => END,
        };
        match before {
            Some(before) => {
                if let Some(link) = self.links.get_mut(before as usize) {
                    link.next = next;
                }
            }
            None => {
                if let Some(head) = self.heads.get_mut(list) {
                    *head = next;
                }
            }
        }
    }
}
