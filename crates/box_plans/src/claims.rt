//! Several boxes from one stop: a team takes boxes that it can fill from its posts, and chooses posts that reach many.
use crate::agenda::{Agenda, BoxState};
use crate::blocks::{Block, MOST_TEAM};
use crate::jobs::{Target, TeamJob, put_position};
use crate::positions::{HOME, NEAR, Position, by, is_near};
use crate::schedule::Schedule;
use crate::site::BuildSite;
use std::alloc::Global;
use vox_geom::Memory;

/// No box.
const NONE: u32 = u32::MAX;

/// The most boxes that have a corner near a position.
const MOST_NEAR: usize = 18;

/// The boxes by their corners. Empty if the manner has no use for it.
#[derive(Drop)]
pub(crate) struct Owners {
    boxes: Vec<u32>,
}

/// Some boxes, each once.
#[derive(Clone, Copy, Debug)]
pub(crate) struct Reach {
    boxes: [u32; MOST_NEAR],
    pub(crate) count: usize,
}

/// No box.
pub(crate) const NO_REACH: Reach = Reach {
    boxes: [NONE; MOST_NEAR],
    count: 0,
};

impl Reach {
    /// A box.
    fn get(&self, i: usize) -> u32 {
        match self.boxes.get(i) {
            Some(number) if i < self.count => *number,
            _ => NONE,
        }
    }

    /// Returns whether it has a box.
    fn has(&self, number: u32) -> bool {
        number != NONE && self.boxes.contains(&number)
    }

    /// Adds a box.
    fn add(&mut self, number: u32) {
        if self.has(number) {
            return;
        }
        if let Some(place) = self.boxes.get_mut(self.count) {
            *place = number;
            self.count = self.count.saturating_add(1);
        }
    }

    /// The boxes that both have.
    pub(crate) fn shared(&self, other: &Reach) -> Reach {
        let mut shared = NO_REACH;
        for i in 0..self.count {
            let number = self.get(i);
            if other.has(number) {
                shared.add(number);
            }
        }
        shared
    }
}

impl Owners {
    /// The corners of all boxes, if the manner has a use for them.
    pub(crate) fn of(
        alloc: Global,
        site: &BuildSite,
        agenda: &Agenda,
        asked: bool,
    ) -> Result<Owners, Memory> {
        if !asked {
            return Ok(Owners {
                boxes: Vec::new(alloc),
            });
        }
        let mut owners = Owners {
            boxes: vec![in alloc; NONE; site.volume()]?,
        };
        for number in 0..agenda.count() {
            owners.add(site, agenda.get(number).block, number);
        }
        Ok(owners)
    }

    /// Keeps the corners of a box.
    fn add(&mut self, site: &BuildSite, block: Block, number: u32) {
        let corners = block.corners();
        for i in 0..corners.count {
            if let Some(index) = site.index(corners.get(i)) {
                if let Some(place) = self.boxes.get_mut(index) {
                    *place = number;
                }
            }
        }
    }

    /// The box that had a corner at a position when all boxes were whole.
    fn at(&self, site: &BuildSite, c: Position) -> u32 {
        match site.index(c) {
            Some(index) => match self.boxes.get(index) {
                Some(number) => *number,
                None => NONE,
            },
            None => NONE,
        }
    }
}

impl Schedule {
    /// The boxes other than one that are ready, have as many dimensions, and have a corner near a position.
    pub(crate) fn reach(&self, at: Position, dimensions: usize, but: u32) -> Reach {
        let mut reach = NO_REACH;
        for (dx, dy, dz) in NEAR {
            let number = self.owners.at(&self.air.site, at.plus(by(dx, dy, dz)));
            if number == NONE || number == but {
                continue;
            }
            let item = self.agenda.get(number);
            if item.state == BoxState::Ready && item.block.dimensions() == dimensions {
                reach.add(number);
            }
        }
        reach
    }

    /// The lowest box of some that was not taken out of them.
    fn take_lowest(&self, reach: &mut Reach) -> Option<u32> {
        let mut best: Option<(i16, usize, u32)> = None;
        for i in 0..reach.count {
            let number = reach.get(i);
            let low = self.agenda.get(number).block.low.y;
            let is_lower = match best {
                Some((other, _, _)) => low < other,
                None => true,
            };
            if number != NONE && is_lower {
                best = Some((low, i, number));
            }
        }
        let (_, i, number) = best?;
        if let Some(place) = reach.boxes.get_mut(i) {
            *place = NONE;
        }
        Some(number)
    }

    /// The corner of a box that each bot of a team fills from its post. None if some corner is out of reach.
    fn corners_for(&self, job: &TeamJob, block: Block) -> Option<[Position; MOST_TEAM]> {
        let corners = block.corners();
        if corners.count != job.members {
            return None;
        }
        let mut used = [false; MOST_TEAM];
        let mut ends = [HOME; MOST_TEAM];
        for i in 0..job.members {
            let corner = free_corner(block, &mut used, job.post(i))?;
            put_position(&mut ends, i, corner);
        }
        Some(ends)
    }

    /// A team takes more boxes that it can fill from its posts.
    pub(crate) fn extend(&self, job: TeamJob, first: u32) -> TeamJob {
        let block = self.agenda.get(first).block;
        let dimensions = block.dimensions();
        let mut job = job;
        if self.manner.extra == 0 || dimensions > 2 || job.members == 0 {
            return job;
        }
        let mut reach = self.reach(job.post(0), dimensions, first);
        for _ in 0..MOST_NEAR {
            let Some(number) = self.take_lowest(&mut reach) else {
                break;
            };
            if job.count() > self.manner.extra {
                break;
            }
            self.try_extend(&mut job, number);
        }
        job
    }

    /// A team takes one more box if it can fill it from its posts, and nobody is in the way.
    fn try_extend(&self, job: &mut TeamJob, number: u32) {
        let block = self.agenda.get(number).block;
        if !self.air.site.is_attached(block) || job.has_post_under(block) {
            return;
        }
        if self.is_used_by_others(block, &job.bots) {
            return;
        }
        if let Some(corners) = self.corners_for(job, block) {
            job.add_target(Target { number, corners });
        }
    }
}

/// A corner of a box that a bot can fill from a position, and no other one uses.
fn free_corner(block: Block, used: &mut [bool; MOST_TEAM], post: Position) -> Option<Position> {
    let corners = block.corners();
    for i in 0..corners.count {
        let corner = corners.get(i);
        if let Some(taken) = used.get_mut(i) {
            if !*taken && is_near(post.to(corner)) {
                *taken = true;
                return Some(corner);
            }
        }
    }
    None
}
