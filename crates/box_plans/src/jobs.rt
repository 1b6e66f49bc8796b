//! Teams at work: which bots fill which box, and from which posts.
use crate::blocks::{Block, MOST_TEAM};
use crate::positions::{HOME, Position};

/// The most boxes that a team takes at once.
pub(crate) const MOST_BOXES: usize = 5;

/// A box of a job, and the corner of it that each bot of the team fills from.
#[derive(Clone, Copy, Debug)]
pub(crate) struct Target {
    pub(crate) number: u32,
    pub(crate) corners: [Position; MOST_TEAM],
}

/// A team, the posts of its bots, and the boxes that it fills from there, one after the other.
#[derive(Clone, Copy, Debug)]
pub(crate) struct TeamJob {
    pub(crate) active: bool,
    pub(crate) born: u32,
    pub(crate) members: usize,
    pub(crate) bots: [u8; MOST_TEAM],
    pub(crate) posts: [Position; MOST_TEAM],
    targets: [Target; MOST_BOXES],
    count: usize,
    next: usize,
}

/// No box.
const NO_TARGET: Target = Target {
    number: u32::MAX,
    corners: [HOME; MOST_TEAM],
};

/// No job.
pub(crate) const NO_JOB: TeamJob = TeamJob {
    active: false,
    born: 0,
    members: 0,
    bots: [0; MOST_TEAM],
    posts: [HOME; MOST_TEAM],
    targets: [NO_TARGET; MOST_BOXES],
    count: 0,
    next: 0,
};

/// A position of a list, if there is one with that number.
pub(crate) fn position_of(spots: &[Position], i: usize) -> Position {
    match spots.get(i) {
        Some(spot) => *spot,
        None => HOME,
    }
}

/// Changes a position of a list.
pub(crate) fn put_position(spots: &mut [Position; MOST_TEAM], i: usize, c: Position) {
    if let Some(spot) = spots.get_mut(i) {
        *spot = c;
    }
}

impl TeamJob {
    /// A job for a box, with no bots yet.
    pub(crate) fn new(born: u32) -> TeamJob {
        TeamJob {
            active: true,
            born,
            ..NO_JOB
        }
    }

    /// A bot of the team.
    pub(crate) fn bot(&self, i: usize) -> u8 {
        match self.bots.get(i) {
            Some(bot) => *bot,
            None => u8::MAX,
        }
    }

    /// The post of a bot of the team.
    pub(crate) fn post(&self, i: usize) -> Position {
        position_of(&self.posts, i)
    }

    /// Returns whether a bot is in the team.
    pub(crate) fn has(&self, bot: u8) -> bool {
        for i in 0..self.members {
            if self.bot(i) == bot {
                return true;
            }
        }
        false
    }

    /// Returns whether a position is a post of the team.
    pub(crate) fn has_post(&self, c: Position) -> bool {
        for i in 0..self.members {
            if self.post(i) == c {
                return true;
            }
        }
        false
    }

    /// Returns whether some post of the team is in a box or below it.
    pub(crate) fn has_post_under(&self, block: Block) -> bool {
        for i in 0..self.members {
            if block.is_over(self.post(i)) {
                return true;
            }
        }
        false
    }

    /// Adds a bot with its position.
    pub(crate) fn join(&mut self, bot: u8, post: Position) {
        if let Some(place) = self.bots.get_mut(self.members) {
            *place = bot;
        }
        put_position(&mut self.posts, self.members, post);
        self.members = self.members.saturating_add(1).min(MOST_TEAM);
    }

    /// Exchanges two bots.
    pub(crate) fn exchange(&mut self, i: usize, k: usize) {
        let (one, other) = (self.bot(i), self.bot(k));
        if let Some(place) = self.bots.get_mut(i) {
            *place = other;
        }
        if let Some(place) = self.bots.get_mut(k) {
            *place = one;
        }
    }

    /// Adds a box that the team fills.
    pub(crate) fn add_target(&mut self, target: Target) {
        if let Some(place) = self.targets.get_mut(self.count) {
            *place = target;
            self.count = self.count.saturating_add(1);
        }
    }

    /// A box of the job by its number.
    pub(crate) fn target(&self, i: usize) -> Option<Target> {
        if i >= self.count {
            return None;
        }
        match self.targets.get(i) {
            Some(target) => Some(*target),
            None => None,
        }
    }

    /// How many boxes the job has.
    pub(crate) fn count(&self) -> usize {
        self.count
    }

    /// The number of the box that comes next.
    pub(crate) fn next(&self) -> usize {
        self.next
    }

    /// The box that comes next was filled. Returns whether it was the last one.
    pub(crate) fn advance(&mut self) -> bool {
        self.next = self.next.saturating_add(1);
        self.next >= self.count
    }
}
