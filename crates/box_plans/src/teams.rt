//! The choice of the next box for a free bot, and of the bots that fill it with him: those that can be there soonest.
use crate::agenda::{Agenda, BoxState};
use crate::airspace::CrewBot;
use crate::blocks::{Block, MOST_TEAM};
use crate::claims::Reach;
use crate::jobs::{Target, TeamJob, put_position};
use crate::positions::{HOME, NEAR, Position, by, is_near, length, moves_between};
use crate::record::MOST_BOTS;
use crate::schedule::Schedule;
use std::alloc::Global;
use vox_geom::Memory;

/// How many of the nearest boxes are compared at once.
const CHUNK: usize = 12;

/// How many boxes are compared at most.
const MOST_FOUND: usize = 48;

/// The value of a box below which a bot waits for a better one, for one step.
const LEAST: i64 = 400_000;

/// What it is worth that one more box is in reach of a position, in hundredths of a step.
const LOOK: i32 = 15;

/// The steps after which a ready box that hung in the air is looked at again.
const PAUSE: u32 = 3;

/// A box, and how near it is.
#[derive(Clone, Copy, Debug)]
pub(crate) struct NearBox {
    key: i64,
    number: u32,
}

/// A box with its value, and the bots that can be there soonest, corner by corner. A bot by itself has its position, too.
#[derive(Clone, Copy, Debug)]
pub(crate) struct BoxOffer {
    value: i64,
    number: u32,
    bots: [u8; MOST_TEAM],
    post: Option<Position>,
}

/// Lists that searches use again and again.
#[derive(Drop)]
pub(crate) struct SearchLists {
    pub(crate) found: Vec<u32>,
    pub(crate) candidates: Vec<NearBox>,
    pub(crate) offers: Vec<BoxOffer>,
}

impl SearchLists {
    /// Empty lists.
    pub(crate) fn new(alloc: Global) -> SearchLists {
        SearchLists {
            found: Vec::new(alloc),
            candidates: Vec::new(alloc),
            offers: Vec::new(alloc),
        }
    }

    /// A candidate by its number.
    fn candidate(&self, i: usize) -> Option<NearBox> {
        match self.candidates.get(i) {
            Some(candidate) => Some(*candidate),
            None => None,
        }
    }

    /// Changes a candidate.
    fn put(&mut self, i: usize, candidate: NearBox) {
        if let Some(place) = self.candidates.get_mut(i) {
            *place = candidate;
        }
    }

    /// Adds a candidate behind those that are no farther; only the nearest are kept.
    fn add(&mut self, candidate: NearBox) -> Result<(), Memory> {
        self.candidates.push(candidate).map_err(|_| Memory)?;
        let count = self.candidates.len();
        for k in 1..count {
            let at = count.wrapping_sub(k);
            let before = at.wrapping_sub(1);
            let (Some(one), Some(other)) = (self.candidate(before), self.candidate(at)) else {
                break;
            };
            if one.key <= other.key {
                break;
            }
            self.put(before, other);
            self.put(at, one);
        }
        self.candidates.truncate(MOST_FOUND);
        Ok(())
    }

    /// Takes the offer with the greatest value.
    fn take_best(&mut self) -> Option<BoxOffer> {
        let mut best: Option<(usize, BoxOffer)> = None;
        for i in 0..self.offers.len() {
            if let Some(offer) = self.offers.get(i) {
                let is_better = match best {
                    Some((_, other)) => offer.value > other.value,
                    None => true,
                };
                if is_better {
                    best = Some((i, *offer));
                }
            }
        }
        let (at, offer) = best?;
        if let Some(place) = self.offers.get_mut(at) {
            place.value = -1;
        }
        if offer.value < 0 { None } else { Some(offer) }
    }
}

/// The distance of a bot from a corner: none if it can fill it from its position.
fn distance(from: Position, corner: Position) -> i64 {
    if from == corner || is_near(from.to(corner)) {
        return 0;
    }
    i64::from(moves_between(from, corner))
}

impl Schedule {
    /// Returns whether a box may be taken now, as far as its height and what holds it are concerned.
    fn may_take(&mut self, number: u32) -> Result<bool, Memory> {
        let item = self.agenda.get(number);
        let low = item.block.low.y;
        if low > self.lowest.saturating_add(self.manner.window) {
            return Ok(false);
        }
        let step = self.air.step;
        if item.hung > 0 && step.saturating_sub(item.hung) < PAUSE {
            return Ok(false);
        }
        let holds = if self.has_any() {
            let anchors = &mut self.anchors;
            anchors.hold(&mut self.air.site, &mut self.agenda, number)?
        } else {
            self.air.site.is_attached(item.block)
        };
        if !holds {
            self.agenda.hang(number, step);
        }
        Ok(holds)
    }

    /// How near a box is to a position; of two that are equally near the lower one comes first.
    fn key_of(&self, at: Position, number: u32) -> i64 {
        let block = self.agenda.get(number).block;
        let corner = block.nearest_corner(at);
        let far = i64::from(length(at.to(corner)));
        let above = corner.at_height(corner.y.saturating_add(1));
        let moves = if is_near(at.to(corner)) {
            0
        } else {
            i64::from(moves_between(at, above)).saturating_add(1)
        };
        let near = moves.saturating_mul(1000).saturating_add(far);
        near.saturating_mul(512)
            .saturating_add(i64::from(block.low.y))
    }

    /// Adds those of the boxes that were found which may be taken.
    fn add_candidates(&mut self, lists: &mut SearchLists, at: Position) -> Result<(), Memory> {
        for i in 0..lists.found.len() {
            let number = match lists.found.get(i) {
                Some(number) => *number,
                None => break,
            };
            self.air.work = self.air.work.saturating_add(20);
            if self.may_take(number)? {
                let key = self.key_of(at, number);
                lists.add(NearBox { key, number })?;
            }
        }
        Ok(())
    }

    /// Finds the boxes in the buckets of a ring around a position.
    fn collect_ring(
        &mut self,
        found: &mut Vec<u32>,
        at: Position,
        ring: i16,
    ) -> Result<(), Memory> {
        found.clear();
        let (x, z) = (Agenda::bucket_of(at.x), Agenda::bucket_of(at.z));
        let (low, high) = (x.saturating_sub(ring), x.saturating_add(ring));
        let (near, far) = (z.saturating_sub(ring), z.saturating_add(ring));
        for k in near..=far {
            self.agenda.collect(low, k, found)?;
            if ring > 0 {
                self.agenda.collect(high, k, found)?;
            }
        }
        for k in low.saturating_add(1)..high {
            self.agenda.collect(k, near, found)?;
            self.agenda.collect(k, far, found)?;
        }
        Ok(())
    }

    /// The nearest boxes that may be taken.
    fn find_candidates(&mut self, lists: &mut SearchLists, at: Position) -> Result<(), Memory> {
        lists.candidates.clear();
        self.agenda.begin_search();
        let mut more = 0u8;
        for ring in 0..self.agenda.across() {
            self.collect_ring(&mut lists.found, at, ring)?;
            self.add_candidates(lists, at)?;
            if lists.candidates.len() >= MOST_FOUND {
                more = more.saturating_add(1);
            }
            if more >= 2 {
                break;
            }
        }
        Ok(())
    }

    /// Returns whether a position is the post of another bot.
    fn is_taken(&self, at: Position, number: u8) -> bool {
        for other in 0..MOST_BOTS {
            let bot = self.air.bot(other);
            if other != number && bot.active && bot.job.is_some() && bot.post == at {
                return true;
            }
        }
        false
    }

    /// Returns whether some bot is below a position, so near that it may rise to it.
    fn is_over_bot(&self, at: Position) -> bool {
        for other in 0..MOST_BOTS {
            let bot = self.air.bot(other);
            let is_below = bot.at.is_above_or_below(at) && bot.at.y < at.y;
            if bot.active && is_below && bot.at.y.saturating_add(16) > at.y {
                return true;
            }
        }
        false
    }

    /// Returns whether a position may be a post for a box.
    pub(crate) fn is_post_open(&self, at: Position, block: Block) -> bool {
        self.air.site.is_sky(at)
            && !block.is_over(at)
            && at.y >= self.claimed(at.x, at.z)
            && !self.is_over_bot(at)
    }

    /// The corner that is nearest to a bot.
    fn corner_for(&self, at: Position, block: Block) -> usize {
        let corners = block.corners();
        let mut best = (i32::MAX, 0usize);
        for i in 0..corners.count {
            let corner = corners.get(i);
            let far = moves_between(at, corner)
                .wrapping_mul(100)
                .wrapping_add(length(at.to(corner)));
            if far < best.0 {
                best = (far, i);
            }
        }
        best.1
    }

    /// The free bot that is nearest to a corner, but for those that are used, and how far it is.
    fn bot_for(&self, corner: Position, used: u64) -> Option<(u8, i64)> {
        let mut best: Option<(i64, u8, i64)> = None;
        for number in 0..MOST_BOTS {
            let bot = self.air.bot(number);
            if !bot.is_free() || has_bit(used, number) {
                continue;
            }
            let far = distance(bot.at, corner);
            let key = far
                .wrapping_mul(768)
                .wrapping_add(i64::from(length(bot.at.to(corner))));
            let is_better = match best {
                Some((other, _, _)) => key < other,
                None => true,
            };
            if is_better {
                best = Some((key, number, far));
            }
        }
        let (_, number, far) = best?;
        Some((number, far))
    }

    /// The bots that can be at the corners of a box soonest, one of which is given, and how many steps that takes.
    fn team_for(&self, number: u8, block: Block) -> Option<([u8; MOST_TEAM], i64)> {
        let at = self.air.bot(number).at;
        let corners = block.corners();
        let own = self.corner_for(at, block);
        let mut bots = [u8::MAX; MOST_TEAM];
        let mut used = bit(number);
        let mut time = distance(at, corners.get(own));
        for i in 0..corners.count {
            let mut bot = number;
            if i != own {
                let (other, far) = self.bot_for(corners.get(i), used)?;
                time = time.max(far);
                used |= bit(other);
                bot = other;
            }
            if let Some(place) = bots.get_mut(i) {
                *place = bot;
            }
        }
        Some((bots, time))
    }

    /// How many boxes of one voxel among the nearest ones can be filled from a position.
    fn count_reach(&self, lists: &SearchLists, from: usize, at: Position) -> i64 {
        let mut count = 0i64;
        for i in from..from.saturating_add(CHUNK) {
            if let Some(candidate) = lists.candidate(i) {
                let block = self.agenda.get(candidate.number).block;
                let d = at.to(block.low);
                if block.low == block.high && is_near(d) && d.dy < 1 {
                    count = count.saturating_add(1);
                }
            }
        }
        count.max(1)
    }

    /// The best position for a box of one voxel.
    fn offer_alone(
        &self,
        lists: &SearchLists,
        from: usize,
        number: u8,
        item: u32,
    ) -> Option<BoxOffer> {
        let at = self.air.bot(number).at;
        let block = self.agenda.get(item).block;
        let mut best: Option<BoxOffer> = None;
        for (dx, dy, dz) in NEAR {
            let d = by(dx, dy, dz);
            let post = block.low.plus(d);
            if !self.is_post_open(post, block) || self.is_taken(post, number) {
                continue;
            }
            let count = self.count_reach(lists, from, post);
            let time = i64::from(moves_between(at, post))
                .saturating_add(count)
                .max(1);
            let far = i64::from(length(at.to(post)));
            let value = worth(count.saturating_mul(10), time).saturating_sub(far.saturating_mul(
                1000,
            ));
            let is_better = match best {
                Some(other) => value > other.value,
                None => true,
            };
            if is_better {
                let bots = [number; MOST_TEAM];
                best = Some(BoxOffer {
                    value: value.max(0),
                    number: item,
                    bots,
                    post: Some(post),
                });
            }
        }
        best
    }

    /// The offer of a box to a bot.
    fn offer(&self, lists: &SearchLists, from: usize, number: u8, item: u32) -> Option<BoxOffer> {
        let block = self.agenda.get(item).block;
        if block.low == block.high {
            return self.offer_alone(lists, from, number, item);
        }
        let (bots, time) = self.team_for(number, block)?;
        let doublings = block.dimensions().min(3) as i64;
        let tenths = self.manner.big.saturating_mul(doublings).saturating_add(10);
        let value = worth(tenths, time.saturating_add(1));
        Some(BoxOffer {
            value: value.max(0),
            number: item,
            bots,
            post: None,
        })
    }

    /// The offers of some candidates.
    fn make_offers(&self, lists: &mut SearchLists, number: u8, from: usize) -> Result<(), Memory> {
        lists.offers.clear();
        for i in from..from.saturating_add(CHUNK) {
            let Some(candidate) = lists.candidate(i) else {
                break;
            };
            if let Some(offer) = self.offer(lists, from, number, candidate.number) {
                lists.offers.push(offer).map_err(|_| Memory)?;
            }
        }
        Ok(())
    }

    /// Returns whether a bot with a job that is not in a team is or will be in a box or below it.
    pub(crate) fn is_used_by_others(&self, block: Block, bots: &[u8; MOST_TEAM]) -> bool {
        for number in 0..MOST_BOTS {
            let bot = self.air.bot(number);
            let is_busy = bot.active && bot.job.is_some() && !bots.contains(&number);
            if is_busy && (block.is_over(bot.at) || block.is_over(bot.post)) {
                return true;
            }
        }
        false
    }

    /// The steps of a bot to a position, in hundredths, less what it is worth that more boxes are in reach of it and of all others.
    fn price_of(&self, at: Position, post: Position, choice: usize, all: &Option<Reach>) -> i32 {
        let far = if post == at {
            -1
        } else {
            moves_between(at, post)
                .wrapping_mul(100)
                .wrapping_add(choice.min(100) as i32)
        };
        let Some(reach) = all else {
            return far;
        };
        far.wrapping_sub((reach.count.min(100) as i32).wrapping_mul(LOOK))
    }

    /// The boxes in reach of a position that are in reach of the others, too, if they are looked at.
    fn common_reach(&self, post: Position, item: u32, common: &Option<Reach>) -> Option<Reach> {
        if !self.manner.look {
            return None;
        }
        let reach = self.reach(post, self.agenda.get(item).block.dimensions(), item);
        match common {
            Some(common) => Some(common.shared(&reach)),
            None => Some(reach),
        }
    }

    /// The best post for a bot at a corner that none of the team has, and the boxes in reach of all posts.
    fn post_for(
        &self,
        number: u8,
        corner: Position,
        item: u32,
        job: &TeamJob,
        common: &Option<Reach>,
    ) -> Option<(Position, Option<Reach>)> {
        let at = self.air.bot(number).at;
        let block = self.agenda.get(item).block;
        let mut best: Option<(i32, Position, Option<Reach>)> = None;
        for i in 0..NEAR.len() {
            let Some((dx, dy, dz)) = NEAR.get(i) else {
                break;
            };
            let post = corner.plus(by(*dx, *dy, *dz));
            if job.has_post(post)
                || !self.is_post_open(post, block)
                || self.is_taken(post, number)
            {
                continue;
            }
            let reach = self.common_reach(post, item, common);
            let price = self.price_of(at, post, i, &reach);
            let is_better = match best {
                Some((other, _, _)) => price < other,
                None => true,
            };
            if is_better {
                best = Some((price, post, reach));
            }
        }
        let (_, post, reach) = best?;
        Some((post, reach))
    }

    /// Returns whether some position near a corner is in the sky and not in the box or below it.
    fn has_sky(&self, corner: Position, block: Block) -> bool {
        for (dx, dy, dz) in NEAR {
            let d = by(dx, dy, dz);
            let at = corner.plus(d);
            if self.air.site.is_sky(at) && !block.is_over(at) {
                return true;
            }
        }
        false
    }

    /// The job of a team for a box, if there are positions for all. A thick box with a corner that has no place in the sky is split.
    fn job_of(&mut self, offer: BoxOffer) -> Result<Option<TeamJob>, Memory> {
        let item = self.agenda.get(offer.number);
        let block = item.block;
        if item.state != BoxState::Ready || self.is_used_by_others(block, &offer.bots) {
            return Ok(None);
        }
        let corners = block.corners();
        let mut job = TeamJob::new(self.air.step);
        let mut ends = [HOME; MOST_TEAM];
        let mut common = None;
        for i in 0..corners.count {
            let corner = corners.get(i);
            let bot = match offer.bots.get(i) {
                Some(bot) => *bot,
                None => break,
            };
            let found = match offer.post {
                Some(post) => Some((post, None)),
                None => self.post_for(bot, corner, offer.number, &job, &common),
            };
            let Some((post, reach)) = found else {
                if block.low.y != block.high.y && !self.has_sky(corner, block) {
                    self.agenda.split(offer.number)?;
                }
                return Ok(None);
            };
            common = reach;
            job.join(bot, post);
            put_position(&mut ends, i, corner);
        }
        job.add_target(Target {
            number: offer.number,
            corners: ends,
        });
        Ok(Some(job))
    }

    /// Takes the best of the offers for which there are positions. Returns whether the search ends.
    fn take_offer(&mut self, lists: &mut SearchLists, number: u8) -> Result<bool, Memory> {
        for _ in 0..CHUNK {
            let Some(offer) = lists.take_best() else {
                break;
            };
            let bot = self.air.bot(number);
            if offer.value < LEAST && bot.patience < 1 {
                let waiting = CrewBot { patience: 1, ..bot };
                self.air.put(number, waiting);
                return Ok(true);
            }
            if let Some(job) = self.job_of(offer)? {
                let job = self.extend(job, offer.number);
                self.start(number, job);
                return Ok(true);
            }
        }
        Ok(false)
    }

    /// A free bot looks for a box, and takes it with a team.
    pub(crate) fn find_job(&mut self, lists: &mut SearchLists, number: u8) -> Result<(), Memory> {
        let at = self.air.bot(number).at;
        self.find_candidates(lists, at)?;
        for chunk in 0..MOST_FOUND / CHUNK {
            let from = chunk.wrapping_mul(CHUNK);
            if from >= lists.candidates.len() {
                break;
            }
            self.air.work = self.air.work.saturating_add(2000);
            self.make_offers(lists, number, from)?;
            if self.take_offer(lists, number)? {
                break;
            }
        }
        Ok(())
    }
}

/// Returns whether some bits have that of a bot.
fn has_bit(bits: u64, number: u8) -> bool {
    bits / bit(number).max(1) % 2 == 1
}

/// The value of a team's work, in tenths of a box, that takes `time` steps.
fn worth(tenths: i64, time: i64) -> i64 {
    tenths.saturating_mul(200_000) / time.max(1)
}

/// The bit of a bot.
fn bit(number: u8) -> u64 {
    let mut bit = 1u64;
    for _ in 0..number.min(63) {
        bit = bit.wrapping_mul(2);
    }
    bit
}
