//! The schedule: step by step teams take boxes, fly to their corners and fill them.
//!
//! A box may be filled once all boxes below it are full and it is attached, while no bot is in it or below it in its columns. So what
//! is full is grounded, nobody is shut in, and every path leads through the sky.
use crate::agenda::Agenda;
use crate::airspace::{Airspace, CrewBot};
use crate::anchors::Anchors;
use crate::blocks::{Block, CutBox};
use crate::claims::Owners;
use crate::jobs::{NO_JOB, TeamJob, position_of};
use crate::manner::BoxManner;
use crate::positions::{Position, by, length, moves_between};
use crate::record::MOST_BOTS;
use crate::site::BuildSite;
use crate::tasks::BotTask;
use crate::teams::SearchLists;
use std::alloc::Global;
use vox_geom::Memory;

/// The most steps after which a team gives a job up.
const MOST_AGE: u32 = 40;

/// The most steps without a filled box after which all jobs are given up.
const MOST_PAUSE: u32 = 80;

/// The most steps without a filled box after which a plan is given up.
const MOST_STILL: u32 = 250;

/// The most steps without a job: then ready boxes wait for one another, and are halved.
const MOST_STUCK: u32 = 12;

/// More steps than any plan takes that is worth it.
const MOST_STEPS: u64 = 200_000;

/// The differences to new bots, the most useful ones first.
const SPREAD: [(i16, i16, i16); 14] = [
    (1, 1, 0),
    (0, 1, 1),
    (1, 0, 0),
    (0, 0, 1),
    (0, 1, 0),
    (1, 0, 1),
    (1, -1, 0),
    (0, -1, 1),
    (-1, 1, 0),
    (0, 1, -1),
    (-1, 0, 0),
    (0, 0, -1),
    (-1, 0, 1),
    (1, 0, -1),
];

/// Boxes and the bots that fill them.
#[derive(Drop)]
pub(crate) struct Schedule {
    pub(crate) air: Airspace,
    pub(crate) agenda: Agenda,
    pub(crate) anchors: Anchors,
    pub(crate) owners: Owners,
    pub(crate) manner: BoxManner,
    pub(crate) lowest: i16,
    jobs: Vec<TeamJob>,
    claims: Vec<i16>,
    any: bool,
    last_fill: u32,
    progress: u32,
    stuck: u32,
    spreads: bool,
    kept: usize,
    rests: bool,
}

/// When a bot has its turn: those that have furthest to go come first.
#[derive(Clone, Copy, Debug)]
struct FlightTurn {
    key: i32,
    bot: u8,
}

impl Schedule {
    /// Before the first step, with no bot: boxes that are full once they are filled, or of any content.
    pub(crate) fn new(
        alloc: Global,
        site: BuildSite,
        pieces: &[CutBox],
        any: bool,
        manner: BoxManner,
        kept: usize,
    ) -> Result<Schedule, Memory> {
        let agenda = Agenda::of(alloc, &site, pieces)?;
        let asked = manner.look || manner.extra > 0;
        Ok(Schedule {
            owners: Owners::of(alloc, &site, &agenda, asked)?,
            agenda,
            anchors: Anchors::new(alloc),
            manner,
            lowest: 0,
            jobs: vec![in alloc; NO_JOB; usize::from(MOST_BOTS)]?,
            claims: vec![in alloc; 0i16; site.area()]?,
            air: Airspace::new(alloc, site)?,
            any,
            last_fill: 0,
            progress: 0,
            stuck: 0,
            spreads: false,
            kept,
            rests: false,
        })
    }

    /// The job with a number.
    pub(crate) fn job(&self, number: u8) -> TeamJob {
        match self.jobs.get(usize::from(number)) {
            Some(job) => *job,
            None => NO_JOB,
        }
    }

    /// Changes a job.
    pub(crate) fn put_job(&mut self, number: u8, job: TeamJob) {
        if let Some(place) = self.jobs.get_mut(usize::from(number)) {
            *place = job;
        }
    }

    /// Returns whether boxes may have void voxels.
    pub(crate) fn has_any(&self) -> bool {
        self.any
    }

    /// The first position above what a team is going to fill in a column, or 0.
    pub(crate) fn claimed(&self, x: i16, z: i16) -> i16 {
        let Some(column) = self.air.site.column(x, z) else {
            return 0;
        };
        match self.claims.get(column) {
            Some(height) => *height,
            None => 0,
        }
    }

    /// Keeps up to which height a team is going to fill the columns of a box.
    pub(crate) fn claim(&mut self, block: Block, height: i16) {
        for x in block.low.x..=block.high.x {
            for z in block.low.z..=block.high.z {
                if let Some(column) = self.air.site.column(x, z) {
                    if let Some(claim) = self.claims.get_mut(column) {
                        *claim = height;
                    }
                }
            }
        }
    }

    /// A job begins: its bots and its boxes are taken.
    pub(crate) fn start(&mut self, number: u8, job: TeamJob) {
        for i in 0..job.count() {
            if let Some(target) = job.target(i) {
                let block = self.agenda.get(target.number).block;
                self.agenda.take(target.number);
                self.claim(block, block.high.y.saturating_add(1));
            }
        }
        for i in 0..job.members {
            let bot = self.air.bot(job.bot(i));
            let post = job.post(i);
            let busy = CrewBot {
                job: Some(number),
                post,
                patience: 0,
                ..bot
            };
            self.air.put(job.bot(i), busy);
        }
        self.put_job(number, job);
    }

    /// A job ends: its bots are free, and what is not full may be taken by others.
    fn end(&mut self, number: u8) {
        let job = self.job(number);
        for i in job.next()..job.count() {
            if let Some(target) = job.target(i) {
                let block = self.agenda.get(target.number).block;
                self.agenda.release(target.number);
                self.claim(block, 0);
            }
        }
        for i in 0..job.members {
            let bot = self.air.bot(job.bot(i));
            self.air.put(job.bot(i), CrewBot { job: None, ..bot });
        }
        self.put_job(number, NO_JOB);
    }

    /// Ends all jobs that are older than that.
    fn end_old(&mut self, age: u32) {
        for number in 0..MOST_BOTS {
            let job = self.job(number);
            if job.active && self.air.step.saturating_sub(job.born) >= age {
                self.end(number);
            }
        }
    }

    /// Ends jobs that take too long. If nothing was filled for long, ends all of them, and some bots dodge.
    fn give_up_jobs(&mut self) {
        self.end_old(MOST_AGE);
        if self.air.step.saturating_sub(self.last_fill) <= MOST_PAUSE {
            return;
        }
        self.end_old(0);
        self.last_fill = self.air.step;
        for number in 0..MOST_BOTS {
            if self.air.bot(number).is_idle() && self.air.draw(2) == 0 {
                self.air.dodge(number);
            }
        }
    }

    /// A bot with seeds makes another one beside it, which gets half of them.
    fn multiply(&mut self, number: u8) {
        let bot = self.air.bot(number);
        for (dx, dy, dz) in SPREAD {
            let d = by(dx, dy, dz);
            let at = bot.at.plus(d);
            if !self.air.site.is_sky(at) || self.air.is_reserved(at) {
                continue;
            }
            let given = (bot.seeds / 2).min(bot.seeds.saturating_sub(1));
            self.air.reserve(at);
            self.air.arrive(bot.seed, at, given);
            let seeds = bot.seeds.saturating_sub(1).saturating_sub(given);
            let seed = bot.seed.saturating_add(1).saturating_add(given);
            let task = BotTask::Split(d, bot.seed);
            self.air.put(
                number,
                CrewBot {
                    task,
                    seed,
                    seeds,
                    ..bot
                },
            );
            return;
        }
    }

    /// All bots with seeds make others.
    fn spread(&mut self) {
        self.spreads = false;
        for number in 0..MOST_BOTS {
            let bot = self.air.bot(number);
            if bot.active && bot.seeds > 0 {
                self.spreads = true;
                if bot.is_idle() {
                    self.multiply(number);
                }
            }
        }
    }

    /// Returns whether some bot has seeds.
    pub(crate) fn is_spreading(&self) -> bool {
        for number in 0..MOST_BOTS {
            let bot = self.air.bot(number);
            if bot.active && bot.seeds > 0 {
                return true;
            }
        }
        false
    }

    /// Halves all boxes that are ready, if they have waited for one another for long.
    fn halve_if_stuck(&mut self) -> Result<(), Memory> {
        if !self.any || self.agenda.ready() == 0 || self.agenda.taken() > 0 {
            self.stuck = 0;
            return Ok(());
        }
        self.stuck = self.stuck.saturating_add(1);
        if self.stuck <= MOST_STUCK {
            return Ok(());
        }
        self.stuck = 0;
        for number in 0..self.agenda.count() {
            if self.agenda.can_halve(number) {
                self.agenda.halve(number, &self.air.site)?;
            }
        }
        Ok(())
    }

    /// All free bots look for boxes.
    fn choose(&mut self, lists: &mut SearchLists) -> Result<(), Memory> {
        if self.manner.window < self.air.site.side() && self.air.step % 4 == 0 {
            self.lowest = self.agenda.lowest();
        }
        for number in 0..MOST_BOTS {
            let bot = self.air.bot(number);
            if bot.is_idle() && bot.job.is_none() && bot.seeds == 0 && self.agenda.ready() > 0 {
                self.find_job(lists, number)?;
            }
        }
        Ok(())
    }

    /// Returns whether all bots of a team are at their posts, with no task yet.
    fn is_team_there(&self, job: &TeamJob) -> bool {
        for i in 0..job.members {
            let bot = self.air.bot(job.bot(i));
            if !bot.is_idle() || bot.at != job.post(i) {
                return false;
            }
        }
        true
    }

    /// Returns whether some bot is in a box or below it.
    fn is_someone_under(&self, block: Block) -> bool {
        for number in 0..MOST_BOTS {
            let bot = self.air.bot(number);
            if bot.active && block.is_over(bot.at) {
                return true;
            }
        }
        false
    }

    /// Returns whether some voxel in a column of a box is reserved in this step.
    fn is_column_reserved(&self, block: Block, x: i16, z: i16) -> bool {
        for y in block.low.y..=block.high.y {
            if self.air.is_reserved(Position { x, y, z }) {
                return true;
            }
        }
        false
    }

    /// Returns whether some voxel of a box is reserved in this step.
    fn is_reserved(&self, block: Block) -> bool {
        for x in block.low.x..=block.high.x {
            for z in block.low.z..=block.high.z {
                if self.is_column_reserved(block, x, z) {
                    return true;
                }
            }
        }
        false
    }

    /// Fills and reserves a column of a box.
    fn fill_column(&mut self, block: Block, x: i16, z: i16) {
        for y in block.low.y..=block.high.y {
            let c = Position { x, y, z };
            self.air.reserve(c);
            self.air.site.fill(c);
        }
    }

    /// Fills and reserves the voxels of a box.
    fn fill(&mut self, block: Block) {
        for x in block.low.x..=block.high.x {
            for z in block.low.z..=block.high.z {
                self.fill_column(block, x, z);
            }
        }
    }

    /// Gives each bot of a team its command for a box.
    fn order_fill(&mut self, job: &TeamJob, block: Block, corners: &[Position]) {
        for i in 0..job.members {
            let corner = position_of(corners, i);
            let near = job.post(i).to(corner);
            let task = if job.members > 1 {
                BotTask::Group(near, corner.to(block.opposite(corner)))
            } else {
                BotTask::Fill(near)
            };
            self.air.order(job.bot(i), task);
        }
    }

    /// A team fills its next box if all of it is there and nothing is in the way.
    fn try_fill(&mut self, number: u8) -> Result<(), Memory> {
        let mut job = self.job(number);
        let Some(target) = job.target(job.next()) else {
            return Ok(());
        };
        if !job.active || !self.is_team_there(&job) {
            return Ok(());
        }
        let block = self.agenda.get(target.number).block;
        let floats = !self.any && !self.air.site.is_attached(block);
        if floats || self.is_someone_under(block) || self.is_reserved(block) {
            return Ok(());
        }
        self.fill(block);
        self.claim(block, 0);
        self.order_fill(&job, block, &target.corners);
        self.agenda.finish(target.number)?;
        self.last_fill = self.air.step;
        self.progress = self.air.step;
        let is_last = job.advance();
        self.put_job(number, job);
        if is_last {
            self.end(number);
        }
        Ok(())
    }

    /// All teams that are there fill their boxes.
    fn fill_all(&mut self) -> Result<(), Memory> {
        for number in 0..MOST_BOTS {
            self.try_fill(number)?;
        }
        Ok(())
    }

    /// Two bots of a team with posts in one column change their parts, so that the lower one gets the lower post.
    fn order_pair(&mut self, number: u8, i: usize, k: usize) {
        let mut job = self.job(number);
        let (one, other) = (job.post(i), job.post(k));
        if !one.is_above_or_below(other) {
            return;
        }
        let (a, b) = (self.air.bot(job.bot(i)), self.air.bot(job.bot(k)));
        let (a_in, b_in) = (a.at.is_above_or_below(one), b.at.is_above_or_below(one));
        let is_lower = one.y < other.y;
        let changes = if a_in && b_in {
            (a.at.y < b.at.y) != is_lower
        } else {
            (a_in && !is_lower) || (b_in && is_lower)
        };
        if changes {
            self.air.put(job.bot(i), CrewBot { post: other, ..a });
            self.air.put(job.bot(k), CrewBot { post: one, ..b });
            job.exchange(i, k);
            self.put_job(number, job);
        }
    }

    /// The same for all pairs of a team.
    fn order_team(&mut self, number: u8) {
        let members = self.job(number).members;
        for i in 0..members {
            for k in i.saturating_add(1)..members {
                self.order_pair(number, i, k);
            }
        }
    }

    /// The same for all teams.
    fn order_teams(&mut self) {
        for number in 0..MOST_BOTS {
            if self.job(number).active {
                self.order_team(number);
            }
        }
    }

    /// Returns whether bots without a job fly home: nothing is left for them, or there are more than the last boxes need.
    fn may_rest(&self) -> bool {
        if self.agenda.ready() == 0 && self.agenda.left() == self.agenda.taken() {
            return true;
        }
        if self.spreads || self.agenda.left() > 40 || !self.manner.gathers {
            return false;
        }
        let needed = self
            .agenda
            .bots_needed()
            .saturating_add(2)
            .saturating_add(self.kept);
        needed <= self.air.count_free()
    }

    /// When a bot has its turn.
    fn turn_of(&self, number: u8) -> FlightTurn {
        let bot = self.air.bot(number);
        let Some(job) = bot.job else {
            return FlightTurn {
                key: 0,
                bot: number,
            };
        };
        let far = moves_between(bot.at, bot.post).wrapping_mul(4);
        let age = self.air.step.saturating_sub(self.job(job).born).min(40) / 10;
        let key = 0i32.wrapping_sub(far).wrapping_sub(age as i32);
        FlightTurn { key, bot: number }
    }

    /// All bots without a task have their turns.
    fn fly_all(&mut self, turns: &mut Vec<FlightTurn>) -> Result<(), Memory> {
        turns.clear();
        for number in 0..MOST_BOTS {
            if self.air.bot(number).is_idle() {
                turns.push(self.turn_of(number)).map_err(|_| Memory)?;
                sift_last(turns);
            }
        }
        self.rests = self.may_rest();
        for turn in turns.as_slice() {
            self.have_turn(turn.bot);
        }
        Ok(())
    }

    /// A bot flies to its post, or home, or out of the way.
    fn have_turn(&mut self, number: u8) {
        let bot = self.air.bot(number);
        if !bot.is_idle() {
            return;
        }
        if bot.job.is_some() {
            self.air.fly(number, bot.post);
        } else if self.rests {
            self.air.retire(number);
        } else {
            self.make_way(number);
        }
    }

    /// The highest beginning of the sky in a column and around it.
    fn top_around(&self, c: Position) -> i16 {
        let mut top = 0;
        for dx in -1..=1i16 {
            for dz in -1..=1i16 {
                let around = c.plus(by(dx, 0, dz));
                if self.air.site.column(around.x, around.z).is_some() {
                    top = top.max(self.air.site.top(around.x, around.z));
                }
            }
        }
        top
    }

    /// Returns whether some post is in this column, no higher than a position.
    fn is_post_under(&self, c: Position) -> bool {
        for number in 0..MOST_BOTS {
            let bot = self.air.bot(number);
            if bot.active
                && bot.job.is_some()
                && bot.post.is_above_or_below(c)
                && bot.post.y <= c.y
            {
                return true;
            }
        }
        false
    }

    /// Returns whether some bot near a position is blocked.
    fn is_someone_blocked(&self, c: Position) -> bool {
        for number in 0..MOST_BOTS {
            let bot = self.air.bot(number);
            let is_blocked = bot.active && bot.job.is_some() && bot.blocked >= 2;
            if is_blocked && length(bot.at.to(c)) <= 12 {
                return true;
            }
        }
        false
    }

    /// A bot without a job leaves columns that others need, and rises above what is full around it.
    fn make_way(&mut self, number: u8) {
        let at = self.air.bot(number).at;
        let top = self.top_around(at);
        let is_bad = at.y < self.claimed(at.x, at.z) || self.is_post_under(at);
        let is_high = at.y > top.saturating_add(1);
        if (is_bad && is_high) || (!is_bad && self.is_someone_blocked(at)) {
            self.air.dodge(number);
            return;
        }
        if !is_bad && at.y >= top {
            return;
        }
        let up = if is_bad {
            15
        } else {
            top.saturating_add(1).saturating_sub(at.y)
        };
        let room = self.air.site.side().saturating_sub(1).saturating_sub(at.y);
        let up = up.min(15).min(room);
        let rises = up > 0
            && (self.air.go_straight(number, by(0, up, 0))
                || self.air.go_straight(number, by(0, 1, 0)));
        if !rises {
            self.air.dodge(number);
        }
    }

    /// One step: bots spread, choose boxes, fill them and fly.
    fn work_step(
        &mut self,
        lists: &mut SearchLists,
        turns: &mut Vec<FlightTurn>,
    ) -> Result<(), Memory> {
        self.air.begin_step();
        self.give_up_jobs();
        self.spread();
        self.halve_if_stuck()?;
        self.choose(lists)?;
        self.fill_all()?;
        self.order_teams();
        self.fly_all(turns)?;
        self.air.end_step()
    }

    /// All boxes are filled. Returns whether they are, within `most` steps and the work that is allowed.
    pub(crate) fn work(&mut self, alloc: Global, most: u64) -> Result<bool, Memory> {
        let mut turns = Vec::new(alloc);
        let mut lists = SearchLists::new(alloc);
        for _ in 0..most.min(MOST_STEPS) {
            if self.agenda.left() == 0 && !self.is_spreading() {
                return Ok(true);
            }
            let pause = self.air.step.saturating_sub(self.progress);
            if pause > MOST_STILL || self.air.is_over() {
                return Ok(false);
            }
            self.work_step(&mut lists, &mut turns)?;
        }
        Ok(false)
    }
}

/// The last of some turns moves forward to its place.
fn sift_last(turns: &mut Vec<FlightTurn>) {
    let count = turns.len();
    for k in 1..count {
        let at = count.wrapping_sub(k);
        let before = at.wrapping_sub(1);
        let (Some(one), Some(other)) = (turn_at(turns, before), turn_at(turns, at)) else {
            return;
        };
        if one.key <= other.key {
            return;
        }
        put_turn(turns, before, other);
        put_turn(turns, at, one);
    }
}

/// A turn by its number.
fn turn_at(turns: &Vec<FlightTurn>, i: usize) -> Option<FlightTurn> {
    match turns.get(i) {
        Some(turn) => Some(*turn),
        None => None,
    }
}

/// Changes a turn.
fn put_turn(turns: &mut Vec<FlightTurn>, i: usize, turn: FlightTurn) {
    if let Some(place) = turns.get_mut(i) {
        *place = turn;
    }
}
