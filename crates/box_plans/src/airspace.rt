//! Bots in the sky, their tasks in a step, and the voxels that are reserved in that step.
//!
//! A step is free of collisions because no voxel is reserved in it twice. First the positions of all bots are reserved, then the
//! voxels that each task fills or moves through. A bot gets no task that would need a reserved voxel.
use crate::positions::{HOME, Position, by, length, sign};
use crate::record::{MOST_BOTS, Record};
use crate::site::BuildSite;
use crate::tasks::BotTask;
use std::alloc::Global;
use vox_geom::{Diff, Memory};

/// The maximum of [`Airspace::work`]: a schedule is given up beyond it.
const MOST_WORK: u64 = 800_000_000;

/// A bot: its position after its task, whether it is new in this step (`fresh`), its job and post, how often it was blocked, how
/// long it waited for a good box, whether a pole needs it (`posted`), and its first seed with the number of its seeds.
#[derive(Clone, Copy, Debug)]
pub(crate) struct CrewBot {
    pub(crate) at: Position,
    pub(crate) active: bool,
    pub(crate) fresh: bool,
    pub(crate) task: BotTask,
    pub(crate) job: Option<u8>,
    pub(crate) post: Position,
    pub(crate) blocked: u8,
    pub(crate) patience: u8,
    pub(crate) posted: bool,
    pub(crate) seed: u8,
    pub(crate) seeds: u8,
}

/// An inactive bot, for numbers that no bot has.
const NOBODY: CrewBot = CrewBot {
    at: HOME,
    active: false,
    fresh: false,
    task: BotTask::Wait,
    job: None,
    post: HOME,
    blocked: 0,
    patience: 0,
    posted: false,
    seed: 0,
    seeds: 0,
};

impl CrewBot {
    /// Returns whether the bot was active when the step began and has no task yet.
    pub(crate) fn is_idle(&self) -> bool {
        let waits = match self.task {
            BotTask::Wait => true,
            _ => false,
        };
        self.active && !self.fresh && waits
    }

    /// Returns whether the bot was active when the step began and has no job, so that a team may take it.
    pub(crate) fn is_free(&self) -> bool {
        self.active && !self.fresh && self.job.is_none()
    }
}

/// The voxels, the steps so far and the work for them, the bots, the last step that reserved each voxel, and the state of the
/// random generator.
#[derive(Drop)]
pub(crate) struct Airspace {
    pub(crate) site: BuildSite,
    pub(crate) record: Record,
    pub(crate) step: u32,
    pub(crate) work: u64,
    bots: Vec<CrewBot>,
    stamps: Vec<u32>,
    random: u64,
}

impl Airspace {
    /// Returns the airspace before the first step, without bots.
    pub(crate) fn new(alloc: Global, site: BuildSite) -> Result<Airspace, Memory> {
        Ok(Airspace {
            record: Record::new(alloc),
            step: 0,
            work: 0,
            bots: vec![in alloc; NOBODY; usize::from(MOST_BOTS)]?,
            stamps: vec![in alloc; 0u32; site.volume()]?,
            random: 1,
            site,
        })
    }

    /// Returns the bot with this number; an inactive one if there is none.
    pub(crate) fn bot(&self, number: u8) -> CrewBot {
        match self.bots.get(usize::from(number)) {
            Some(bot) => *bot,
            None => NOBODY,
        }
    }

    /// Replaces the bot with this number.
    pub(crate) fn put(&mut self, number: u8, bot: CrewBot) {
        if let Some(place) = self.bots.get_mut(usize::from(number)) {
            *place = bot;
        }
    }

    /// Adds a bot with this number of seeds. It can get tasks from the next step on.
    pub(crate) fn arrive(&mut self, number: u8, at: Position, seeds: u8) {
        let bot = CrewBot {
            at,
            active: true,
            fresh: true,
            seed: number.saturating_add(1),
            seeds,
            ..NOBODY
        };
        self.put(number, bot);
    }

    /// Returns the number of active bots.
    pub(crate) fn count(&self) -> usize {
        let mut count = 0usize;
        for bot in self.bots.as_slice() {
            count = count.saturating_add(usize::from(bot.active));
        }
        count
    }

    /// Returns the number of active bots without a job.
    pub(crate) fn count_free(&self) -> usize {
        let mut count = 0usize;
        for bot in self.bots.as_slice() {
            count = count.saturating_add(usize::from(bot.active && bot.job.is_none()));
        }
        count
    }

    /// Returns the number of the first active bot, or 0 if none is active.
    pub(crate) fn first(&self) -> u8 {
        for number in 0..MOST_BOTS {
            if self.bot(number).active {
                return number;
            }
        }
        0
    }

    /// Returns the number of the bot at a position, if there is one.
    pub(crate) fn bot_at(&self, at: Position) -> Option<u8> {
        for number in 0..MOST_BOTS {
            let bot = self.bot(number);
            if bot.active && bot.at == at {
                return Some(number);
            }
        }
        None
    }

    /// Gives a bot its task.
    pub(crate) fn order(&mut self, number: u8, task: BotTask) {
        let bot = self.bot(number);
        self.put(number, CrewBot { task, ..bot });
    }

    /// Returns whether the work so far exceeds the maximum.
    pub(crate) fn is_over(&self) -> bool {
        self.work > MOST_WORK
    }

    /// Begins a step: reserves the positions of all bots, none of which has a task yet.
    pub(crate) fn begin_step(&mut self) {
        self.step = self.step.saturating_add(1);
        self.work = self.work.saturating_add(1000);
        for number in 0..MOST_BOTS {
            let bot = self.bot(number);
            if bot.active {
                self.reserve(bot.at);
            }
            let now = CrewBot {
                task: BotTask::Wait,
                fresh: false,
                ..bot
            };
            self.put(number, now);
        }
    }

    /// Ends a step, and records the tasks of all bots.
    pub(crate) fn end_step(&mut self) -> Result<(), Memory> {
        for number in 0..MOST_BOTS {
            let task = self.bot(number).task;
            self.record.note(number, task)?;
        }
        self.record.end_step()
    }

    /// Reserves a voxel in this step.
    pub(crate) fn reserve(&mut self, c: Position) {
        let Some(index) = self.site.index(c) else {
            return;
        };
        if let Some(stamp) = self.stamps.get_mut(index) {
            *stamp = self.step;
        }
    }

    /// Returns whether a voxel is reserved in this step; true outside the matrix.
    pub(crate) fn is_reserved(&self, c: Position) -> bool {
        let Some(index) = self.site.index(c) else {
            return true;
        };
        match self.stamps.get(index) {
            Some(stamp) => *stamp == self.step,
            None => true,
        }
    }

    /// Returns a random number below a bound. The generator has a fixed start, so that a plan depends on the models alone.
    pub(crate) fn draw(&mut self, bound: u64) -> u64 {
        self.random = self
            .random
            .wrapping_mul(6_364_136_223_846_793_005)
            .wrapping_add(1_442_695_040_888_963_407);
        (self.random / 8_589_934_592) % bound.max(1)
    }

    /// Returns whether a leg of a move leads through the sky, and through no reserved voxel.
    fn is_leg_clear(&self, from: Position, d: Diff) -> bool {
        let one = by(sign(d.dx), sign(d.dy), sign(d.dz));
        let mut c = from;
        for _ in 0..length(d).min(15) {
            c = c.plus(one);
            if !self.site.is_sky(c) || self.is_reserved(c) {
                return false;
            }
        }
        true
    }

    /// Reserves the voxels of a leg of a move.
    pub(crate) fn reserve_leg(&mut self, from: Position, d: Diff) {
        let one = by(sign(d.dx), sign(d.dy), sign(d.dz));
        let mut c = from;
        for _ in 0..length(d).min(15) {
            c = c.plus(one);
            self.reserve(c);
        }
    }

    /// Moves a bot by two legs if both are clear, and returns whether it did. The second leg may be empty.
    pub(crate) fn go(&mut self, number: u8, first: Diff, second: Diff) -> bool {
        let bot = self.bot(number);
        let bend = bot.at.plus(first);
        if !self.is_leg_clear(bot.at, first) || !self.is_leg_clear(bend, second) {
            return false;
        }
        self.reserve_leg(bot.at, first);
        self.reserve_leg(bend, second);
        let task = if length(second) == 0 {
            BotTask::Move(first)
        } else {
            BotTask::TwoLegMove(first, second)
        };
        let moved = CrewBot {
            at: bend.plus(second),
            task,
            blocked: 0,
            ..bot
        };
        self.put(number, moved);
        true
    }

    /// Moves a bot along one axis if that is clear, and returns whether it did.
    pub(crate) fn go_straight(&mut self, number: u8, d: Diff) -> bool {
        self.go(number, d, by(0, 0, 0))
    }

    /// Tries up to six random moves of a bot, up or sideways, and makes the first that is clear. Returns whether the bot moved.
    pub(crate) fn dodge(&mut self, number: u8) -> bool {
        for _ in 0..6 {
            let kind = self.draw(6);
            let way = self.draw(4).min(4) as i16;
            let way = way.saturating_add(1);
            let back = way.wrapping_neg();
            let d = match kind {
                0 => by(way, 0, 0),
                1 => by(back, 0, 0),
                2 => by(0, 0, way),
                3 => by(0, 0, back),
                _ => by(0, way, 0),
            };
            if self.go_straight(number, d) {
                return true;
            }
        }
        false
    }
}
