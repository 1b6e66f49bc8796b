//! The end of a plan: bots without work fly home, and fuse when they meet.
use crate::airspace::{Airspace, CrewBot};
use crate::positions::{HOME, NEAR, by, length};
use crate::record::MOST_BOTS;
use crate::tasks::{BotTask, opposite};
use vox_geom::{Diff, Memory};

/// More steps than the way home takes.
const MOST_STEPS: u32 = 2000;

impl Airspace {
    /// The bot beside a bot that has no work either.
    fn partner(&self, number: u8, d: Diff) -> Option<u8> {
        let other = self.bot_at(self.bot(number).at.plus(d))?;
        let bot = self.bot(other);
        if bot.is_idle() && bot.job.is_none() && !bot.posted {
            Some(other)
        } else {
            None
        }
    }

    /// A bot takes another one up.
    fn fuse(&mut self, keeper: u8, joiner: u8, d: Diff) {
        self.order(keeper, BotTask::FuseAsPrimary(d, joiner));
        let bot = self.bot(joiner);
        let gone = CrewBot {
            task: BotTask::FuseAsSecondary(opposite(d)),
            active: false,
            ..bot
        };
        self.put(joiner, gone);
    }

    /// A bot without work flies home, or fuses with one that it meets: the first bot stays, otherwise the one that is nearer to home. So
    /// a plan begins and ends with the first bot, and another plan may follow.
    pub(crate) fn retire(&mut self, number: u8) {
        let at = self.bot(number).at;
        for (dx, dy, dz) in NEAR {
            let d = by(dx, dy, dz);
            if let Some(other) = self.partner(number, d) {
                let is_nearer = length(HOME.to(at)) <= length(HOME.to(at.plus(d)));
                if number == 0 || (other != 0 && is_nearer) {
                    self.fuse(number, other, d);
                } else {
                    self.fuse(other, number, opposite(d));
                }
                return;
            }
        }
        self.fly(number, HOME);
    }

    /// The idle bot that is nearest to home, but for those that had their turns.
    fn nearest_home(&self, had: &[bool]) -> Option<u8> {
        let mut best: Option<(i32, u8)> = None;
        for number in 0..MOST_BOTS {
            let done = match had.get(usize::from(number)) {
                Some(done) => *done,
                None => true,
            };
            let bot = self.bot(number);
            if done || !bot.is_idle() || bot.posted {
                continue;
            }
            let far = length(HOME.to(bot.at));
            let is_better = match best {
                Some((other, _)) => far < other,
                None => true,
            };
            if is_better {
                best = Some((far, number));
            }
        }
        let (_, number) = best?;
        Some(number)
    }

    /// Sends `count` bots without work home, the nearest first.
    pub(crate) fn retire_nearest(&mut self, count: usize) {
        let mut had = [false; MOST_BOTS as usize];
        for _ in 0..count.min(usize::from(MOST_BOTS)) {
            let Some(number) = self.nearest_home(&had) else {
                break;
            };
            if let Some(done) = had.get_mut(usize::from(number)) {
                *done = true;
            }
            self.retire(number);
        }
    }

    /// All bots fly home and fuse. Returns whether one is left, at home.
    pub(crate) fn gather(&mut self) -> Result<bool, Memory> {
        for _ in 0..MOST_STEPS {
            if self.count() == 1 && self.bot(self.first()).at == HOME {
                return Ok(true);
            }
            self.begin_step();
            self.retire_nearest(usize::from(MOST_BOTS));
            self.end_step()?;
        }
        Ok(false)
    }
}
