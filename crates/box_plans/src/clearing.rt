//! Poles are taken away by all bots at once, a long one by two: one voids its lower half from the top down, the other one its upper
//! half from the middle up, which hangs from what it held.
use crate::airspace::{Airspace, CrewBot};
use crate::jobs::position_of;
use crate::poles::TemporaryPole;
use crate::positions::{HOME, LONG, NEIGHBORS, Position, SIDES, apart, by, moves_between};
use crate::record::MOST_BOTS;
use crate::search::{SearchGoal, Searcher, reversed};
use crate::tasks::BotTask;
use std::alloc::Global;
use vox_geom::{Diff, Memory};

/// From this length on a pole is taken away in two halves.
const LONG_POLE: i16 = 8;

/// More steps than all poles take.
const MOST_STEPS: u32 = 6000;

/// The work to send a bot to a part of a pole, in voxels that a search finds.
const WORK_TO_SEND: u64 = 10;

/// A part of a pole: whether it is voided upward, and whether a bot has it or had it.
#[derive(Clone, Copy, Debug)]
struct PolePart {
    pole: TemporaryPole,
    up: bool,
    taken: bool,
}

/// A bot on its way to a part of a pole, at it, or on its way back into the sky.
#[derive(Drop)]
struct Errand {
    bot: u8,
    part: PolePart,
    path: Vec<Position>,
    at: usize,
    blocked: u8,
    home: bool,
    over: bool,
}

/// All parts of poles, and the last errand of each bot.
#[derive(Drop)]
struct Clearing {
    parts: Vec<PolePart>,
    errands: Vec<Errand>,
    searcher: Searcher,
}

/// The parts of some poles.
fn parts_of(alloc: Global, poles: &[TemporaryPole]) -> Result<Vec<PolePart>, Memory> {
    let mut parts = Vec::new(alloc);
    for pole in poles {
        let TemporaryPole { foot, high } = *pole;
        let mut low = foot;
        if high.saturating_sub(foot.y) >= LONG_POLE - 1 {
            let middle = foot.y.saturating_add(high) / 2;
            let lower = TemporaryPole { foot, high: middle };
            let part = PolePart {
                pole: lower,
                up: false,
                taken: false,
            };
            parts.push(part).map_err(|_| Memory)?;
            low = foot.at_height(middle.saturating_add(1));
        }
        let upper = TemporaryPole { foot: low, high };
        let part = PolePart {
            pole: upper,
            up: low != foot,
            taken: false,
        };
        parts.push(part).map_err(|_| Memory)?;
    }
    Ok(parts)
}

/// An errand of each bot that is over.
fn no_errands(alloc: Global) -> Result<Vec<Errand>, Memory> {
    let pole = TemporaryPole {
        foot: HOME,
        high: 0,
    };
    let part = PolePart {
        pole,
        up: false,
        taken: true,
    };
    let mut errands = Vec::new(alloc);
    for bot in 0..MOST_BOTS {
        let errand = Errand {
            bot,
            part,
            path: Vec::new(alloc),
            at: 0,
            blocked: 0,
            home: false,
            over: true,
        };
        errands.push(errand).map_err(|_| Memory)?;
    }
    Ok(errands)
}

/// The first post of a bot beside a part of a pole.
fn first_post(part: PolePart, beside: Position) -> Position {
    let (low, high) = (part.pole.foot.y, part.pole.high);
    let y = if part.up {
        low.saturating_add(1).min(high)
    } else {
        high.saturating_sub(1).max(low)
    };
    beside.at_height(y)
}

impl Airspace {
    /// Returns whether all voxels beside a part of a pole in a column are void.
    fn is_side_void(&self, part: PolePart, beside: Position) -> bool {
        for y in part.pole.foot.y..=part.pole.high {
            if !self.site.is_open(beside.at_height(y)) {
                return false;
            }
        }
        true
    }

    /// How far a bot can go straight on along a path from a place of it: at most 15 voxels, none of them full or reserved.
    fn straight(&self, path: &[Position], at: usize) -> (Diff, i16) {
        let from = position_of(path, at);
        let one = from.to(position_of(path, at.saturating_add(1)));
        let mut count = 0i16;
        let mut c = from;
        for k in 1..16usize {
            let Some(next) = path.get(at.saturating_add(k)) else {
                break;
            };
            if c.to(*next) != one || !self.site.is_open(*next) || self.is_reserved(*next) {
                break;
            }
            c = *next;
            count = count.saturating_add(1);
        }
        (one, count)
    }

    /// A bot goes straight on along a path. Returns how far.
    fn go_along(&mut self, number: u8, path: &[Position], at: usize) -> usize {
        let (one, count) = self.straight(path, at);
        if count == 0 {
            return 0;
        }
        let bot = self.bot(number);
        let d = by(
            one.dx.wrapping_mul(count),
            one.dy.wrapping_mul(count),
            one.dz.wrapping_mul(count),
        );
        self.reserve_leg(bot.at, d);
        self.put(
            number,
            CrewBot {
                at: bot.at.plus(d),
                task: BotTask::Move(d),
                ..bot
            },
        );
        count.max(0) as usize
    }

    /// A bot voids a voxel of a pole that is in its reach. Returns whether there is one.
    fn void_part(&mut self, number: u8, part: PolePart) -> bool {
        let at = self.bot(number).at;
        let heights = if part.up {
            [-1i16, 0, 1]
        } else {
            [1i16, 0, -1]
        };
        for e in heights {
            let y = at.y.wrapping_add(e);
            let c = part.pole.foot.at_height(y);
            let is_part = y >= part.pole.foot.y && y <= part.pole.high;
            if is_part && self.site.is_full(c) && !self.is_reserved(c) {
                self.reserve(c);
                self.site.void(c);
                self.order(number, BotTask::Void(at.to(c)));
                return true;
            }
        }
        false
    }

    /// The voxel of a part of a pole that comes next, if one is full.
    fn next_voxel(&self, part: PolePart) -> Option<i16> {
        let mut found = None;
        for y in part.pole.foot.y..=part.pole.high {
            if self.site.is_full(part.pole.foot.at_height(y)) {
                if part.up {
                    return Some(y);
                }
                found = Some(y);
            }
        }
        found
    }

    /// A bot at a pole goes up or down until it reaches a voxel.
    fn go_to_voxel(&mut self, number: u8, part: PolePart, y: i16) {
        let at = self.bot(number).at;
        let goal = post_height(part, y);
        let way = goal.wrapping_sub(at.y);
        let way = way.max(LONG.wrapping_neg()).min(LONG);
        let one = way.max(-1).min(1);
        let mut clear = 0i16;
        let mut c = at;
        for _ in 0..apart(way, 0) {
            c = c.plus(by(0, one, 0));
            if !self.site.is_open(c) || self.is_reserved(c) {
                break;
            }
            clear = clear.saturating_add(1);
        }
        if clear == 0 {
            return;
        }
        let d = by(0, one.wrapping_mul(clear), 0);
        self.reserve_leg(at, d);
        let bot = self.bot(number);
        self.put(
            number,
            CrewBot {
                at: at.plus(d),
                task: BotTask::Move(d),
                ..bot
            },
        );
    }

    /// A bot that is blocked below an overhang goes one voxel aside. Returns whether it does.
    fn step_aside(&mut self, number: u8) -> bool {
        let bot = self.bot(number);
        let (dx, dy, dz) = match NEIGHBORS.get(self.draw(6) as usize) {
            Some(d) => *d,
            None => return false,
        };
        let d = by(dx, dy, dz);
        let to = bot.at.plus(d);
        if !self.site.is_open(to) || self.is_reserved(to) {
            return false;
        }
        self.reserve(to);
        self.put(
            number,
            CrewBot {
                at: to,
                task: BotTask::Move(d),
                ..bot
            },
        );
        true
    }

    /// Keeps whether a bot is needed for a pole.
    fn mark_posted(&mut self, number: u8, posted: bool) {
        let bot = self.bot(number);
        self.put(number, CrewBot { posted, ..bot });
    }
}

/// At which height a bot reaches a voxel of a pole and the two next ones.
fn post_height(part: PolePart, y: i16) -> i16 {
    if part.up {
        y.saturating_add(1).min(part.pole.high)
    } else {
        y.saturating_sub(1).max(part.pole.foot.y)
    }
}

impl Clearing {
    /// A part.
    fn part(&self, i: usize) -> Option<PolePart> {
        match self.parts.get(i) {
            Some(part) => Some(*part),
            None => None,
        }
    }

    /// Returns whether a bot is on its way to a pole or at one.
    fn is_busy(&self, bot: u8) -> bool {
        match self.errands.get(usize::from(bot)) {
            Some(errand) => !errand.over && !errand.home,
            None => false,
        }
    }

    /// Returns whether a bot has an errand, be it on its way back.
    fn has_errand(&self, bot: u8) -> bool {
        match self.errands.get(usize::from(bot)) {
            Some(errand) => !errand.over,
            None => false,
        }
    }

    /// Returns whether some bot is free for an errand.
    fn has_free(&self, air: &Airspace) -> bool {
        for number in 0..MOST_BOTS {
            if air.bot(number).active && !self.is_busy(number) {
                return true;
            }
        }
        false
    }

    /// Returns whether a bot works in a column, or will.
    fn is_column_used(&self, column: Position) -> bool {
        for errand in self.errands.as_slice() {
            let end = match errand.path.last() {
                Some(end) => *end,
                None => continue,
            };
            if !errand.over && !errand.home && end.is_above_or_below(column) {
                return true;
            }
        }
        false
    }

    /// The free bot that is nearest to a position, if there is one; of those that are equally near, the first one.
    fn nearest_free(&self, air: &Airspace, post: Position) -> Option<u8> {
        let mut nearest = None;
        let mut least = i32::MAX;
        for number in 0..MOST_BOTS {
            let bot = air.bot(number);
            let moves = moves_between(bot.at, post);
            if bot.active && !self.is_busy(number) && moves < least {
                least = moves;
                nearest = Some(number);
            }
        }
        nearest
    }

    /// The nearest free bot gets a part of a pole, which it voids from a column. Returns whether one does.
    fn send_to(
        &mut self,
        alloc: Global,
        air: &mut Airspace,
        part: PolePart,
        beside: Position,
    ) -> Result<bool, Memory> {
        if !air.is_side_void(part, beside) || self.is_column_used(beside) {
            return Ok(false);
        }
        let post = first_post(part, beside);
        let Some(bot) = self.nearest_free(air, post) else {
            return Ok(false);
        };
        let at = air.bot(bot).at;
        let Some(path) = self.searcher.route(alloc, &air.site, at, post)? else {
            return Ok(false);
        };
        air.mark_posted(bot, true);
        if let Some(errand) = self.errands.get_mut(usize::from(bot)) {
            *errand = Errand {
                bot,
                part,
                path,
                at: 0,
                blocked: 0,
                home: false,
                over: false,
            };
        }
        Ok(true)
    }

    /// Some bot gets a part of a pole, if it can come to one of its sides.
    fn send(&mut self, alloc: Global, air: &mut Airspace, part: PolePart) -> Result<bool, Memory> {
        self.searcher.count(WORK_TO_SEND);
        for (dx, dy, dz) in SIDES {
            let beside = part.pole.foot.plus(by(dx, dy, dz));
            if self.send_to(alloc, air, part, beside)? {
                return Ok(true);
            }
        }
        Ok(false)
    }

    /// All parts that no bot has had get one, as far as there are any. Returns how many are left.
    fn send_all(&mut self, alloc: Global, air: &mut Airspace) -> Result<usize, Memory> {
        let mut left = 0usize;
        let mut free = self.has_free(air);
        for i in 0..self.parts.len() {
            let Some(part) = self.part(i) else {
                break;
            };
            if part.taken {
                continue;
            }
            if !free || !self.send(alloc, air, part)? {
                left = left.saturating_add(1);
                continue;
            }
            if let Some(place) = self.parts.get_mut(i) {
                place.taken = true;
            }
            free = self.has_free(air);
        }
        Ok(left)
    }

    /// A bot goes on along its path. One that is blocked again and again goes aside and looks for another path.
    fn go_on(&mut self, alloc: Global, air: &mut Airspace, i: usize) -> Result<(), Memory> {
        let Some(errand) = self.errands.get_mut(i) else {
            return Ok(());
        };
        let went = air.go_along(errand.bot, errand.path.as_slice(), errand.at);
        errand.at = errand.at.saturating_add(went);
        if went > 0 {
            errand.blocked = 0;
            return Ok(());
        }
        errand.blocked = errand.blocked.saturating_add(1);
        if errand.blocked <= 3 {
            return Ok(());
        }
        errand.blocked = 0;
        let end = match errand.path.last() {
            Some(end) => *end,
            None => return Ok(()),
        };
        if !air.step_aside(errand.bot) {
            return Ok(());
        }
        let at = air.bot(errand.bot).at;
        let found = self.searcher.route(alloc, &air.site, at, end)?;
        if let Some(path) = found {
            errand.path = path;
            errand.at = 0;
        }
        Ok(())
    }

    /// A bot whose part is void goes back into the sky. Returns whether it can.
    fn send_back(&mut self, alloc: Global, air: &mut Airspace, i: usize) -> Result<bool, Memory> {
        let Some(errand) = self.errands.get_mut(i) else {
            return Ok(true);
        };
        let at = air.bot(errand.bot).at;
        let found = self
            .searcher
            .path_to(alloc, &air.site, at, SearchGoal::Sky)?;
        let Some(path) = found else {
            return Ok(false);
        };
        errand.path = reversed(alloc, path.as_slice())?;
        errand.at = air.go_along(errand.bot, errand.path.as_slice(), 0);
        errand.home = true;
        errand.over = errand.path.len() < 2;
        Ok(true)
    }

    /// A bot does its part of an errand in this step. Returns whether all is well.
    fn act(&mut self, alloc: Global, air: &mut Airspace, i: usize) -> Result<bool, Memory> {
        let Some(errand) = self.errands.get_mut(i) else {
            return Ok(true);
        };
        if errand.over {
            return Ok(true);
        }
        let (bot, part) = (errand.bot, errand.part);
        if errand.at.saturating_add(1) < errand.path.len() {
            self.go_on(alloc, air, i)?;
            return Ok(true);
        }
        if errand.home {
            errand.over = true;
            return Ok(true);
        }
        if air.void_part(bot, part) {
            return Ok(true);
        }
        match air.next_voxel(part) {
            Some(y) => air.go_to_voxel(bot, part, y),
            None => return self.send_back(alloc, air, i),
        }
        Ok(true)
    }

    /// All bots with errands act. Returns whether all is well.
    fn act_all(&mut self, alloc: Global, air: &mut Airspace) -> Result<bool, Memory> {
        for i in 0..self.errands.len() {
            if !self.act(alloc, air, i)? {
                return Ok(false);
            }
        }
        Ok(true)
    }

    /// Keeps which bots have errands. Returns how many have none.
    fn post_all(&self, air: &mut Airspace) -> usize {
        let mut free = 0usize;
        for number in 0..MOST_BOTS {
            let posted = self.has_errand(number);
            air.mark_posted(number, posted);
            free = free.saturating_add(usize::from(air.bot(number).active && !posted));
        }
        free
    }

    /// One step. Returns whether all is well.
    fn step(&mut self, alloc: Global, air: &mut Airspace, left: usize) -> Result<bool, Memory> {
        air.begin_step();
        if !self.act_all(alloc, air)? {
            return Ok(false);
        }
        let free = self.post_all(air);
        air.retire_nearest(free.saturating_sub(left));
        air.end_step()?;
        Ok(true)
    }

    /// Returns whether no bot has an errand.
    fn is_idle(&self) -> bool {
        for errand in self.errands.as_slice() {
            if !errand.over {
                return false;
            }
        }
        true
    }
}

/// All poles are taken away. Returns whether they are.
pub(crate) fn clear_poles(
    alloc: Global,
    air: &mut Airspace,
    poles: &[TemporaryPole],
) -> Result<bool, Memory> {
    let mut clearing = Clearing {
        parts: parts_of(alloc, poles)?,
        errands: no_errands(alloc)?,
        searcher: Searcher::new(alloc, &air.site)?,
    };
    for _ in 0..MOST_STEPS {
        let left = clearing.send_all(alloc, air)?;
        if clearing.is_idle() {
            return Ok(left == 0);
        }
        if clearing.searcher.is_over() || !clearing.step(alloc, air, left)? {
            return Ok(false);
        }
    }
    Ok(false)
}
