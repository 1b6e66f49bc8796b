//! All squads: they spread from the first bot by halves, build each alone, and gather in the reverse order.
use crate::clearing::clear_all;
use crate::poles::Pole;
use crate::spots::{Spot, nowhere, stride};
use crate::squad::{Squad, Stance};
use crate::strips::{Columns, Strip};
use crate::tasks::Task;
use crate::yard::Yard;
use nano_spec::CommandList;
use std::alloc::Global;
use vox_geom::{Diff, Memory};
use vox_planes::Planes;

/// More steps than any useful plan takes.
const MOST_STEPS: u32 = 1_073_741_824;

/// More moves than any path along x has.
const MOST_MOVES: u32 = 100;

/// The most voxels that a squad of two fills in a step.
const MOST_RUN: u64 = 31;

/// The most squads.
const MOST_SQUADS: u8 = 40;

/// The most work for each voxel of a model's space.
const WORK_EACH: u64 = 8;

/// The most work on top of that.
const MOST_WORK: u64 = 8_000_000;

/// The manner of building: the most squads, whether each has two bots, the width of their lanes from 1 to 3 columns, whether x and
/// z are exchanged, whether overhanging parts get poles, whether all is voided instead of built, and the limit of steps.
#[derive(Clone, Copy, Debug)]
pub struct Manner {
    pub squads: u8,
    pub pairs: bool,
    pub lane: u8,
    pub turned: bool,
    pub poles: bool,
    pub down: bool,
    pub most: u64,
}

/// The origin of a squad from another one: the round, and the number of seeds.
#[derive(Clone, Copy)]
struct Birth {
    parent: usize,
    child: usize,
    round: u8,
    seeds: u8,
}

/// Neighboring squads before they spread: the index of the first one, and the seeds of its bot.
#[derive(Clone, Copy)]
pub(crate) struct Troop {
    pub(crate) low: usize,
    high: usize,
    pub(crate) seed: u8,
}

/// All squads, in ascending order of columns, with their origins.
#[derive(Drop)]
pub(crate) struct Team {
    pub(crate) yard: Yard,
    squads: Vec<Squad>,
    births: Vec<Birth>,
    poles: Vec<Pole>,
    rounds: u8,
    each: u8,
    work: u64,
}

/// Returns the most voxels that squads fill within the limit of steps.
fn most_filled(manner: Manner) -> u64 {
    let each = if manner.pairs { MOST_RUN } else { 1 };
    let squads = u64::from(manner.squads.min(MOST_SQUADS));
    manner.most.saturating_mul(squads).saturating_mul(each)
}

/// Returns a difference along x.
fn along_x(dx: i16) -> Diff {
    Diff { dx, ..nowhere() }
}

impl Team {
    /// Starts before the first step. Returns `None` if there are more voxels than can be filled in time, or if poles are required
    /// but impossible or of no use.
    fn begin(alloc: Global, target: &Planes, manner: Manner) -> Result<Option<Team>, Memory> {
        let each = if manner.pairs { 2 } else { 1 };
        let count = manner.squads.min(MOST_SQUADS);
        let bots = count.saturating_mul(each);
        let mut yard = Yard::begin(alloc, target, bots, manner.turned, manner.down)?;
        if yard.site().wanted_voxels() > most_filled(manner) {
            return Ok(None);
        }
        let mut poles = Vec::new(alloc);
        if manner.poles {
            match yard.plant(alloc)? {
                Some(planted) if !planted.is_empty() => poles = planted,
                _ => return Ok(None),
            }
        }
        Ok(Some(Team {
            squads: squads_of(alloc, &yard, count, manner.lane)?,
            yard,
            births: Vec::new(alloc),
            poles,
            rounds: 0,
            each,
            work: 0,
        }))
    }

    /// Returns one squad for each of some strips, of `each` bots.
    pub(crate) fn over(
        alloc: Global,
        yard: Yard,
        strips: &[Strip],
        each: u8,
    ) -> Result<Team, Memory> {
        Ok(Team {
            squads: squads_over(alloc, &yard, strips)?,
            yard,
            births: Vec::new(alloc),
            poles: Vec::new(alloc),
            rounds: 0,
            each,
            work: 0,
        })
    }

    /// Returns the leading bot of a squad.
    pub(crate) fn lead(&self, number: usize) -> u8 {
        match self.squads.get(number) {
            Some(squad) => squad.lead,
            None => 0,
        }
    }

    /// Returns the first column of a squad.
    fn stand(&self, number: usize) -> i16 {
        match self.squads.get(number) {
            Some(squad) => squad.stand.x,
            None => 0,
        }
    }

    /// Moves all bots along x to the first columns of their squads, at the same time.
    fn line_up(&mut self) -> Result<(), Memory> {
        for _ in 0..MOST_MOVES {
            let mut moves = false;
            for number in 0..self.squads.len() {
                let lead = self.lead(number);
                if self.is_there(number) {
                    let way = self.stand(number).wrapping_sub(self.yard.spot(lead).x);
                    self.yard.go(lead, along_x(stride(way)));
                    moves = moves || way != 0;
                }
            }
            if !moves {
                break;
            }
            self.yard.step()?;
        }
        Ok(())
    }

    /// Returns whether a squad has its bot: the first one has, and those with a bot of their own.
    fn is_there(&self, number: usize) -> bool {
        number == 0 || self.lead(number) > 0
    }

    /// Splits each troop of two squads or more: the bot of its first squad makes that of the middle one.
    fn split(&mut self, troops: &mut Vec<Troop>) -> Result<(), Memory> {
        let each = usize::from(self.each);
        for i in 0..troops.len() {
            let Some(troop) = troops.get_mut(i) else {
                break;
            };
            let Troop { low, high, seed } = *troop;
            if high.saturating_sub(low) < 2 {
                continue;
            }
            let middle = low.wrapping_add(high).wrapping_add(1) / 2;
            let bots = each.wrapping_mul(high.saturating_sub(middle)).min(100) as u8;
            *troop = Troop {
                low,
                high: middle,
                seed: seed.wrapping_add(bots),
            };
            let later = Troop {
                low: middle,
                high,
                seed: seed.wrapping_add(1),
            };
            troops.push(later).map_err(|_| Memory)?;
            self.bear(low, middle, seed, bots)?;
        }
        Ok(())
    }

    /// Splits the bot of a squad into that of another one, at this index in the list of bots.
    fn bear(&mut self, parent: usize, child: usize, number: u8, bots: u8) -> Result<(), Memory> {
        let seeds = bots.saturating_sub(1);
        let lead = self.lead(parent);
        self.yard
            .order(lead, Task::Split(along_x(1), number, seeds));
        if let Some(squad) = self.squads.get_mut(child) {
            squad.lead = number;
        }
        let birth = Birth {
            parent,
            child,
            round: self.rounds,
            seeds,
        };
        self.births.push(birth).map_err(|_| Memory)
    }

    /// Marks the bots made in this round as present.
    fn arrive(&mut self) {
        for i in 0..self.births.len() {
            if let Some(birth) = self.births.get(i) {
                let Birth {
                    parent,
                    child,
                    round,
                    ..
                } = *birth;
                if round == self.rounds {
                    let at = self.yard.spot(self.lead(parent)).plus(along_x(1));
                    let lead = self.lead(child);
                    self.yard.arrive(lead, at);
                }
            }
        }
    }

    /// Moves the first bot to its column, and splits each troop until all squads have a bot of their own. Returns troops of one
    /// squad each.
    pub(crate) fn spread(&mut self, alloc: Global) -> Result<Vec<Troop>, Memory> {
        self.line_up()?;
        let mut troops = Vec::new(alloc);
        let all = Troop {
            low: 0,
            high: self.squads.len(),
            seed: 1,
        };
        troops.push(all).map_err(|_| Memory)?;
        for _ in 0..8 {
            let before = troops.len();
            self.split(&mut troops)?;
            if troops.len() == before {
                break;
            }
            self.yard.step()?;
            self.arrive();
            self.rounds = self.rounds.saturating_add(1);
            self.line_up()?;
        }
        Ok(troops)
    }

    /// Splits the bot of each squad to make the second one.
    fn pair_off(&mut self, troops: &[Troop]) -> Result<(), Memory> {
        let on = Diff { dz: 1, ..nowhere() };
        for troop in troops {
            let lead = self.lead(troop.low);
            self.yard.order(lead, Task::Split(on, troop.seed, 0));
            if let Some(squad) = self.squads.get_mut(troop.low) {
                squad.mate = Some(troop.seed);
            }
        }
        self.yard.step()?;
        for troop in troops {
            let at = self.yard.spot(self.lead(troop.low)).plus(on);
            self.yard.arrive(troop.seed, at);
        }
        Ok(())
    }

    /// Gives each squad its turn in a step. Returns whether one acts, and whether all are home.
    fn turns(&mut self) -> Result<(bool, bool), Memory> {
        let float = self.yard.is_high();
        let (mut acts, mut home) = (false, true);
        let mut work = 0u64;
        for i in 0..self.squads.len() {
            if let Some(squad) = self.squads.get_mut(i) {
                let mut turn = squad.turn(&mut self.yard, false)?;
                if turn == Stance::Waits && float {
                    turn = squad.turn(&mut self.yard, true)?;
                }
                acts = acts || turn == Stance::Acts;
                home = home && turn == Stance::IsHome;
                work = work.saturating_add(squad.work);
            }
        }
        self.work = work;
        Ok((acts, home))
    }

    /// Has all squads choose their jobs again.
    fn reconsider(&mut self) {
        for i in 0..self.squads.len() {
            if let Some(squad) = self.squads.get_mut(i) {
                squad.reconsider();
            }
        }
    }

    /// Switches to Low once nothing floats.
    fn calm(&mut self) -> Result<(), Memory> {
        if self.yard.is_high() && !self.yard.some_float() {
            self.yard.flip()?;
            self.reconsider();
        }
        Ok(())
    }

    /// Returns whether the squads exceed the limit of steps or of work: models with long paths cost them more than they gain.
    fn is_over(&self, most: u64) -> bool {
        let voxels = self.yard.site().count() as u64;
        let allowed = voxels.saturating_mul(WORK_EACH).saturating_add(MOST_WORK);
        self.yard.steps() > most || self.work > allowed
    }

    /// Has all squads build and come home. Returns whether they do, within the limit of steps.
    fn work(&mut self, alloc: Global, most: u64) -> Result<bool, Memory> {
        for _ in 0..MOST_STEPS {
            let (acts, home) = self.turns()?;
            if home {
                return Ok(true);
            }
            if acts {
                self.yard.step()?;
                self.calm()?;
            } else if self.yard.is_high() {
                return Ok(false);
            } else {
                self.yard.watch(alloc)?;
                self.yard.flip()?;
            }
            if self.is_over(most) {
                return Ok(false);
            }
        }
        Ok(false)
    }

    /// Moves the bots made in a round next to those that made them.
    fn approach(&mut self, round: u8) -> Result<(), Memory> {
        for i in 0..self.births.len() {
            if let Some(birth) = self.births.get(i) {
                let Birth {
                    parent,
                    child,
                    round: of,
                    ..
                } = *birth;
                let to = self.stand(parent).wrapping_add(1);
                if of == round {
                    if let Some(squad) = self.squads.get_mut(child) {
                        squad.stand = Spot {
                            x: to,
                            ..Spot::home()
                        };
                    }
                }
            }
        }
        self.line_up()
    }

    /// Fuses the bots made in a round into those that made them.
    fn unite(&mut self, round: u8) -> Result<(), Memory> {
        for i in 0..self.births.len() {
            if let Some(birth) = self.births.get(i) {
                let Birth {
                    parent,
                    child,
                    round: of,
                    seeds,
                } = *birth;
                if of == round {
                    let (lead, join) = (self.lead(parent), self.lead(child));
                    self.yard
                        .order(lead, Task::FuseAsPrimary(along_x(1), join, seeds));
                    self.yard.order(join, Task::FuseAsSecondary(along_x(-1)));
                    if let Some(squad) = self.squads.get_mut(child) {
                        squad.lead = 0;
                    }
                }
            }
        }
        self.yard.step()
    }

    /// Fuses all bots into one, and moves it home.
    pub(crate) fn gather(&mut self) -> Result<(), Memory> {
        for k in 0..self.rounds {
            let round = self.rounds.saturating_sub(1).saturating_sub(k);
            self.approach(round)?;
            self.unite(round)?;
        }
        for _ in 0..MOST_MOVES {
            if !self.yard.return_to(0, Spot::home()) {
                break;
            }
            self.yard.step()?;
        }
        Ok(())
    }
}

/// Returns at most `count` squads over the columns to build, in lanes of this width.
fn squads_of(alloc: Global, yard: &Yard, count: u8, lane: u8) -> Result<Vec<Squad>, Memory> {
    let columns = Columns::of(alloc, yard.site(), i16::from(lane.max(1).min(3)))?;
    let strips = columns.strips(alloc, count)?;
    squads_over(alloc, yard, strips.as_slice())
}

/// Returns a squad for each of some strips.
fn squads_over(alloc: Global, yard: &Yard, strips: &[Strip]) -> Result<Vec<Squad>, Memory> {
    let mut squads = Vec::with_capacity(alloc, strips.len())?;
    for strip in strips {
        let squad = Squad::begin(alloc, yard, *strip)?;
        squads.push(squad).map_err(|_| Memory)?;
    }
    Ok(squads)
}

/// Returns the commands of squads that build a target from nothing, or, undone, take it down: under Low except when no more
/// attached voxel can be filled. Returns `None` if they take more steps than the manner allows, or if it requires poles that are
/// impossible or of no use.
pub fn squads(
    alloc: Global,
    target: &Planes,
    manner: Manner,
) -> Result<Option<CommandList>, Memory> {
    let Some(mut team) = Team::begin(alloc, target, manner)? else {
        return Ok(None);
    };
    let troops = team.spread(alloc)?;
    if manner.pairs {
        team.pair_off(troops.as_slice())?;
    }
    if !team.work(alloc, manner.most)? {
        return Ok(None);
    }
    team.gather()?;
    if !clear_all(alloc, &mut team.yard, team.poles.as_slice(), manner.most)? {
        return Ok(None);
    }
    if team.yard.is_high() {
        team.yard.flip()?;
    }
    Ok(Some(team.yard.into_commands()?))
}
