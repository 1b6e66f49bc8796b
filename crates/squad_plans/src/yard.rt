//! Bots at work: the voxels they filled, their positions, and the commands of the steps so far.
use crate::links::Links;
use crate::poles::{Pole, plant_all};
use crate::site::Site;
use crate::spots::{Spot, nowhere, stride};
use crate::tasks::{Task, command_of, opposite, undoing};
use nano_spec::{Command, CommandList};
use std::alloc::Global;
use vox_geom::{Diff, Memory};
use vox_planes::Planes;

/// A bot: its position after its action in this step, and whether it is present.
#[derive(Clone, Copy, Debug)]
struct Worker {
    at: Spot,
    task: Task,
    active: bool,
}

/// A bot and its goal along one axis.
#[derive(Clone, Copy, Debug)]
pub(crate) struct Goal {
    pub(crate) bot: u8,
    pub(crate) to: Spot,
}

/// More moves than any path has.
const MOST_MOVES: u32 = 100;

/// The most voxels visited in searches for paths.
const MOST_SEARCHED: u64 = 40_000_000;

/// The action of a bot in a step.
#[derive(Clone, Copy, Debug)]
struct Doing {
    number: u8,
    task: Task,
}

/// The bots, in ascending order of bids, and their model. The commands of a descent are written at the end: until then actions are
/// kept, with their number after each step.
#[derive(Drop)]
pub(crate) struct Yard {
    site: Site,
    links: Option<Links>,
    workers: Vec<Worker>,
    commands: CommandList,
    turned: bool,
    high: bool,
    keeps: bool,
    doings: Vec<Doing>,
    ends: Vec<usize>,
    steps: u64,
    searched: u64,
}

impl Yard {
    /// Starts before the first step, with room for this many bots, to build or to take down.
    pub(crate) fn begin(
        alloc: Global,
        target: &Planes,
        bots: u8,
        turned: bool,
        down: bool,
    ) -> Result<Yard, Memory> {
        let site = Site::of(alloc, target, turned)?;
        let worker = Worker {
            at: Spot::home(),
            task: Task::Wait,
            active: false,
        };
        let mut yard = Yard {
            site,
            links: None,
            workers: vec![in alloc; worker; usize::from(bots)]?,
            commands: CommandList::new(alloc),
            turned,
            high: false,
            keeps: down,
            doings: Vec::new(alloc),
            ends: Vec::new(alloc),
            steps: 0,
            searched: 0,
        };
        yard.arrive(0, Spot::home());
        Ok(yard)
    }

    /// Returns the voxels.
    pub(crate) fn site(&self) -> &Site {
        &self.site
    }

    /// Returns whether harmonics are High.
    pub(crate) fn is_high(&self) -> bool {
        self.high
    }

    /// Starts to track whether something floats. Until then nothing does.
    pub(crate) fn watch(&mut self, alloc: Global) -> Result<(), Memory> {
        if self.links.is_none() {
            self.links = Some(Links::begin(alloc, &self.site)?);
        }
        Ok(())
    }

    /// Returns whether some full voxel is not grounded.
    pub(crate) fn some_float(&self) -> bool {
        match &self.links {
            Some(links) => links.some_float(),
            None => false,
        }
    }

    /// Returns the number of steps.
    pub(crate) fn steps(&self) -> u64 {
        self.steps
    }

    /// Returns the position of a bot.
    pub(crate) fn spot(&self, number: u8) -> Spot {
        match self.workers.get(usize::from(number)) {
            Some(worker) => worker.at,
            None => Spot::home(),
        }
    }

    /// Adds a bot at a position from the next step on.
    pub(crate) fn arrive(&mut self, number: u8, at: Spot) {
        if let Some(worker) = self.workers.get_mut(usize::from(number)) {
            worker.at = at;
            worker.active = true;
        }
    }

    /// Sets the action of a bot in this step.
    pub(crate) fn order(&mut self, number: u8, task: Task) {
        if let Some(worker) = self.workers.get_mut(usize::from(number)) {
            worker.task = task;
            if let Task::Move(d) = task {
                worker.at = worker.at.plus(d);
            }
        }
    }

    /// Moves a bot in this step.
    pub(crate) fn go(&mut self, number: u8, d: Diff) {
        if d != nowhere() {
            self.order(number, Task::Move(d));
        }
    }

    /// Moves a bot towards a position along z, then y, then x. Returns whether it was not there.
    pub(crate) fn return_to(&mut self, number: u8, to: Spot) -> bool {
        let way = self.spot(number).to(to);
        let none = nowhere();
        let d = if way.dz != 0 {
            Diff {
                dz: stride(way.dz),
                ..none
            }
        } else if way.dy != 0 {
            Diff {
                dy: stride(way.dy),
                ..none
            }
        } else {
            Diff {
                dx: stride(way.dx),
                ..none
            }
        };
        self.go(number, d);
        d != none
    }

    /// Moves bots towards their goals in this step, and returns whether one moves.
    fn approach(&mut self, goals: &[Goal]) -> bool {
        let mut moves = false;
        for goal in goals {
            let way = self.spot(goal.bot).to(goal.to);
            let d = Diff {
                dx: stride(way.dx),
                dy: stride(way.dy),
                dz: stride(way.dz),
            };
            self.go(goal.bot, d);
            moves = moves || d != nowhere();
        }
        moves
    }

    /// Moves bots to their goals at the same time.
    pub(crate) fn go_all(&mut self, goals: &[Goal]) -> Result<(), Memory> {
        for _ in 0..MOST_MOVES {
            if !self.approach(goals) {
                break;
            }
            self.step()?;
        }
        Ok(())
    }

    /// Marks a voxel as filled in this step.
    pub(crate) fn make(&mut self, c: Spot) {
        self.site.make(c);
        if let Some(links) = &mut self.links {
            links.add(&self.site, c);
        }
    }

    /// Returns whether the limit allows another search of all voxels for a path.
    pub(crate) fn may_search(&mut self) -> bool {
        let count = self.site.count() as u64;
        self.searched = self.searched.saturating_add(count);
        self.searched <= MOST_SEARCHED
    }

    /// Marks all voxels of the target as filled.
    pub(crate) fn make_all(&mut self) {
        self.site.make_all();
    }

    /// Fills a voxel with a bot in this step.
    pub(crate) fn fill(&mut self, number: u8, c: Spot) {
        let d = self.spot(number).to(c);
        self.order(number, Task::Fill(d));
        self.make(c);
    }

    /// Voids a voxel with a bot in this step, for good.
    pub(crate) fn void(&mut self, number: u8, c: Spot) {
        let d = self.spot(number).to(c);
        self.order(number, Task::Void(d));
        self.site.clear(c);
    }

    /// Plants poles under all overhanging parts. Returns `None` if a part can get none.
    pub(crate) fn plant(&mut self, alloc: Global) -> Result<Option<Vec<Pole>>, Memory> {
        plant_all(alloc, &mut self.site)
    }

    /// Writes the command of a bot, or keeps its action; then frees it, or removes it if it fused.
    fn finish(&mut self, number: u8) -> Result<(), Memory> {
        let Some(worker) = self.workers.get_mut(usize::from(number)) else {
            return Ok(());
        };
        let task = worker.task;
        let was_active = worker.active;
        worker.task = Task::Wait;
        if let Task::FuseAsSecondary(_) = task {
            worker.active = false;
        }
        if !was_active {
            return Ok(());
        }
        if !self.keeps {
            return self.commands.push(command_of(task, self.turned));
        }
        if let Task::Wait = task {
            return Ok(());
        }
        self.doings.push(Doing { number, task }).map_err(|_| Memory)
    }

    /// Ends the step: writes its commands, or keeps its actions.
    pub(crate) fn step(&mut self) -> Result<(), Memory> {
        for number in 0..self.workers.len().min(100) {
            self.finish(number as u8)?;
        }
        self.steps = self.steps.wrapping_add(1);
        if self.keeps {
            let end = self.doings.len();
            self.ends.push(end).map_err(|_| Memory)?;
        }
        Ok(())
    }

    /// Adds a step in which the first bot changes the harmonics.
    pub(crate) fn flip(&mut self) -> Result<(), Memory> {
        self.order(0, Task::Flip);
        self.high = !self.high;
        self.step()
    }

    /// Returns the action with an index, if there is one.
    fn doing(&self, number: usize) -> Option<Doing> {
        match self.doings.get(number) {
            Some(doing) => Some(*doing),
            None => None,
        }
    }

    /// Sets the actions that undo some actions. A bot that was made by them fuses.
    fn order_undoing(&mut self, from: usize, to: usize) {
        for i in from..to {
            let Some(doing) = self.doing(i) else {
                break;
            };
            let task = undoing(doing.task);
            if let Task::FuseAsPrimary(d, child, _) = task {
                self.order(child, Task::FuseAsSecondary(opposite(d)));
            }
            if let Task::Wait = task {
                continue;
            }
            self.order(doing.number, task);
        }
    }

    /// Adds the bots that fused in some actions.
    fn bring_back(&mut self, from: usize, to: usize) {
        for i in from..to {
            let Some(doing) = self.doing(i) else {
                break;
            };
            if let Task::FuseAsPrimary(_, child, _) = doing.task {
                self.arrive(child, Spot::home());
            }
        }
    }

    /// Returns the number of actions before a step's.
    fn end_before(&self, step: usize) -> usize {
        match self.ends.get(step.wrapping_sub(1)) {
            Some(end) => *end,
            None => 0,
        }
    }

    /// Writes the actions that undo all steps, from the last on.
    fn undo(&mut self) -> Result<(), Memory> {
        self.keeps = false;
        let steps = self.ends.len();
        for k in 0..steps {
            let step = steps.saturating_sub(k);
            let (from, to) = (
                self.end_before(step.saturating_sub(1)),
                self.end_before(step),
            );
            self.order_undoing(from, to);
            self.step()?;
            self.bring_back(from, to);
        }
        Ok(())
    }

    /// Returns the commands that build, or those that take down.
    pub(crate) fn into_commands(mut self) -> Result<CommandList, Memory> {
        if self.keeps {
            self.undo()?;
        }
        self.commands.push(Command::Halt)?;
        Ok(self.commands)
    }
}
