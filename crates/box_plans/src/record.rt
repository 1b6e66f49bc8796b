//! The steps of a plan, kept so that they can be written as they are or undone from the last on.
//!
//! Bots have numbers here. Bids and seeds are dealt out only when the plan is written: a new bot gets the next seed of its parent,
//! and as many more as bots come from it.
use crate::tasks::{BotTask, command_of, opposite, undoing};
use nano_spec::{Command, CommandList};
use std::alloc::Global;
use vox_geom::Memory;

/// The most bots that there can be.
pub(crate) const MOST_BOTS: u8 = 40;

/// A task other than to wait, and the bot that had it.
#[derive(Clone, Copy, Debug)]
struct TaskNote {
    bot: u8,
    task: BotTask,
}

/// The tasks of all steps, and how many there were after each step.
#[derive(Drop)]
pub(crate) struct Record {
    doings: Vec<TaskNote>,
    ends: Vec<usize>,
}

impl Record {
    /// No step.
    pub(crate) fn new(alloc: Global) -> Record {
        Record {
            doings: Vec::new(alloc),
            ends: Vec::new(alloc),
        }
    }

    /// How many steps there are.
    pub(crate) fn steps(&self) -> usize {
        self.ends.len()
    }

    /// Keeps the task of a bot in this step.
    pub(crate) fn note(&mut self, bot: u8, task: BotTask) -> Result<(), Memory> {
        if let BotTask::Wait = task {
            return Ok(());
        }
        self.doings.push(TaskNote { bot, task }).map_err(|_| Memory)
    }

    /// Ends a step. One in which all bots wait is left out.
    pub(crate) fn end_step(&mut self) -> Result<(), Memory> {
        let end = self.doings.len();
        if end == self.end_before(self.ends.len()) {
            return Ok(());
        }
        self.ends.push(end).map_err(|_| Memory)
    }

    /// How many tasks there are before a step.
    fn end_before(&self, step: usize) -> usize {
        if step == 0 {
            return 0;
        }
        match self.ends.get(step.wrapping_sub(1)) {
            Some(end) => *end,
            None => 0,
        }
    }
}

/// A bot of a plan that is being written: its bid less one, whether it is there, its task, the next of its seeds, and how many bots
/// come from it, with itself.
#[derive(Clone, Copy, Debug)]
struct Member {
    bid: u8,
    active: bool,
    task: BotTask,
    seed: u8,
    size: u8,
}

/// Commands that are being written.
#[derive(Drop)]
pub(crate) struct Writer {
    commands: CommandList,
    members: Vec<Member>,
    by_bid: Vec<u8>,
}

impl Writer {
    /// Before the first step, with one bot, which has this number.
    pub(crate) fn begin(alloc: Global, first: u8) -> Result<Writer, Memory> {
        let none = Member {
            bid: 0,
            active: false,
            task: BotTask::Wait,
            seed: 1,
            size: 1,
        };
        let mut writer = Writer {
            commands: CommandList::new(alloc),
            members: vec![in alloc; none; usize::from(MOST_BOTS)]?,
            by_bid: vec![in alloc; first; usize::from(MOST_BOTS)]?,
        };
        if let Some(member) = writer.members.get_mut(usize::from(first)) {
            member.active = true;
        }
        Ok(writer)
    }

    /// A bot.
    fn member(&self, number: u8) -> Option<Member> {
        match self.members.get(usize::from(number)) {
            Some(member) => Some(*member),
            None => None,
        }
    }

    /// Gives a bot its task in this step.
    fn order(&mut self, number: u8, task: BotTask) {
        if let Some(member) = self.members.get_mut(usize::from(number)) {
            member.task = task;
        }
    }

    /// Counts the bots that come from a bot, if a task makes one. Tasks are counted from the last one on.
    fn count_children(&mut self, bot: u8, task: BotTask) {
        let BotTask::Split(_, child) = task else {
            return;
        };
        let Some(born) = self.member(child) else {
            return;
        };
        if let Some(member) = self.members.get_mut(usize::from(bot)) {
            member.size = member.size.saturating_add(born.size);
        }
    }

    /// A new bot gets its bid and its seeds.
    fn bear(&mut self, parent: u8, child: u8) {
        let (Some(mother), Some(born)) = (self.member(parent), self.member(child)) else {
            return;
        };
        let bid = mother.seed;
        if let Some(member) = self.members.get_mut(usize::from(child)) {
            member.bid = bid;
            member.seed = bid.saturating_add(1);
            member.active = true;
        }
        if let Some(member) = self.members.get_mut(usize::from(parent)) {
            member.seed = bid.saturating_add(born.size);
        }
        if let Some(number) = self.by_bid.get_mut(usize::from(bid)) {
            *number = child;
        }
    }

    /// The seeds that the child of a task gets.
    fn seeds_of(&self, task: BotTask) -> u8 {
        let BotTask::Split(_, child) = task else {
            return 0;
        };
        match self.member(child) {
            Some(member) => member.size.saturating_sub(1),
            None => 0,
        }
    }

    /// Writes the command of the bot with a bid, if it is there.
    fn write_command(&mut self, bid: u8) -> Result<(), Memory> {
        let number = match self.by_bid.get(usize::from(bid)) {
            Some(number) => *number,
            None => return Ok(()),
        };
        match self.member(number) {
            Some(member) if member.active && member.bid == bid => {
                let seeds = self.seeds_of(member.task);
                self.commands.push(command_of(member.task, seeds))
            }
            _ => Ok(()),
        }
    }

    /// A bot is free again after a step, or gone; one that it made is there.
    fn finish(&mut self, number: u8) {
        let Some(member) = self.member(number) else {
            return;
        };
        if let Some(member) = self.members.get_mut(usize::from(number)) {
            member.task = BotTask::Wait;
        }
        match member.task {
            BotTask::FuseAsSecondary(_) => self.leave(number),
            BotTask::Split(_, child) => self.bear(number, child),
            _ => {}
        }
    }

    /// A bot is gone.
    fn leave(&mut self, number: u8) {
        if let Some(member) = self.members.get_mut(usize::from(number)) {
            member.active = false;
        }
    }

    /// Writes a step, and ends it.
    fn write_step(&mut self) -> Result<(), Memory> {
        for bid in 0..MOST_BOTS {
            self.write_command(bid)?;
        }
        for number in 0..MOST_BOTS {
            self.finish(number);
        }
        Ok(())
    }

    /// Gives all bots their tasks in a step.
    fn order_step(&mut self, record: &Record, from: usize, to: usize) {
        for i in from..to {
            if let Some(doing) = record.doings.get(i) {
                self.order(doing.bot, doing.task);
            }
        }
    }

    /// Gives all bots the tasks that undo a step. A bot that was made in it is taken up.
    fn order_undoing(&mut self, record: &Record, from: usize, to: usize) {
        for i in from..to {
            let Some(doing) = record.doings.get(i) else {
                break;
            };
            let TaskNote { bot, task } = *doing;
            let task = undoing(task);
            if let BotTask::FuseAsPrimary(d, child) = task {
                self.order(child, BotTask::FuseAsSecondary(opposite(d)));
            }
            if let BotTask::Wait = task {
                continue;
            }
            self.order(bot, task);
        }
    }

    /// Counts the bots that come from each one.
    fn count_forwards(&mut self, record: &Record) {
        let count = record.doings.len();
        for k in 0..count {
            let i = count.wrapping_sub(k).wrapping_sub(1);
            if let Some(doing) = record.doings.get(i) {
                let TaskNote { bot, task } = *doing;
                self.count_children(bot, task);
            }
        }
    }

    /// Counts the bots that come from each one if the steps are undone.
    fn count_backwards(&mut self, record: &Record) {
        for i in 0..record.doings.len() {
            if let Some(doing) = record.doings.get(i) {
                let TaskNote { bot, task } = *doing;
                self.count_children(bot, undoing(task));
            }
        }
    }

    /// Writes all steps.
    pub(crate) fn write_forwards(&mut self, record: &Record) -> Result<(), Memory> {
        self.count_forwards(record);
        for step in 0..record.steps() {
            let (from, to) = (
                record.end_before(step),
                record.end_before(step.wrapping_add(1)),
            );
            self.order_step(record, from, to);
            self.write_step()?;
        }
        Ok(())
    }

    /// Writes what undoes all steps, from the last on.
    pub(crate) fn write_backwards(&mut self, record: &Record) -> Result<(), Memory> {
        self.count_backwards(record);
        let steps = record.steps();
        for k in 0..steps {
            let step = steps.wrapping_sub(k);
            let (from, to) = (
                record.end_before(step.wrapping_sub(1)),
                record.end_before(step),
            );
            self.order_undoing(record, from, to);
            self.write_step()?;
        }
        Ok(())
    }

    /// The commands, with a Halt at the end.
    pub(crate) fn into_commands(mut self) -> Result<CommandList, Memory> {
        self.commands.push(Command::Halt)?;
        Ok(self.commands)
    }
}
