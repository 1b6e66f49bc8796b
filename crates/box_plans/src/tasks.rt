//! A bot's task in a step, and the command for it.
use crate::positions::by;
use nano_spec::Command;
use vox_geom::{Diff, Far, Long, Near, Short};

/// A bot's task in a step. Differences start at the bot.
#[derive(Clone, Copy, Debug)]
pub(crate) enum BotTask {
    /// Does nothing.
    Wait,
    /// Moves along one axis.
    Move(Diff),
    /// Moves along one axis, and then along another.
    TwoLegMove(Diff, Diff),
    /// Fills a voxel.
    Fill(Diff),
    /// Voids a voxel.
    Void(Diff),
    /// Fills a box together with other bots. The box spans from the corner near this bot to the opposite one.
    Group(Diff, Diff),
    /// Voids a box in the same way.
    GroupVoid(Diff, Diff),
    /// Splits: the new bot, of this number, is at the difference.
    Split(Diff, u8),
    /// Fuses, as the primary, with the bot of this number at the difference.
    FuseAsPrimary(Diff, u8),
    /// Fuses, as the secondary, with the bot at the difference.
    FuseAsSecondary(Diff),
}

/// Returns the difference that leads back.
pub(crate) fn opposite(d: Diff) -> Diff {
    by(
        d.dx.wrapping_neg(),
        d.dy.wrapping_neg(),
        d.dz.wrapping_neg(),
    )
}

/// Returns the task that undoes a task. For `FuseAsSecondary` that is `Wait`, because the primary makes the bot anew.
pub(crate) fn undoing(task: BotTask) -> BotTask {
    match task {
        BotTask::Wait => BotTask::Wait,
        BotTask::Move(d) => BotTask::Move(opposite(d)),
        BotTask::TwoLegMove(d, e) => BotTask::TwoLegMove(opposite(e), opposite(d)),
        BotTask::Fill(d) => BotTask::Void(d),
        BotTask::Void(d) => BotTask::Fill(d),
        BotTask::Group(d, far) => BotTask::GroupVoid(d, far),
        BotTask::GroupVoid(d, far) => BotTask::Group(d, far),
        BotTask::Split(d, child) => BotTask::FuseAsPrimary(d, child),
        BotTask::FuseAsPrimary(d, child) => BotTask::Split(d, child),
        BotTask::FuseAsSecondary(_) => BotTask::Wait,
    }
}

/// Returns the command for a task, or `None` if a difference is too long for it. A new bot gets `seeds` seeds.
fn command_if_near(task: BotTask, seeds: u8) -> Option<Command> {
    match task {
        BotTask::Wait => Some(Command::Wait),
        BotTask::Move(d) => Some(Command::SMove(Long::of(d)?)),
        BotTask::TwoLegMove(d, e) => Some(Command::LMove(Short::of(d)?, Short::of(e)?)),
        BotTask::Fill(d) => Some(Command::Fill(Near::of(d)?)),
        BotTask::Void(d) => Some(Command::Void(Near::of(d)?)),
        BotTask::Group(d, far) => Some(Command::GFill(Near::of(d)?, Far::of(far)?)),
        BotTask::GroupVoid(d, far) => Some(Command::GVoid(Near::of(d)?, Far::of(far)?)),
        BotTask::Split(d, _) => Some(Command::Fission(Near::of(d)?, seeds)),
        BotTask::FuseAsPrimary(d, _) => Some(Command::FusionP(Near::of(d)?)),
        BotTask::FuseAsSecondary(d) => Some(Command::FusionS(Near::of(d)?)),
    }
}

/// Returns the command for a task, or a Wait if a difference is too long for it.
pub(crate) fn command_of(task: BotTask, seeds: u8) -> Command {
    match command_if_near(task, seeds) {
        Some(command) => command,
        None => Command::Wait,
    }
}
