//! The action of a bot in a step, and the command for it.
use crate::spots::nowhere;
use nano_spec::Command;
use vox_geom::{Diff, Far, Long, Near, Short};

/// The action of a bot in a step. Differences are relative to the bot.
#[derive(Clone, Copy, Debug)]
pub(crate) enum Task {
    /// Does nothing.
    Wait,
    /// Changes the harmonics.
    Flip,
    /// Moves along one axis, or along x and z.
    Move(Diff),
    /// Fills a voxel.
    Fill(Diff),
    /// Voids a voxel.
    Void(Diff),
    /// Fills a run along z together with another bot: from the voxel near this bot, by this difference.
    Run(Diff, i16),
    /// Voids a run in the same way.
    VoidRun(Diff, i16),
    /// Voids a rectangle of a layer together with three other bots: from the voxel near this bot, by these differences along x and
    /// along z.
    VoidPlane(Diff, i16, i16),
    /// Fills a rectangle in the same way.
    FillPlane(Diff, i16, i16),
    /// Makes the bot with this index at a difference, with this number of seeds.
    Split(Diff, u8, u8),
    /// Fuses with the bot at a difference, as the primary; the other has this index and this number of seeds.
    FuseAsPrimary(Diff, u8, u8),
    /// Fuses with the bot at a difference, as the secondary.
    FuseAsSecondary(Diff),
}

/// Returns the difference, with x and z exchanged if `turned`.
fn turn(d: Diff, turned: bool) -> Diff {
    if turned {
        Diff {
            dx: d.dz,
            dy: d.dy,
            dz: d.dx,
        }
    } else {
        d
    }
}

/// Returns a difference along z.
fn along_z(dz: i16) -> Diff {
    Diff { dz, ..nowhere() }
}

/// Returns the opposite difference.
pub fn opposite(d: Diff) -> Diff {
    Diff {
        dx: d.dx.wrapping_neg(),
        dy: d.dy.wrapping_neg(),
        dz: d.dz.wrapping_neg(),
    }
}

/// Returns the task that undoes another one. A bot that fuses is made again by the primary, so it does nothing.
pub(crate) fn undoing(task: Task) -> Task {
    match task {
        Task::Wait => Task::Wait,
        Task::Flip => Task::Flip,
        Task::Move(d) => Task::Move(opposite(d)),
        Task::Fill(d) => Task::Void(d),
        Task::Void(d) => Task::Fill(d),
        Task::Run(d, length) => Task::VoidRun(d, length),
        Task::VoidRun(d, length) => Task::Run(d, length),
        Task::VoidPlane(d, dx, dz) => Task::FillPlane(d, dx, dz),
        Task::FillPlane(d, dx, dz) => Task::VoidPlane(d, dx, dz),
        Task::Split(d, child, seeds) => Task::FuseAsPrimary(d, child, seeds),
        Task::FuseAsPrimary(d, child, seeds) => Task::Split(d, child, seeds),
        Task::FuseAsSecondary(_) => Task::Wait,
    }
}

/// Returns the move by a difference, or `None` if it is neither along one axis nor along x and z.
pub fn move_by(d: Diff) -> Option<Command> {
    if d.dx == 0 || d.dz == 0 {
        return Some(Command::SMove(Long::of(d)?));
    }
    let along_x = Short::of(Diff { dz: 0, ..d })?;
    let along_z = Short::of(Diff { dx: 0, ..d })?;
    Some(Command::LMove(along_x, along_z))
}

/// Returns the command for a task, with x and z exchanged if `turned`, or `None` if a difference is too long.
fn command_if_near(task: Task, turned: bool) -> Option<Command> {
    match task {
        Task::Wait => Some(Command::Wait),
        Task::Flip => Some(Command::Flip),
        Task::Move(d) => move_by(turn(d, turned)),
        Task::Fill(d) => Some(Command::Fill(Near::of(turn(d, turned))?)),
        Task::Void(d) => Some(Command::Void(Near::of(turn(d, turned))?)),
        Task::Run(d, length) => Some(Command::GFill(
            Near::of(turn(d, turned))?,
            Far::of(turn(along_z(length), turned))?,
        )),
        Task::VoidRun(d, length) => Some(Command::GVoid(
            Near::of(turn(d, turned))?,
            Far::of(turn(along_z(length), turned))?,
        )),
        Task::VoidPlane(d, dx, dz) => Some(Command::GVoid(
            Near::of(turn(d, turned))?,
            Far::of(turn(Diff { dx, dy: 0, dz }, turned))?,
        )),
        Task::FillPlane(d, dx, dz) => Some(Command::GFill(
            Near::of(turn(d, turned))?,
            Far::of(turn(Diff { dx, dy: 0, dz }, turned))?,
        )),
        Task::Split(d, _, seeds) => Some(Command::Fission(Near::of(turn(d, turned))?, seeds)),
        Task::FuseAsPrimary(d, _, _) => Some(Command::FusionP(Near::of(turn(d, turned))?)),
        Task::FuseAsSecondary(d) => Some(Command::FusionS(Near::of(turn(d, turned))?)),
    }
}

/// Returns the command for a task, with x and z exchanged if `turned`, or a Wait if a difference is too long.
pub(crate) fn command_of(task: Task, turned: bool) -> Command {
    match command_if_near(task, turned) {
        Some(command) => command,
        None => Command::Wait,
    }
}
