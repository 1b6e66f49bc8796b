//! Moves of one bot along a path, and the same backwards.
use nano_spec::{Command, CommandList};
use plan_tape::{Axis, next_stop};
use squad_plans::opposite;
use std::alloc::Global;
use vox_geom::{Coord, Diff, Long, Memory, Short};

/// The longest leg of a double move.
const SHORT: u16 = 5;

/// More than the distance of any two components.
const APART: u16 = 1023;

/// Returns the difference from one component to another.
pub(crate) fn gap(from: u16, to: u16) -> i16 {
    if from < to {
        (to - from).min(APART) as i16
    } else {
        -((from - to).min(APART) as i16)
    }
}

/// Returns the difference from one coordinate to another.
pub(crate) fn difference(from: Coord, to: Coord) -> Diff {
    Diff {
        dx: gap(from.x, to.x),
        dy: gap(from.y, to.y),
        dz: gap(from.z, to.z),
    }
}

/// Returns the move along an axis from one component to another, or a Wait if no move is that long.
pub(crate) fn along(axis: Axis, from: u16, to: u16) -> Command {
    let by = gap(from, to);
    let none = Diff {
        dx: 0,
        dy: 0,
        dz: 0,
    };
    let d = match axis {
        Axis::X => Diff { dx: by, ..none },
        Axis::Y => Diff { dy: by, ..none },
        Axis::Z => Diff { dz: by, ..none },
    };
    match Long::of(d) {
        Some(long) => Command::SMove(long),
        None => Command::Wait,
    }
}

/// Returns the end of one leg of a double move.
fn short_stop(at: u16, to: u16) -> u16 {
    to.max(at.saturating_sub(SHORT))
        .min(at.saturating_add(SHORT))
}

/// Returns the end of the next move of a path: along y first, then along x and z, by a double move if that ends one of both.
pub(crate) fn next_end(at: Coord, to: Coord) -> Coord {
    if at.y != to.y {
        return Coord {
            y: next_stop(at.y, to.y),
            ..at
        };
    }
    let both = Coord {
        x: short_stop(at.x, to.x),
        y: at.y,
        z: short_stop(at.z, to.z),
    };
    if both.x == to.x || both.z == to.z {
        if at.x != to.x && at.z != to.z {
            return both;
        }
    }
    if at.x != to.x {
        return Coord {
            x: next_stop(at.x, to.x),
            ..at
        };
    }
    if at.z != to.z {
        return Coord {
            z: next_stop(at.z, to.z),
            ..at
        };
    }
    to
}

/// Returns the command of one bot that undoes another one, or none for a Halt.
fn undoing(command: Command) -> Option<Command> {
    match command {
        Command::SMove(d) => Some(Command::SMove(Long::of(opposite(d.diff()))?)),
        Command::LMove(d, e) => Some(Command::LMove(
            Short::of(opposite(e.diff()))?,
            Short::of(opposite(d.diff()))?,
        )),
        Command::Fill(d) => Some(Command::Void(d)),
        Command::Void(d) => Some(Command::Fill(d)),
        Command::Flip => Some(Command::Flip),
        _ => None,
    }
}

/// Returns one bot's commands backwards, each undone: they take down what was built.
pub fn backwards(alloc: Global, commands: &[Command]) -> Result<CommandList, Memory> {
    let mut back = CommandList::new(alloc);
    let count = commands.len();
    for i in 0..count {
        if let Some(command) = undoing(commands[count - 1 - i]) {
            back.push(command)?;
        }
    }
    back.push(Command::Halt)?;
    Ok(back)
}
