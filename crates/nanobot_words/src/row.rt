//! The commands.
use crate::planner::Planner;

/// A source or a target: a named file, or the empty model of the other's resolution.
#[derive(Clone, Copy)]
pub enum Side<'a> {
    Empty,
    Named(&'a str),
}

/// The profile of a run.
#[derive(Clone, Copy, PartialEq, Eq, Debug)]
pub enum Round {
    /// The full round of the contest.
    Full,
    /// This project's light profile, after the lightning round.
    Light,
}

/// A command.
#[derive(Clone, Copy)]
pub enum Row<'a> {
    /// Checks whether the model is legal.
    Check {
        model: &'a str,
    },
    /// Judges the trace from the source to the target, in the round.
    Run {
        round: Round,
        source: Side<'a>,
        target: Side<'a>,
        trace: &'a str,
    },
    /// Stores the bytes of the text's commands.
    Asm {
        text: &'a str,
        trace: &'a str,
    },
    /// Stores the text of the trace's commands.
    Dis {
        trace: &'a str,
        text: &'a str,
    },
    /// Stores the model forged of a number.
    Make {
        number: u32,
        resolution: u16,
        model: &'a str,
    },
    /// Stores the trace of the planner's plan from the source to the target.
    Plan {
        planner: Planner,
        source: Side<'a>,
        target: Side<'a>,
        trace: &'a str,
    },
    /// Reports the costs of the layer planner's and the group planner's plans of a forged model.
    Exercise {
        number: u32,
        resolution: u16,
    },
    /// Walks the trace from the source by the script.
    Debug {
        source: &'a str,
        trace: &'a str,
        script: &'a str,
    },
}
