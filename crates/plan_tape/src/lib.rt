//! Plans written step by step, each step accepted by the definitions (docs/FORMATS.md, "Rules").
//!
//! A planner meets the conditions of a [`Tape`]'s calls and gets a trace that runs: no step is judged here a second time.
#![tactic(auto)]

mod axis;
mod costs;
mod difference;
mod frame;
mod halting;
mod laws;
mod several;
mod tape;

pub use axis::{Axis, ahead, behind, component, next_stop, signed_gap, towards, with_component};
pub use difference::lowest_difference;
pub use frame::{close, rise};
pub use halting::halt_alone;
pub use laws::{
    fissions_bound_the_bots, runs_go_through_reached_states, seeds_bound_the_bots, worked_crews,
};
pub use tape::{Plan, Tape};
