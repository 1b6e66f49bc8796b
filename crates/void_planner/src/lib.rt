//! A planner for four bots, which void the source from the top down, tile by tile: from above the corners of a square tile they
//! void it together.
#![tactic(auto)]

mod ends;
mod four;
mod plan;
mod sweep;
mod tiles;

pub use plan::plan_void;
