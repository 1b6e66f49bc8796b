//! A planner for one bot. It voids the source from the top down to the lowest layer in which it differs from the target, and
//! fills the target from there up, from one layer above and under High. It visits only the voxels that change.
#![tactic(auto)]

mod paint;
mod plan;

pub use plan::plan_layers;
