//! A planner for up to 20 bots under the light profile, which builds a target from nothing. Each bot has a strip of the columns
//! of x. All move in a row, a layer above the voxels to fill, to each position at which one of them has a voxel to fill.
#![tactic(auto)]

mod crew;
mod paint;
mod plan;
mod steps;
mod strips;

pub use plan::plan_swarm;
