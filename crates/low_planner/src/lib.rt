//! A planner for one bot, which builds a model under Low all the time: layer by layer from the floor up, from one layer above.
//! It builds each part of a layer along its voxels, starting at one that has a full voxel right below it.
#![tactic(auto)]

mod build;
mod fault;
mod laws;
mod plan;
mod survey;
mod sweep;

pub use fault::LowFault;
pub use laws::{one_unsupported, worked_parts};
pub use plan::plan_low;
