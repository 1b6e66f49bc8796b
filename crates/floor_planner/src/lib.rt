//! A planner to copy: one bot builds a model that lies on the floor, from nothing. It flies a layer above the floor, under High,
//! and fills each voxel from above.
#![tactic(auto)]

mod flat;
mod plan;
mod sweep;

pub use flat::is_flat;
pub use plan::plan_floor;
