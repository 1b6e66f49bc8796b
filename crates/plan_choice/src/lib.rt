//! Proposes and judges plans: a proposal replaces a plan if the definitions accept it with less energy, and within the plan's
//! bounds. The search for a proposal needs no proof.
#![tactic(auto)]

mod alone;
mod bounds;
mod boxed;
mod builder;
mod choice;
mod crew;
mod extent;
mod flips;
mod four;
mod laws;
mod many;
mod plain;
mod plans;
mod rebuild;
mod slabs;
mod trials;
mod ways;

pub use alone::{attach, attach_low};
pub use bounds::Bounds;
pub use builder::build_attached;
pub use choice::{Price, cheaper, improvement};
pub use crew::choose_crew_plan;
pub use flips::lower;
pub use four::by_slabs;
pub use laws::worked_plans;
pub use many::{by_few, by_squads};
pub use plans::{
    choose_group_plan, choose_layer_plan, choose_low_plan, choose_swarm_plan, choose_void_plan,
};
pub use ways::backwards;
