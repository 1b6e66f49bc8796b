//! The costs of steps and commands (docs/FORMATS.md, "Commands"). Nothing here allocates.
#![tactic(auto)]

mod costs;
mod laws;

pub use costs::{command_cost, space_upkeep, upkeep, upkeep_by};
pub use laws::{a_group_costs_little, a_step_changes_the_energy_by_little};
