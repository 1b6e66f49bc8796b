//! The active bots of a state: [`Crew`] holds them, at most 40, in rising order of their bids. It does not allocate.
#![tactic(auto)]

mod crew;
mod laws;
mod seeds;

pub use crew::{Crew, MOST_BOTS};
pub use laws::{crew_is_ready, group_is_replaced};
pub use seeds::seeds_of;
