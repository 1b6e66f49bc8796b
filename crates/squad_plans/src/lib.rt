//! Proposes plans by squads: bots, or pairs of bots, that each build a strip of columns of a model alone. A proposal guarantees
//! nothing; the caller judges it.
#![tactic(auto)]

mod air;
mod clearing;
mod descents;
mod links;
mod pair;
mod pieces;
mod poled;
mod poles;
mod quads;
mod routes;
mod single;
mod site;
mod spots;
mod squad;
mod strips;
mod tasks;
mod team;
mod yard;

pub use poled::{Poled, with_poles};
pub use quads::{Slabs, slabs_by_squads};
pub use tasks::{move_by, opposite};
pub use team::{Manner, squads};
