//! The state of the system (docs/FORMATS.md, "State"): matrix, harmonics, bots, energy and profile, the judgement of the commands
//! of a step, and the effects of its groups, one after another. No call allocates.
#![tactic(auto)]

mod edited;
mod known;
mod moves;
mod prices;
mod system;
mod turns;
mod voxels;

pub use edited::{EditedRegion, edited_region};
pub use known::{recall, recall_all};
pub use system::System;
pub use turns::{Turn, Turns};
