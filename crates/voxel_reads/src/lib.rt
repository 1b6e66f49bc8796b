//! Reads of a matrix that count no touch of the caller, for planners and for the code that examines models. The machine cannot
//! use them: its crates have no permit to open a counter.
#![tactic(auto)]

mod reads;

pub use reads::{first_full, is_full};
