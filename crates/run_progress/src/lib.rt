//! The progress of a run while its commands come one after another.
#![tactic(auto)]

mod laws;

pub use laws::the_progress_is_the_verdict;
