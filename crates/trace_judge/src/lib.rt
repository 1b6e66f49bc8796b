//! The judge of traces: a machine that takes the commands of a trace one by one, and the verdict of a whole one.
#![tactic(auto)]

mod ends;
mod laws;
mod pending;
mod runner;
mod taking;

pub use laws::{every_run_has_work, the_work_pays, worked_touches};
pub use runner::{Runner, judge, judge_by};
