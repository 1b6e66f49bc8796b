//! Implements each command (docs/FORMATS.md, "Printed lines"): reads its files, and returns the line to print and the file to
//! store. Nothing is stored or written yet.
#![tactic(auto)]

mod commands;
mod debugging;
mod effect;
mod exercise;
mod laws;
mod limited;
mod lines;
mod models;
mod plans;
mod report;
mod rows;
mod status;
mod stop;
mod trace;
mod trace_run;

pub use effect::{Effect, Message, NewFile};
pub use laws::{worked_answers, worked_reports};
pub use report::{Cost, Report, Who};
pub use rows::answer;
pub use status::Status;
pub use stop::Stop;
