//! The step debugger: walks a trace forwards and backwards, and a step group by group in a chosen order.
#![tactic(auto)]

mod debugger;
mod fault;
mod laws;
mod middle;
mod steps;

pub use debugger::Debugger;
pub use fault::DebugFault;
pub use laws::{back_restores, every_order_makes_the_step, one_answer, worked_sessions};
