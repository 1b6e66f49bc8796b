//! A machine that its owner keeps between steps. It makes a step from the commands of all active bots, and undoes the last steps. A
//! refused call leaves it unchanged.
#![tactic(auto)]

mod aim;
mod counting;
mod done;
mod fault;
mod kept;
mod laws;
mod one_voxel;
mod reading;
mod stepping;
mod trace;

pub use done::StepDone;
pub use fault::{NoLevel, NoStep};
pub use kept::KeptMachine;
pub use laws::a_trace_leads_to_its_machine;
