//! A planner for two bots. It voids the source from the top down to the lowest layer in which it differs from the target, and
//! fills the target from there up, from one layer above and under High. The bots share one row, move to the ends of its runs,
//! starting with the end of the row nearer to them, and fill or void each run by one group command.
#![tactic(auto)]

mod count;
mod laws;
mod opening;
mod pair;
mod plan;
mod run;
mod sweep;
mod write;

pub use count::{rows, runs};
pub use laws::worked_rows;
pub use plan::plan_groups;
