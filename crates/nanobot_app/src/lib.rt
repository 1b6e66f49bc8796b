//! The top call: executes the command given by the arguments, over any depot and sink (docs/FORMATS.md, "Printed lines").
#![tactic(auto)]

mod laws;
mod top_call;

pub use laws::{
    a_plan_is_accepted, costs_are_told_apart, each_plan_is_made, one_answer, some_answer,
    worked_outcomes,
};
pub use nanobot_rows::Status;
pub use top_call::drive;
