//! The command table: parses the arguments of the command line (docs/FORMATS.md, "Printed lines"). Nothing allocates.
#![tactic(auto)]

mod files;
mod forged;
mod laws;
mod planner;
mod row;
mod runs;
mod several;
mod word;
mod words;

pub use laws::{one_row, worked_words};
pub use planner::Planner;
pub use row::{Round, Row, Side};
pub use words::parse;
