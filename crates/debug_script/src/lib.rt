//! The script of the step debugger (docs/FORMATS.md, "Sessions"): reading its lines, and printing a session.
#![tactic(auto)]

mod broken;
mod laws;
mod line;
mod print;
mod read;
mod report;
mod word;

pub use broken::{broken_line, printed_place};
pub use laws::{one_script, one_text, some_script, some_text, worked_scripts};
pub use line::ScriptLine;
pub use print::print_session;
pub use read::read_script;
