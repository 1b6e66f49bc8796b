//! The text of a trace (docs/FORMATS.md, "Trace text"): a line for each command, printed and read.
//! Only `print_trace` and `read_text` allocate, for their results.
#![tactic(auto)]

mod fault;
mod laws;
mod line;
mod parts;
mod print;
mod text;
mod word;

pub use fault::{TextFault, TextRefusal};
pub use laws::printing_and_reading;
pub use parts::find_byte;
pub use print::print_trace;
pub use text::{cut_line, read_text};
