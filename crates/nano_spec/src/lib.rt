//! The nanobot system: commands, bots, rules and verdicts (docs/FORMATS.md). Their meaning is defined in `specs/`, and the laws
//! of these definitions are in `laws`. There is no engine here.
#![tactic(auto)]

mod command_lists;
mod commands;
mod laws;
mod outcomes;
mod system;

pub use command_lists::CommandList;
pub use commands::Command;
pub use laws::{
    a_line_says_its_command, a_model_is_whole, forged_is_legal, full_accepts_what_light_accepts,
    one_decoding, one_legality, one_level, one_outcome, one_reading, one_spelling, one_verdict,
    one_work, opening_is_ready, opening_is_well_formed, printed_is_read, ready_and_well_formed,
    worked_bytes, worked_others, worked_runs, written_is_read_back,
};
pub use outcomes::{Broken, Rule, Verdict};
pub use system::{Bot, Harmonics, Profile};
