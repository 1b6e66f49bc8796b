//! Machines behind handles, for callers in C (`include/nanobot_machine.h`). Each export takes the machine out of its
//! handle, makes one call of it, and puts it back.
#![tactic(auto)]

mod commands;
mod comparing;
mod counting;
mod handle;
mod judging;
mod parts;
mod playing;
mod reading;
mod reports;
mod starting;
mod status;
mod stepping;
#[cfg(test)]
mod tests;
mod tracing;
mod version;
