//! nanobot as a static library for callers in C (`include/nanobot.h`). Each export is one call: the caller's bytes are the files of
//! a row of the command table, and the row's answer goes to the caller's buffer.
#![tactic(auto)]

mod call;
mod judging;
mod lent;
mod planning;
mod spelling;
#[cfg(test)]
mod spelling_tests;
#[cfg(test)]
mod tests;
