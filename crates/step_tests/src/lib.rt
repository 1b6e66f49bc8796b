//! Tests of the crates of a step: `bot_crew`, `energy_sum`, `step_groups`, `system_state`, `step_machine`, `step_debugger` and
//! `debug_script`. There is no code here but tests: the answers of the calls are proved; these tests show that they succeed, and
//! worked examples.
#![tactic(auto)]

#[cfg(test)]
mod asserted;
#[cfg(test)]
mod block;
#[cfg(test)]
mod bots;
#[cfg(test)]
mod common;
#[cfg(test)]
mod crews;
#[cfg(test)]
mod debugger;
#[cfg(test)]
mod deeds;
#[cfg(test)]
mod energies;
#[cfg(test)]
mod groups;
#[cfg(test)]
mod judging;
#[cfg(test)]
mod machine;
#[cfg(test)]
mod orders;
#[cfg(test)]
mod rules;
#[cfg(test)]
mod scripts;
#[cfg(test)]
mod states;
