//! Tests of the planning crates: `plan_tape`, `floor_planner`, `group_planner`, `low_planner` and `plan_choice`. They contain only
//! tests: the results of the calls are proved; the tests check that they succeed, and worked examples.
#![tactic(auto)]

#[cfg(test)]
mod choices;
#[cfg(test)]
mod floor;
#[cfg(test)]
mod group;
#[cfg(test)]
mod low;
#[cfg(test)]
mod models;
#[cfg(test)]
mod tapes;
#[cfg(test)]
mod teams;
