//! Tests of the crates that store voxels: `brick_arena`, `vox_planes` and `support_forest`. The results of their calls are
//! proved; these tests show that they succeed, and worked examples.
#![tactic(auto)]

#[cfg(test)]
mod at_once;
#[cfg(test)]
mod bricks;
#[cfg(test)]
mod common;
#[cfg(test)]
mod edits;
#[cfg(test)]
mod forest;
#[cfg(test)]
mod places;
#[cfg(test)]
mod planes;
