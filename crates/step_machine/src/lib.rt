//! The step machine: makes the steps of a run and keeps the level of every full voxel up to date.
#![tactic(auto)]

mod changes;
mod grounding;
mod machine;
mod one_region;
mod order;
mod support;
mod undo;

pub use machine::{Machine, StepFault, StepOk, Tried};
pub use undo::Undo;

/// Bound on the voxels that the groups of a step change: a group command changes at most 31 * 31 * 31, and such a command needs 8
/// of 40 bots.
pub(crate) const MOST_CHANGED: u32 = 148_955;
