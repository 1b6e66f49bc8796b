//! The forge: a legal model that is made from a number (docs/FORMATS.md, "The forge").
//!
//! Only [`forge`] allocates: the planes of the model, and the heights of the columns of one x. The voxels are set row by row, up
//! to 64 of them by one word.
#![tactic(auto)]

mod columns;
mod rows;
mod tower;
mod walls;

pub use walls::forge;
