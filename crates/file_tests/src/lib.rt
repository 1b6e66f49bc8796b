//! Tests of the crates that read and write files: `vox_depot`, `model_file`, `model_forge`, `trace_codec` and `trace_text`. There
//! is no code here but tests: the answers of the calls are proved; these tests show that they succeed, the behavior of real files
//! that no clause covers, and worked examples.
#![tactic(auto)]

#[cfg(test)]
mod codec;
#[cfg(test)]
mod faults;
#[cfg(test)]
mod forging;
#[cfg(test)]
mod host;
#[cfg(test)]
mod memory;
#[cfg(test)]
mod models;
#[cfg(test)]
mod pieces;
#[cfg(test)]
mod texts;
#[cfg(test)]
mod voxels;
