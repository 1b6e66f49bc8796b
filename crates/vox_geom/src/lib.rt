//! Coordinates of a matrix, differences and their kinds, regions, and the counter of touches (docs/FORMATS.md, "Geometry").
//! Nothing here allocates.
#![tactic(auto)]

mod boxes;
mod coordinate;
mod difference;
mod kinds;
mod laws;
mod touches;

pub use boxes::Region;
pub use coordinate::{Coord, place};
pub use difference::Diff;
pub use kinds::{Far, Long, Near, Short};
pub use laws::{a_region_is_no_larger, least_is_first, places_rise};
use std::alloc::AllocError;
pub use touches::Steps;

/// The greatest resolution of a matrix. Resolutions are 1 to this.
pub const MOST_R: u16 = 400;

/// An allocation failed: the error of calls that fail only if memory runs out.
#[derive(Clone, Copy, PartialEq, Eq, Debug)]
pub struct Memory;

/// Lets `?` convert a failed allocation.
impl From<AllocError> for Memory {
    fn from(_: AllocError) -> Memory {
        Memory
    }
}
