//! The voxels of a matrix, one bit each (docs/FORMATS.md, "Geometry"), and lists of coordinates to be changed.
//!
//! The bits are in words of 64, in layers of y. In a layer, a row of fixed x has consecutive bits, so rows are searched, listed
//! and compared by words. Only `Planes::empty`, `Planes::copy` and `ChangeList::with_room` allocate.
#![tactic(auto)]

mod change_list;
mod planes;

pub use change_list::ChangeList;
pub use planes::{Planes, earlier};
