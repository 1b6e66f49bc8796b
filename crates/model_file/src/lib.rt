//! Model files (docs/FORMATS.md, "Model files") and whether a model is legal ("Geometry"). `read_model`, `write_model`, `legal`
//! and `first_ungrounded` allocate.
#![tactic(auto)]

mod fault;
mod files;
mod first_form;
mod flood;
mod laws;
mod least;
mod legality;
mod wide_form;

pub use fault::{ModelFault, ModelRefusal};
pub use files::{read_model, write_model};
pub use flood::first_ungrounded;
pub use laws::reading_and_writing;
pub use least::least_full;
pub use legality::legal;

/// The first byte of the wide form.
const WIDE_MARK: u8 = 0xFF;
