//! The bytes of a trace (docs/FORMATS.md, "Trace files"): every command's unique spelling, both ways, whole or in any pieces. Only
//! `decode_all` and `encode_all` allocate.
#![tactic(auto)]

mod codes;
mod decoder;
mod fault;
mod laws;
mod one;
mod spelling;
mod whole;

pub use decoder::{Decoder, Fed};
pub use fault::{TraceFault, TraceRefusal};
pub use laws::{encoding_and_decoding, pieces_decode};
pub use one::{One, decode_one};
pub use spelling::encode_one;
pub use whole::{decode_all, encode_all};
