//! The program's environment as traits: a depot of named files and a sink of bytes, each with a count of its faults. Adapters exist
//! over memory, for tests, and over the files and the output of the system.
#![tactic(auto)]

mod depot;
mod host_depot;
mod host_sink;
mod memory_depot;
mod memory_sink;
mod replace;
mod whole;

pub use depot::{Depot, FetchFault, Sink, SinkFault, StoreFault};
pub use host_depot::HostDepot;
pub use host_sink::HostSink;
pub use memory_depot::{MemoryDepot, copy_piece};
pub use memory_sink::MemorySink;
pub use whole::{LoadFault, load};
