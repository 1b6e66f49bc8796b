//! The candidates of a search: a height for a voxel.

/// A candidate: a height for the voxel at an index, and the direction of its parent.
#[derive(Clone, Copy)]
pub struct IndexOffer {
    pub index: u32,
    pub height: u32,
    pub toward: u8,
}

/// The next candidate of a search.
#[derive(Clone, Copy)]
pub enum NextOffer {
    /// A source.
    Seed(IndexOffer),
    /// A candidate of the frontier: its voxel was written, and its neighbors are still to be relaxed.
    Found(IndexOffer),
}
