//! What is left of a pump.
use chunk_core::How;

/// The ends that are told of the branches, in their order, and whether a write failed.
#[derive(Drop)]
pub struct TeeEnd {
    pub ends: Vec<How>,
    pub broken: bool,
}
