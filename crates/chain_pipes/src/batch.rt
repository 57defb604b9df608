//! What passes from one step to the next.
use chunk_core::{Code, Load};

/// What follows loads.
#[derive(Clone, Copy, Debug, PartialEq, Eq)]
pub enum Tail {
    /// More may come.
    More,
    /// The end: these were all.
    End,
    /// The end, by a fault.
    Fault(Code),
}

/// Loads of one kind, and what follows them.
#[derive(Drop)]
pub struct Batch {
    pub loads: Vec<Load>,
    pub tail: Tail,
}
