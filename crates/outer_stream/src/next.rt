//! The parts of an outer stream, and what a pull of it gives.

use chunk_core::{How, Span};
use scope_tree::Lease;

/// Tables and streams that belong together. The first part has the root of the main tree for its
/// tables, and each other one a child of it.
#[derive(Clone, Copy, Debug)]
pub struct OuterPart {
    /// The numbers of its tables, which follow on those of the part before.
    pub tables: Span,
    /// The number behind its last stream. Its streams follow on those of the part before.
    pub behind: u32,
}

/// What a pull of the outer stream gives.
pub enum Next {
    /// The next stream, which has this lease.
    Leased(Lease),
    /// No stream any more, and how the outer stream is over. The root is open still.
    Over(How),
}
