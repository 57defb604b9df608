//! What a pull of an outer stream with a list gives.

use chunk_core::{How, Word};
use scope_tree::Lease;

/// What a pull of the outer stream gives.
pub enum Next {
    /// The next described stream, which has this lease.
    Leased(Lease),
    /// The next stream of the list, which has this lease and reads this file.
    Listed(Lease, Word),
    /// No stream any more, and how the outer stream is over. The root is open still.
    Over(How),
}
