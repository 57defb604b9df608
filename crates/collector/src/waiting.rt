//! A stream that waits.

use chunk_core::Word;
use scope_tree::Lease;

/// A stream that waits: its lease, and the file that it reads if it is one of the list.
pub struct Waiting {
    pub(crate) lease: Lease,
    pub(crate) path: Option<Word>,
}
