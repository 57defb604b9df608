//! What a list gives.

use chunk_core::{How, Line};

/// What a list gives.
#[derive(Drop)]
pub enum Listed {
    /// The next line.
    Line(Line),
    /// No line any more, and how the list is over.
    Over(How),
}
