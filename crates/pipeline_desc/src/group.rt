//! One group of a plan.
use chunk_core::Span;

/// Tables and streams that stand together: its streams may look up its tables beside those of the
/// top.
#[derive(Clone, Copy)]
pub struct GroupSpec {
    /// The numbers of its tables.
    pub tables: Span,
    /// The numbers of its streams.
    pub streams: Span,
}
