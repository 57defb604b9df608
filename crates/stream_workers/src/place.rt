//! What the workers of a run share.
use std::sync::atomic::AtomicU64;

/// What the workers of a run share.
#[derive(Drop)]
pub struct Place<'s, R, G> {
    pub rt: &'s R,
    pub gate: &'s G,
    /// One more than the number of the stream whose worker is to give its job back as it is, or 0.
    pub refused: &'s AtomicU64,
}
