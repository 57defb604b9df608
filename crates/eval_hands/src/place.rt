//! What the hands of a run share.
use crate::bell::Bells;
use par_eval::PlainLanes;
use std::alloc::Global;
use std::sync::atomic::AtomicU64;

/// What the hands of a run share.
#[derive(Drop)]
pub struct Place<'s, R, G, W> {
    pub rt: &'s R,
    pub alloc: Global,
    pub gate: &'s G,
    pub lanes: &'s PlainLanes,
    pub work: &'s W,
    pub bells: &'s Bells,
    /// One more than the number of the hand that is to come back as it is, or 0.
    pub refused: &'s AtomicU64,
}
