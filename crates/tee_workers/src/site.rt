//! What the branches of a run share.
use channel_bounded::{Hub, May};
use interrupt_ctx::Board;
use std::sync::atomic::AtomicU64;
use topic_hub::TopicHub;

/// What the branches of a run share.
#[derive(Drop)]
pub struct Site<'s, R, G, A: May, B: May> {
    pub rt: &'s R,
    pub gate: &'s G,
    pub topic: &'s TopicHub<A>,
    pub hub: &'s Hub<B>,
    pub board: &'s Board,
    /// One more than the number of the branch that is to come back as it is, or 0.
    pub refused: &'s AtomicU64,
}
