//! What may go to another thread, as its type says.
use crate::{Hand, Lanes};
use channel_bounded::May;

fn sent<T: Send>(_value: &T) {}

fn shared<T: Sync>(_value: &T) {}

/// A hand may move to another thread.
pub fn hands_cross(hand: &Hand) {
    sent(hand);
}

/// The queues may move to another thread, and threads may share them.
pub fn lanes_cross<A: May + Send + Sync>(lanes: &Lanes<A>) {
    sent(lanes);
    shared(lanes);
}
