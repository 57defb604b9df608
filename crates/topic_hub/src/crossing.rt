//! Which ends may go to another thread, as their types say.
use crate::{Publisher, Subscriber, TopicHub, TopicRef};
use channel_bounded::May;

fn sent<T: Send>(_value: &T) {}

fn shared<T: Sync>(_value: &T) {}

/// The publisher and each subscriber may move to a thread of its own.
pub fn ends_cross(publisher: &Publisher, subscriber: &Subscriber) {
    sent(publisher);
    sent(subscriber);
}

/// The queues may move to another thread, and threads may share them.
pub fn hub_crosses<A: May + Send + Sync>(hub: &TopicHub<A>) {
    sent(hub);
    shared(hub);
}

/// A handle may move to another thread.
pub fn handles_cross<A: May + Send + Sync>(handle: &TopicRef<A>) {
    sent(handle)
}
