//! Which ends may go to another thread, as their types say.
use crate::{Hub, HubRef, May, Msg, Receiver, Sender};

fn sent<T: Send>(_value: &T) {}

fn shared<T: Sync>(_value: &T) {}

/// Messages and ends may move to another thread.
pub fn ends_cross(message: &Msg, sender: &Sender, receiver: &Receiver) {
    sent(message);
    sent(sender);
    sent(receiver);
}

/// The hub may move to another thread, and threads may share it.
pub fn hub_crosses<A: May + Send + Sync>(hub: &Hub<A>) {
    sent(hub);
    shared(hub);
}

/// A handle may move to another thread.
pub fn handles_cross<A: May + Send + Sync>(handle: &HubRef<A>) {
    sent(handle)
}
