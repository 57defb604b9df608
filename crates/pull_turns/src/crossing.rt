//! What runs a node may go to another thread.
use crate::{Rest, Runner};

fn is_send<T: Send>(_value: &T) {}

/// What is left of a node may go to another thread where the states of its pipes may.
pub fn rests_cross<F: Send>(rest: &Rest<F>) {
    is_send(rest)
}

/// A runner may go to another thread where its outside and the states of its pipes may.
pub fn runners_cross<O: Send, F: Send>(runner: &Runner<O, F>) {
    is_send(runner)
}
