//! What may cross threads, each fact the proof of a function that does nothing.
use crate::{SharedSeat, TableRef};

fn is_send<T: Send>(_value: &T) {}

fn is_sync<T: Sync>(_value: &T) {}

/// A seat and a handle may go to another thread where a payload may.
pub fn seats_are_sent<P: Send + Drop>(seat: &SharedSeat<P>, desk: &TableRef<P>) {
    is_send(seat);
    is_send(desk)
}

/// Threads may share one handle where a payload may go to another thread.
pub fn handles_are_shared<P: Send + Drop>(desk: &TableRef<P>) {
    is_sync(desk)
}
