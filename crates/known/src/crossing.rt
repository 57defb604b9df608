//! What is known may go to another thread.
use crate::Known;

fn is_send<T: Send>(_value: &T) {}

/// What is known of a value may go to another thread where the value may.
pub fn known_crosses<V: Send>(known: &Known<V>) {
    is_send(known)
}
