//! A pipe may go to another thread.
use crate::AnyPipe;

fn is_send<T: Send>(_value: &T) {}

/// The state of each pipe may go to another thread.
pub fn pipes_cross(pipe: &AnyPipe) {
    is_send(pipe)
}
