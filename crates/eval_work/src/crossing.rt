//! What may go to another thread, as its type says.
use crate::work::GroupWork;

fn is_send<T: Send>(_value: &T) {}

fn is_sync<T: Sync>(_value: &T) {}

/// The work may move to another thread, and threads may share it.
pub fn work_crosses(work: &GroupWork) {
    is_send(work);
    is_sync(work);
}
