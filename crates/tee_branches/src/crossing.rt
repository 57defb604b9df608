//! What may go to another thread, as its type says.
use crate::Branch;

fn sent<T: Send>(_value: &T) {}

/// A branch may move to another thread, where its pipe may.
pub fn branches_cross<F: Send>(branch: &Branch<F>) {
    sent(branch);
}
