//! What workers share may be shared by threads.
use crate::Place;

fn is_send<T: Send>(_value: &T) {}

fn is_sync<T: Sync>(_value: &T) {}

/// Threads may share what workers share, and a reference to it may go to another thread.
pub fn places_cross<'s, R: Sync, G: Sync>(place: &&'s Place<'s, R, G>) {
    is_sync(*place);
    is_send(place)
}
