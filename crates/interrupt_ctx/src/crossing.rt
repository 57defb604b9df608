//! What of a board may cross threads, as the types say.
use crate::{Board, BoardRef, BoardSeat};

fn sent<T: Send>(_value: &T) {}

fn shared<T: Sync>(_value: &T) {}

/// Threads may share a board, and it, a seat and a handle may go to another one.
pub fn boards_cross(board: &Board, seat: &BoardSeat, handle: &BoardRef) {
    sent(board);
    shared(board);
    sent(seat);
    sent(handle);
}
