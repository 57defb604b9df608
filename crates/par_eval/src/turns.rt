//! What came of a turn.

/// What came of a hand's turn.
#[derive(Clone, Copy, Debug, PartialEq, Eq)]
pub enum HandTurn {
    /// It received a load, or sent a message.
    More,
    /// It has nothing to send, and found its queue empty.
    Empty,
    /// It has something to send, and found the queue of its results full.
    Blocked,
    /// It received its end.
    Over,
}
