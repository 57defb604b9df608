//! What a turn of a branch comes to.

/// What a turn of a branch comes to.
#[derive(Clone, Copy, Debug, PartialEq, Eq)]
pub enum BranchTurn {
    /// Nothing waits, and more is to come.
    More,
    /// Nothing came: its queue of the topic was empty.
    Empty,
    /// The queue of what branches say was full, and a message waits for room.
    Blocked,
    /// The end was sent.
    Over,
}
