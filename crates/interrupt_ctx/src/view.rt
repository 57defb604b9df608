//! What a seat knows. No value of these types is made: contracts see a seat as one.
use crate::why::Stop;
use std::collections::LinkedList;

/// A context, and why it was interrupted, and behind what.
pub struct Interruption {
    pub context: u32,
    pub stop: Stop,
}

/// Which context was looked at, and what its word and that of context 0 told.
pub struct Look {
    pub context: u32,
    pub own: Option<Stop>,
    pub root: Option<Stop>,
}

pub struct View {
    /// Whether it is the seat that came with the board.
    pub first: bool,
    /// Whether the seat is still in use; one that was taken in isn't.
    pub live: bool,
    /// What it has set, and what the seats that it took in had.
    pub set: LinkedList<Interruption>,
    /// What it saw, and what the seat that it was split off knew.
    pub seen: LinkedList<Interruption>,
    /// For the first seat, how many others are in use.
    pub out: u64,
    /// How often it looked, and the last look; before the first one that of context 0, with nothing found.
    pub looks: u64,
    pub last: Look,
}
