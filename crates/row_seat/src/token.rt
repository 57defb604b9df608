//! What a seat knows, but for the payloads in its hands.
use res_ledger::{Event, StreamNo};
use std::collections::LinkedList;

/// No value of it is made.
pub struct Token<P> {
    pub live: bool,
    pub main: bool,
    pub by: StreamNo,
    pub empty: LinkedList<u32>,
    pub opened: LinkedList<u32>,
    pub pairs: LinkedList<(u32, u32)>,
    pub kept: LinkedList<u32>,
    pub handed: LinkedList<u32>,
    pub taken: LinkedList<u32>,
    pub given: LinkedList<(u32, P)>,
    pub left: LinkedList<(u32, P)>,
    pub events: LinkedList<Event>,
    pub floor: u64,
    pub spare: u64,
    pub had: LinkedList<u32>,
    pub out: LinkedList<u32>,
    pub splits: u64,
}
