//! What a seat knows and has the right to.
use res_ledger::{Event, StreamNo};
use std::collections::LinkedList;

/// No value of it is made: contracts see a seat as one.
pub struct View<P> {
    pub by: StreamNo,
    pub main: bool,
    /// The rows that it may place.
    pub empty: LinkedList<u32>,
    /// Its open rows, with their payloads.
    pub opened: LinkedList<(u32, P)>,
    /// Its leases, each a stream and a row.
    pub pairs: LinkedList<(u32, u32)>,
    /// The streams whose Lease it keeps.
    pub kept: LinkedList<u32>,
    /// The rows handed to it whose Final is not noted.
    pub handed: LinkedList<u32>,
    /// Of these, the rows taken.
    pub taken: LinkedList<u32>,
    /// The payload of each row that was handed to it.
    pub given: LinkedList<(u32, P)>,
    /// The payload that it left in each row that it closed.
    pub left: LinkedList<(u32, P)>,
    pub events: LinkedList<Event>,
    pub floor: u64,
    pub spare: u64,
    /// The streams that had a seat, and those whose seats are out.
    pub had: LinkedList<u32>,
    pub out: LinkedList<u32>,
    pub splits: u64,
}

/// Whether a row is left to another's last lease, or handed to the caller.
#[derive(Drop, Clone, Copy, PartialEq, Eq)]
pub enum Left {
    Stays,
    Yours,
}
