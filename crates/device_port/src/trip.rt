//! Calls on memory devices that are to fail.
use chunk_core::Word;

/// What is done with a device.
#[derive(Clone, Copy, Debug, PartialEq, Eq)]
pub enum Act {
    Open,
    Read,
    Write,
    Close,
}

/// A call that fails: the one of this act with this number, from 1, on each device of the path.
#[derive(Drop)]
pub struct Trip {
    pub path: Word,
    pub act: Act,
    pub nth: u32,
}
