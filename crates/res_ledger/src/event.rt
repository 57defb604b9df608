//! What is noted in the ledger.
use chunk_core::Exit;

/// The name of a stream: the outer one, or the inner stream with a number.
#[derive(Clone, Copy, Debug, PartialEq, Eq)]
pub enum StreamNo {
    Outer,
    Inner(u32),
}

/// What a stream did. Scopes belong to the stream that opened them, and 0 is its root, which has
/// no `Open`; rows are numbered through the whole run.
#[derive(Clone, Copy, Debug, PartialEq, Eq)]
pub enum What {
    /// A scope was opened under its parent.
    Open { scope: u32, parent: u32 },
    /// The resource of a row was acquired in a scope.
    Acquire { row: u32, scope: u32 },
    /// A scope was leased for a stream: the lease covers the rows that are open in the scope, in
    /// its children and in the scopes above it.
    Lease { stream: u32, scope: u32 },
    /// The lease of a stream was cancelled, which ended so.
    Cancel { stream: u32, exit: Exit },
    /// A scope was closed, which ended so, and with it each scope below it that was open.
    Close { scope: u32, exit: Exit },
    /// The resource of a row was finalized. Its finalizer was told the exit, and `ok` is false
    /// where it failed.
    Final { row: u32, exit: Exit, ok: bool },
}

/// One entry of a ledger.
#[derive(Clone, Copy, Debug, PartialEq, Eq)]
pub struct Event {
    pub stamp: u64,
    pub by: StreamNo,
    pub what: What,
}
