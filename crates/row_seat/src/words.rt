//! The word of a row, as a seat's table keeps it.
//!
//! It is 0 while the row is empty, and `OPEN` from its place on, with `LEASE` for each lease that
//! stands on it; `CLOSE` is added when it is closed.

/// The row has a payload.
pub const OPEN: u64 = 1;

/// The row is closed.
pub const CLOSE: u64 = 2;

/// One lease that stands on the row.
pub const LEASE: u64 = 4;
