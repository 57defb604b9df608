//! Seats over a table that threads share: the contract of `row_seat`, met without a lock.
//!
//! `SharedSeat::new` makes a main seat and a handle on its table (`TableRef`), for so many rows, seats and
//! events. The calls of a seat are those of `RowSeat`, and none of their clauses is changed. Each thread
//! has a seat of its own, which `split` makes, and a handle of its own, which `share` makes; a handle fits
//! each seat of its table. `join` takes in a seat that came back, and `finish` gives the ledger. Who
//! needs seats with such handles, of whichever table, asks for `SharesDesk`.
//!
//! Any number of seats step at one table at once. A step is one operation on one word; the rule of
//! `row_seat` holds between any two of them. No call waits.
//!
//! The only error is `AllocError`, of `SharedSeat::new`, `split` and `share`, after which nothing was made.
//! No other call takes memory.
//!
//! A table without rows, on which two further seats may note `count` events each, with a handle for each
//! of the two threads that they go to:
//!
//! ```
//! let (mut seat, mut desk) = SharedSeat::<u32>::new(
//!     alloc,
//!     StreamNo::Outer,
//!     0,
//!     3,
//!     2 * count as u64,
//! )?;
//! let none = Span { from: 0, to: 0 };
//! let one = seat.split(alloc, &mut desk, 1, none, count as u64)?;
//! let two = seat.split(alloc, &mut desk, 2, none, count as u64)?;
//! let first = desk.share()?;
//! let second = desk.share()?;
//! ```
//!
//! Once both threads have ended their seats are taken in:
//!
//! ```
//! seat.join(&mut desk, one);
//! seat.join(&mut desk, two);
//! Ok(seat.finish(&mut desk))
//! ```
#![tactic(auto)]

pub mod crossing;
pub mod laws;
pub mod marks;
pub mod seat;
pub mod share;
mod sights;
mod steps;
pub mod table;

pub use marks::SharedMark;
pub use seat::{SharedSeat, TableRef};
pub use share::SharesDesk;
