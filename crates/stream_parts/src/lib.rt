//! What a stream of a plan takes before it begins, and the devices that go back behind it.
//!
//! `make_parts` makes the node of a stream, room for its tree, and a device for each of its rows, in the
//! order of the rows (`StreamParts`). Where there is no memory for all of it, it answers `AllocError`,
//! and the devices that were made have gone back to their depot. No device is opened.
//!
//! `retire_all` gives devices back to the depot that made them; `retire_shelf` those that stand on the
//! shelf of a stream that has ended. None of them may be open.
//!
//! Here both lists of a stream that has run go back: the devices that stand on its shelf, and those that
//! were never opened. `par_join` does so for each stream of a plan once the ledger is finished, `lone_stream`
//! for one that ran alone:
//!
//! ```
//! let Leftover { shelf, unopened } = left;
//! retire_shelf(depot, shelf);
//! retire_all(depot, unopened);
//! ```
//!
//! The devices of a stream may go back in any order, and so may those of streams that ran beside one another:
//! each has a number of its own.
#![tactic(auto)]

pub(crate) mod make;
pub mod parts;
pub mod retire;

pub use parts::{StreamParts, make_parts};
pub use retire::{retire_all, retire_shelf};
