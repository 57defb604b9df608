//! What a collector does to the main tree of a run, whose outer stream gives inner streams one by one.
//!
//! The main tree is the outer stream's. `begin` makes it over the first seat. `pull` asks the outer
//! stream for one stream more: it leases the root for the next one, which waits from then on, or closes
//! the root where none is left; its one error is want of memory, and then nothing was done. The first
//! stream that waits is begun or not: `split_off` gives the seat for its own tree, which cancels the
//! lease at its end, and `cancel_waiting` is for one that is never begun. `take_in` takes the seat of a
//! stream that has ended in again. Where the outer stream is halted, fails or finds no memory,
//! `close_outer` closes the root with its exit. `settle` finishes the ledger, once the root is closed,
//! no lease waits and all seats are back.
//!
//! How far a main tree is stands in a `Progress`, plain data that only contracts see. Each call that is
//! given a main tree as far as one (`IsMain`) leaves one as far as the next, and asks no more of the
//! tree but for room: so a loop over streams has `IsMain` as its invariant. Which seats are out stands
//! beside it, as a list of guests (`AreOut`). A stream may begin once the outer stream is one ahead, or
//! has closed its root as succeeded, and fewer seats than the width are out (`IsReady`); and a stream
//! is pulled while the seats that are out and the leases that wait are as many as the width at most. So
//! the finished ledger is in pace: the outer stream acquires its rows in their order, leases the root
//! for the streams in theirs once its rows are acquired, and of its leases at most the width and one
//! more stand at once (`GivesInPace`). Each call also tells exactly what it noted of child scopes, rows
//! and leases (`GivesMore`). What the ledger tells is `Settles`.
//!
//! Here one stream is given, and never begun; the caller's contract has `IsMain` before and behind it:
//!
//! ```
//! match pull(alloc, tree, desk, 0, 1) {
//!     Ok(Some(lease)) => {
//!         close_outer(tree, desk, Exit::Succeeded);
//!         cancel_waiting(tree, desk, lease);
//!     }
//!     Ok(None) => {}
//!     Err(_) => close_outer(tree, desk, Exit::Canceled),
//! }
//! ```
//!
//! The laws say the same of plain data, each as the contract of a function that does nothing: what
//! calls for tables keep (`main_grows`), in which order guests may be told (`guests_stay`), and that
//! streams close their roots before they leave (`streams_leave_last`).
#![tactic(auto)]

mod end;
mod guests;
pub mod laws;
mod outer;

pub use end::settle;
pub use guests::{split_off, take_in};
pub use outer::{begin, cancel_waiting, close_child, close_outer, lease_next, open_child, pull};
