//! What a picture of a ledger shows: a mark for each row, for each lease and for each Close.
//!
//! `marks_of` goes once through a ledger, from its end to its front. Each Acquire and each Lease has
//! just one `Mark`, from its place to the first event behind it that ends the same: a Final of its
//! row, or a Cancel of its lease. The mark has that event's exit, and no end where there is no such
//! event. A Close has one mark too, which ends where it begins. No rule of ledgers is asked for: the
//! events may be any. The one error is `AllocError`, for want of memory. `laws` has what follows from
//! the definitions. Nothing here runs by itself, and where a mark stands on a picture is its caller's
//! choice: the program `ledger_chart` draws bars and ticks.
#![tactic(auto)]

pub mod laws;
pub mod marks;

pub use marks::{End, Mark, Thing, marks_of};
