//! A tree of scopes at work: callers over any seat, and what each leaves on the shelf and in the
//! ledger. Those in `short` and `guests` read the clauses of its calls alone. Those in `scripts` and
//! `uses` read also what a tree that is in order keeps (`IsConsistent`), which these clauses pass on.
//!
//! In `scripts`, `three_rows` opens three scopes, each below the other, with a row in each. With these
//! `lease_the_root` leases the root, closes it as errored and then cancels the lease as canceled. The
//! lease covers the row of the root and that of its child, so the row below them ends at once:
//!
//! ```text
//! outer acquire 0 0
//! outer open 1 0
//! outer acquire 1 1
//! outer open 2 1
//! outer acquire 2 2
//! outer lease 5 0
//! outer close 0 errored
//! outer final 2 errored ok
//! outer cancel 5 canceled
//! outer final 1 canceled ok
//! outer final 0 canceled ok
//! ```
//!
//! `close_and_open` closes a scope and opens one at a scope that was closed with it, which then lies
//! above. In `guests` a stream with a seat of its own takes over the lease of another's row and ends
//! it. In `short` one function makes a lease and cancels it, and each of its calls asks for what the
//! clauses of those before it say. In `uses` two rows end in the order of their scopes, and an open
//! row is given another payload.
//!
//! Trees and leases can't be dropped: the root is closed and the tree ended, a lease is cancelled.
#![tactic(auto)]

pub mod guests;
pub mod scripts;
pub mod short;
pub mod uses;
