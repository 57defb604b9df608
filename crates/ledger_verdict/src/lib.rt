//! What an audit tells of a ledger, as a definition over its fronts and laws of it.
//!
//! - `Verdict` is `Clean`, or `Broken` with a place and a `Rule`. What each one says is `IsVerdict`
//!   (Verdict.antt), which speaks of the events in front of each place and of no code: `Clean` of a
//!   ledger that is legal, complete and ordered; `Broken(i, Legal)` and `Broken(i, Ordered)` of one
//!   whose fronts of at most i events are legal and ordered so far, and whose next front isn't;
//!   `Broken(n, Complete)` of one of n events that are, where not all was ended.
//! - Ordered so far is what becomes ordered once the last Close or Cancel of each stream has the
//!   Finals that it still lacks.
//! - `laws` says that a ledger has a verdict, and one; that a front of a legal ledger that is ordered
//!   so far is so too; and that a ledger which is legal, complete and ordered so far is ordered.
//!
//! Nothing here runs: a code that goes through a ledger stands above it (`ledger_books`).
#![tactic(auto)]

pub mod laws;
pub mod verdict;

pub use verdict::{Rule, Verdict};
