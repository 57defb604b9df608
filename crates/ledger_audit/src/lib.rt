//! The auditor of ledgers: one call that reads a ledger's events and tells whether they keep the
//! rules, and else which event breaks which rule first.
//!
//! - `audit` gives the verdict that `ledger_verdict` defines over the fronts of a ledger, and no
//!   other: `Clean` exactly where it is legal, complete and ordered; `Broken` with a place and a rule
//!   exactly where the events in front of the place break none and the one at it does, or where none
//!   does and not all was ended. Its one error is want of memory (`AllocError`).
//! - `judge` is the way to it: the legal front of the ledger (`ledger_books`), then the order of its
//!   streams, then whether all was ended.
//! - `order` goes through a legal ledger once. It keeps of each stream what its last Close or Cancel
//!   still has to come (`marks`), of each scope the scopes below it and its rows (`trees`, `lists`),
//!   and the rows that were taken down. A Close walks the open scopes below it with a stack of its
//!   own, so no depth of scopes can exhaust the machine's.
//! - `complete` asks of each event whether what it began was ended.
//! - `laws` has ledgers that are written out, each with its verdict.
//!
//! What an event costs: what it costs in `ledger_books`, which is made twice, and for the order a
//! few look-ups more. A Close takes down each open scope below it and each row there, and none of
//! them is taken down again; a Cancel costs one look-up, however many rows its lease covers. A Final
//! after a Close passes over the rows in front of it, each once, and asks for each whether the lease
//! covers it that likely does, as a Final after a Cancel asks of its lease: in a number of steps that
//! grows with the logarithm of the depth. Where neither of two guesses is right all leases are gone
//! through, which a row that none covers is the last to need.
//!
//! ```
//! let alloc = rt.alloc();
//! let text = b"ledger 3\n0 acquire 0 0\n0 close 0 errored\n0 final 0 errored ok\n";
//! let ledger = read(alloc, text.as_slice())?;
//! assert_eq!(rt; audit(alloc, &ledger)?, Verdict::Clean);
//!
//! let unended = read(alloc, b"ledger 2\n0 acquire 0 0\n0 close 0 succeeded\n")?;
//! assert_eq!(rt; audit(alloc, &unended)?, Verdict::Broken(2, Rule::Complete));
//! let unknown = read(alloc, b"ledger 1\n0 final 0 succeeded ok\n")?;
//! assert_eq!(rt; audit(alloc, &unknown)?, Verdict::Broken(0, Rule::Legal));
//! let overtaken =
//!     b"ledger 4\n0 acquire 0 0\n0 acquire 1 0\n0 close 0 errored\n0 final 0 errored ok\n";
//! let ledger = read(alloc, overtaken.as_slice())?;
//! assert_eq!(rt; audit(alloc, &ledger)?, Verdict::Broken(3, Rule::Ordered));
//! ```
#![tactic(auto)]

pub mod complete;
pub mod judge;
pub mod laws;
pub mod lists;
pub mod marks;
pub mod order;
pub mod trees;

pub use judge::audit;
