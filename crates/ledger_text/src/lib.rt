//! A ledger of its text, and what follows from a ledger's rules: for who is given a ledger and has to
//! judge it. Who notes events needs neither.
//!
//! - `read` gives the ledger of a text. `LedgerRefused` says why there is none: the first line that
//!   isn't well spelled; where each is, the two numbers of events that differ; or want of memory. It
//!   judges no rule: it takes any events that are well spelled.
//! - `laws` has what follows from the rules of `res_ledger`: how a row's standing goes forward, which
//!   Close covers a row, that the tests and lists of its specs are exact, and that a text is the text
//!   of one ledger.
//!
//! ```
//! let alloc = rt.alloc();
//! let written = b"ledger 3\n0 acquire 0 0\n0 close 0 errored\n0 final 0 errored fault\n";
//! let ledger = read(alloc, written.as_slice())?;
//! let mut failed = 0u32;
//! for event in ledger.as_slice() {
//!     if let What::Final { row, ok: false, .. } = event.what {
//!         assert_eq!(rt; row, 0);
//!         failed = failed.saturating_add(1);
//!     }
//! }
//! assert_eq!(rt; failed, 1);
//! assert_eq!(rt; text(alloc, &ledger)?.as_slice(), written.as_slice());
//!
//! let short = read(alloc, b"ledger 2\n0 close 0 succeeded\n");
//! assert_eq!(rt; short.err(), Some(LedgerRefused::BadCount(2, 1)));
//! let misspelled = read(alloc, b"ledger 1\n0 shut 0 succeeded\n");
//! assert_eq!(rt; misspelled.err(), Some(LedgerRefused::BadLine(1)));
//! ```
#![tactic(auto)]

pub mod laws;
mod reading;
mod spelling;

pub use reading::{LedgerRefused, read};
