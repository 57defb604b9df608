//! The work of the command `cat`: one file, whose stream is run alone and printed.
//!
//! `run_cat` prints a file in frames of stream 0, over a seat and a tree of its own, on the caller's thread; it waits
//! for nobody. It answers an `Outcome`: how the stream ended, the ledger, and whether a write failed or memory was
//! wanting. Nothing is an error of the call itself.
//!
//! ```
//! let mut depot = depot_of(rt.alloc(), &cat_of(b"hello\n"))?;
//! let mut out = sink_of(rt.alloc(), &[])?;
//! let path = Word::of(rt.alloc(), "a")?;
//! let outcome = run_cat(rt.alloc(), &path, 4, &mut depot, &mut out);
//! assert_eq!(rt; out.written(), b"0 4\nhell\n0 2\no\n\n".as_slice());
//! assert_eq!(rt; outcome.ends.len(), 1);
//! assert_eq!(rt; outcome.ledger.len(), 3);
//! assert!(rt; !outcome.sink_failed);
//! assert!(rt; !outcome.memory);
//! ```
#![tactic(auto)]

pub(crate) mod alone;
pub mod cat;
pub mod outcome;
pub(crate) mod print;
pub(crate) mod stopped;

pub use cat::run_cat;
pub use outcome::Outcome;
