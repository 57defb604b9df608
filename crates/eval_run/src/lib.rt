//! The ordered mode: the lines of a file go in groups through a chain of steps, by several hands at once, and what
//! comes of each group is printed in the order of the groups.
//!
//! `run_eval` reads the file on the caller's thread, deals its groups to so many hands, each with a thread of its
//! own where one can be started, and prints what they make of them as frames of stream 0. It answers an `Outcome`: how
//! the stream ended, the ledger, and whether a write failed or memory was wanting. Nothing is an error of the call
//! itself. At a group's fault, a failed write or want of memory nothing more is written, the file is read no further,
//! and what the hands still make is dropped. It may wait for its hands.
//!
//! However many hands there are, the frames and the end are those of one thread that takes one group after another.
//!
//! ```
//! let mut depot = depot_of(alloc, &cat_of(b"x1\ny\nx2\n"))?;
//! let mut out = sink_of(alloc, &[])?;
//! let path = Word::of(alloc, "a")?;
//! let outcome = run_eval(
//!     &rt, alloc, &path, 4, 2, &chain, &mut depot, &mut out, &OpenGate,
//! );
//! assert_eq!(rt; out.written(), b"0 5\n0 x1\n\n0 5\n0 x2\n\n".as_slice());
//! assert_eq!(rt; outcome.ends.len(), 1);
//! assert_eq!(rt; outcome.ledger.len(), 3);
//! assert!(rt; !outcome.sink_failed);
//! assert!(rt; !outcome.memory);
//! ```
//!
//! Here `chain` are the steps of the word `lines|filter x|number`, as `step_words` answers them.
#![tactic(auto)]

pub(crate) mod copied;
pub(crate) mod lent;
pub(crate) mod print;
pub(crate) mod pump;
pub(crate) mod ready;
pub mod run;
pub(crate) mod stop;

pub use run::run_eval;
