//! The top call: what the words of a command line ask for is done, and how it ended is told.
//!
//! `flume` does what the words say, over any source, sink, depot and gate: so a test runs the whole
//! program in memory. It answers a `Report`: the `Status` that the program ends with, how each
//! stream ended, and the ledger. Nothing is an error of the call itself: what failed is told by the
//! status, the output and standard error. `Status::Refused` has the reason why a description is
//! refused. Only `run` reads the source, whole and before anything else; the description that it has
//! is read by `pipeline_desc`. The work of a command is `par_join`'s; behind its frames `tail_of`
//! tells how each stream ended, and the ledger. `rotate` copies a file into others and prints that
//! tail alone. `tee` and `eval` print what chains of steps give of a file, which `step_words` reads
//! of the words themselves. `gen` runs a case of `gen_case` in memory, over files of
//! its own, and prints a summary of it.
//!
//! ```
//! let alloc = rt.alloc();
//! let words = vec![in alloc; Word::of(alloc, "cat")?, Word::of(alloc, "a")?]?;
//! let mut files = List::new(alloc);
//! let (path, bytes) = (Word::of(alloc, "a")?, Line::copy_of(alloc, b"hello\n")?);
//! files.push(FileOf { path, bytes })?;
//! let mut depot = MemDepot::new(alloc, files, List::new(alloc))?;
//! let mut src = MemSource::new(alloc, b"", List::new(alloc))?;
//! let mut out = MemSink::new(alloc, List::new(alloc))?;
//! let mut err = MemSink::new(alloc, List::new(alloc))?;
//!
//! let report = flume(
//!     &rt, alloc, &words, &mut src, &mut depot, &mut out, &mut err, &OpenGate,
//! );
//! assert_eq!(rt; report.status, Status::Good);
//! let text = b"0 6\nhello\n\nend 0 done\nledger 3\n\
//!     0 acquire 0 0\n0 close 0 succeeded\n0 final 0 succeeded ok\n";
//! assert_eq!(rt; out.written(), text.as_slice());
//! assert_eq!(rt; err.written(), b"".as_slice());
//! ```
#![tactic(auto)]

pub(crate) mod chains;
pub(crate) mod description;
pub(crate) mod generated;
pub mod report;
pub mod status;
pub mod tail;
pub mod top;

pub use report::Report;
pub use status::{Status, StatusLine};
pub use top::flume;
