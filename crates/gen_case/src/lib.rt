//! The case that three numbers make: files, the plan that is run over them, and the summary of what
//! came of it.
//!
//! A `Case` has a seed, a number of streams and a number of lines. `files_of` gives its files, each
//! with its path: one for each stream, and behind them the table's. `plan_of` gives its plan, and
//! `tables_of` and `streams_of` the table and the streams of it. `summary_of` counts what was
//! printed and noted of a run, and `text` is what is printed of a summary. A `SureDepot` has files
//! like these in memory, and its devices fail at no open, read or close. The one error is
//! `AllocError`, for want of memory. No number is too large for the files and the summary; a plan
//! has at most 1,024 streams.
//!
//! ```
//! let out = b"0 18\n000,0\n379,9\n758,8\n\n";
//! let summary = summary_of(case, out.as_slice(), &events(alloc)?);
//! assert_eq!(rt;
//!     text(alloc, summary)?.as_slice(),
//!     b"gen 0 1 3\nframes 1\nbytes 18\ndigits 56\nacquire 2\nlease 1\ncancel 1\nclose 2\nfinal 2\n".as_slice()
//! );
//! ```
#![tactic(auto)]

pub mod case;
pub mod files;
pub mod laws;
pub(crate) mod lines;
pub mod noted;
pub mod plan;
pub mod summary;
pub mod sure;
pub mod tally;

pub use case::Case;
pub use files::files_of;
pub use plan::{plan_of, streams_of, tables_of};
pub use summary::{Summary, summary_of, text};
pub use sure::{SureDepot, SureDevice};
