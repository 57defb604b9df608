//! What `flume` printed is cut apart: the payloads go to one sink, the ends and the ledger to another.
//!
//! `cut` reads a source piece by piece. Of each frame it passes the payload on as it comes, where its
//! stream is the one that is asked for, or where none is. What stands behind the frames is kept to
//! the source's end, judged, and passed on as it is. `CutEnd` says how it ended: what the tail is (`TailEnd`), the
//! whole of it or a front; that the source ended within a frame; the byte at which no frame goes on; a failed read or write; or want of memory.
//!
//! ```
//! let mut told = StdSink::new(rt.stderr());
//! cut(alloc, stream, &mut src, &mut out, &mut told)
//! ```
#![tactic(auto)]

pub mod laws;
pub mod run;
pub mod tail;

pub use run::{CutEnd, cut};
pub use tail::TailEnd;
