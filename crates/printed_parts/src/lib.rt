//! What was printed, taken apart: a second reader of it, which knows nothing of what printed it.
//!
//! `frames_of` gives the whole frames at the front of an output, `partial_frame` what an output that was cut has of one more, and `tail_of`
//! the ends of streams with such names and the events behind them. `events_of` reads a ledger's text alone, and `put_event` writes a line
//! of it.
//!
//! ```
//! let (frames, at) = frames_of(alloc, out)?;
//! let Some((ends, events)) = told_by(alloc, plan, seen.tail.as_slice())? else {
//!     return wrongs.unless(false, "no ends and no ledger are told", at);
//! };
//! ```
#![tactic(auto)]

pub mod ends;
pub mod events;
pub mod frames;
pub mod lines;

pub use ends::{End, Fault, put_end, tail_of};
pub use events::{EXITS, Event, Refusal, What, Who, events_of, put_event};
pub use frames::{Frame, frames_of, partial_frame, payloads_of, put_frame};
