//! What a collector of many streams writes and reports, and how it stops a run.
//!
//! A `Report` is what is known of a run so far: how many frames more may be written, whether anything
//! stopped that, and how each stream is reported. `write` writes a load as a frame, or counts it as
//! one that came too late; `end`, `miss` and `outer` note how a stream ended, that there was no
//! memory to make one, and how the outer stream ended. `into_ends` lists the ends of the streams that
//! there were, and takes no memory: all room is made by `Report::new`, for as many as there may be.
//!
//! `Stops` is the board of interruption with the collector's own seat at it, where each interruption
//! names how far the ledger was, as who makes it says (`Stop`): what the collector set
//! and found stands in its view, and once all other seats are taken in, all of that was set.
//!
//! Contracts say what a report tells of a tale (`IsReport`), and that each call is a step of one.
//!
//! ```
//! let mut out = MemSink::new(rt.alloc(), List::new(rt.alloc()))?;
//! let mut report = Report::new(rt.alloc(), 1, Some(1))?;
//! let last = report.write(rt.alloc(), &mut out, 0, &first);
//! let late = report.write(rt.alloc(), &mut out, 0, &second);
//! report.end(0, How::Done);
//! same(&rt, (last, late), (Some(Why::Take), None));
//! same(&rt, out.written(), b"0 1\nA\n".as_slice());
//! holds(&rt, report.is_ceased());
//! holds(&rt, !report.sink_failed());
//! holds(&rt, !report.memory());
//! let mut hows = Vec::new(rt.alloc());
//! for end in report.into_ends(How::Done, 1).as_slice() {
//!     hows.push(end.how)?;
//! }
//! same(&rt, hows.as_slice(), [How::Done, How::Halted].as_slice());
//! ```
#![tactic(auto)]

mod accounts;
pub mod laws;
pub mod report;
pub mod stops;

pub use accounts::Accounts;
pub use report::Report;
pub use stops::Stops;
