//! One stream's job: its stepper is run turn by turn, and what it gives goes through the channel.
//!
//! `Job::new` takes what is the stream's own: its stepper, which made no turn, its seat at the board of
//! interruption, its sender and its lease. `Job::turn` does one thing. Where a message waits for room
//! in the queue it is tried again, and nothing else is done. Else the gate is passed and the stream's
//! context looked at once: where it is interrupted the stepper is halted, else it makes one turn; what
//! comes of it, a load or the end, is sent, or waits where the queue is full (`Blocked`). No load that
//! came is lost, also where the context is interrupted by then.
//!
//! A load is sent as the bytes that are printed of it, so that who receives it has nothing to render, and
//! its own memory is let go of where it was filled. Where there is no memory for these bytes the load is
//! sent as it is.
//!
//! A job that finds its context interrupted waits until its own seat at the desk sees the front of the
//! ledger that the interruption names, and closes its root behind that.
//!
//! Where the stepper has ended, the lease is cancelled with the exit of the end, a fault or want of memory
//! interrupts the whole run, behind all that the stream has noted, and the end is sent as the last message. The job is `Over` then,
//! and `Job::end` takes it apart (`JobEnd`): its seats, its sender, the rows that ended on its tree and
//! the devices that were never opened. `Job::finish` makes turns until that is so.
//!
//! Where a stepper found no memory to begin, `Job::unmade` is the job of its stream: it has ended so, and
//! its end waits to be sent.
//!
//! Contracts see a job by what it came from (`Origin`): `IsJob` says of all that was said so far, sent or
//! waiting, that it is of a run of the stream's node, and of the seat at the board that it has set and
//! seen what goes with that (`HasLearned`), where it is to (`HasPlaces`); each turn keeps both. What other streams do at the desk leaves
//! a job its fit (`laws`). No call takes memory but for the stepper's turns, where want of it is the end
//! `Memory`, and for the texts of loads.
//!
//! A stream is begun so:
//!
//! ```
//! match Stepper::new(alloc, node, tree, devices, tables, chunk) {
//!     Ok(stepper) => Job::new(alloc, k, stepper, board, sender, lease),
//!     Err(Unmade { tree, devices }) => {
//!         Job::unmade(
//!             k,
//!             tree,
//!             devices,
//!             board,
//!             self.stops.board(),
//!             sender,
//!             lease,
//!             desk,
//!         )
//!     }
//! }
//! ```
#![tactic(auto)]

pub mod crossing;
pub mod job;
pub mod laws;
mod leaving;
mod rendering;
mod running;
mod stepping;

pub use job::{Job, JobEnd, JobTurn};
