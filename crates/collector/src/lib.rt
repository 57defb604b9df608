//! The outer stream of a plan, and the streams that it gives, each with a worker of its own.
//!
//! `JoinRoom::new` makes what a collector takes for good, before any file is opened: the board of
//! interruption, the channel, the report and the lists of leases, jobs and devices. Its one error is
//! `AllocError`. `Collector::new` is the collector of a main tree that has begun (`join_tree::begin`).
//!
//! `Collector::run` opens the outer stream, which reads its tables, and goes round until no stream waits
//! and none is open. There is room for as many streams as the plan describes and as its list may have; one
//! of the list reads the file that its line names, and each looks up the tables of the top and of its group. A round begins a worker for the stream that waits, where fewer are open than may be
//! (`stream_workers::begin`); else it receives one message, so that a stream that may begin never waits
//! for what the others still send. A load is written as a frame. A stream whose end came is taken in before
//! anything else is done, once its worker has returned. It has no error: a fault, want of memory, a failed
//! write and the last frame that is wanted interrupt the run, and the report tells them. It may wait, and
//! no clause says that the rounds come to an end.
//!
//! Who interrupts for a fault, or as a stream has ended with which others are to end, has closed a root
//! before, and names how far the ledger was then; the outer stream that finds an interruption waits until
//! its seat sees the ledger so far before it closes its own. So what stops another one ends first in the
//! ledger too (`KeepsPlaces` of `dealt_streams`).
//!
//! Each worker has a desk, and handles on the queue and the board, of its own, which are made before the
//! seat of its stream is split off: where there is no memory for them the stream is never begun. Where no
//! thread can be started the job stays here, and has a turn in each round in which nothing comes. Where
//! none is here either the collector pauses (`stream_workers::Pause`).
//!
//! `Collector::into_ended` takes apart a collector that has come to its end (`Ended`): the main tree, which
//! may be settled, the report, how the outer stream ended, how many streams there were, and their devices,
//! which are to go back to their depot once the ledger is finished (`Leftover`).
//!
//! What holds at any time is `IsCollecting`, to which an open job is the job as it began, wherever it is. Each
//! step asks that a collector is under way (`IsUnderWay`), and ensures that it goes on (`GoesOn`). The main tree and the room were made before the first file is opened, and the collector
//! is lent to the scope of its workers, in which it runs:
//!
//! ```
//! collector.run(scope, place, alloc, desk, plan, depot, out);
//! ```
//!
//! And at its end:
//!
//! ```
//! let Ended {
//!     tree,
//!     report,
//!     outer,
//!     streams,
//!     left,
//! } = collector.into_ended(plan);
//! let (ledger, shelf) = settle(tree, desk);
//! retire_shelf(depot, shelf);
//! retire_left(depot, left);
//! Outcome {
//!     sink_failed: report.sink_failed(),
//!     memory: report.memory(),
//!     ends: report.into_ends(outer, streams),
//!     ledger,
//! }
//! ```
#![tactic(auto)]

pub mod collector;
pub mod filled;
mod outer;
mod parts;
mod receive;
mod rounds;
mod start;
mod tables;
pub mod waiting;

pub use collector::{Collector, Ended, JoinRoom};
pub use dealt_streams::Leftover;
pub use filled::Filled;
pub use waiting::Waiting;
