//! Workers: the job of a stream on a thread of its own, from which it comes back.
//!
//! `begin` begins a worker for a job in a scope, with a desk of its own (`SharesDesk`) and handles of its own
//! on the queue and the board. What all workers of a run share is a `Place`. A worker runs its job to its
//! end (`run_away`), and gives it back.
//!
//! Where no thread can be started the job comes back as it is, and stays here; `Open::turn` gives such a job a
//! turn, at a desk of the caller's.
//!
//! Contracts see an `Open` as the job as it began, wherever it is and however far. `Open::settle` joins the
//! worker and gives the job: it is the job of each origin that it was of as it began, at the same hub and
//! board, and fits each desk that it fitted (`ComesBack`). Whether it is over `Job::is_over` tells, and
//! `Job::finish` makes what turns there still are.
//!
//! Want of memory for a thread is no error: the job stays here. No clause says that a worker runs, or that a
//! job which waits for room in the queue comes to its end.
//!
//! Two jobs at once in the scope `scope`, each with a worker that takes what a `Hired` has; they come back
//! once both have ended:
//!
//! ```
//! let Hired {
//!     hub,
//!     board,
//!     desk,
//!     job,
//! } = first;
//! let one = begin(scope, place, hub, board, desk, job);
//! let Hired {
//!     hub,
//!     board,
//!     desk,
//!     job,
//! } = second;
//! let two = begin(scope, place, hub, board, desk, job);
//! let one = one.settle(place.rt);
//! (one, two.settle(place.rt))
//! ```
#![tactic(auto)]

pub mod away;
pub mod begins;
pub mod crossing;
pub mod open;
pub mod pause;
pub mod place;

pub use away::{AsBegun, run_away};
pub use begins::begin;
pub use open::Open;
pub use pause::Pause;
pub use place::Place;
