//! The branches of a tee as one thing that loads are given to: each load goes to each branch, and what the
//! branches say is printed.
//!
//! `Room::new` makes all that takes memory, out of the pipes of the branches: what they share (`Shared`: a topic
//! of sixteen loads, a channel of sixteen messages, and a board of one context), and the `Crew`, whose ends are
//! split off for them. Its one error is `AllocError`. `Pump::begin` begins a worker for each branch in a scope;
//! a branch for which no thread can be started stays here, and has turns while the pump waits.
//!
//! `Pump::give` publishes one load, and returns once it is in the queue of each branch; what the branches say is
//! printed meanwhile. Where memory for the copies is wanting nothing was published, and that is its one error.
//! A fault of a branch, want of memory of one, or a write that failed interrupts the run (context 0 of the board);
//! `is_stopped` tells it, so that the reader can be halted.
//!
//! A branch that ended by itself, or was halted, takes nothing from its queue any more: so nothing is given where the
//! run must stop, and no end is published then.
//!
//! `Pump::finish` publishes the end, interrupts the run where the reader wasn't done, prints until the end of
//! each branch came, joins the workers and settles with each branch. It answers the ends that are told of the
//! branches in their order, and whether a write failed (`TeeEnd`). Of what was given each branch has printed,
//! under its own number, what its pipe gives of a front (`IsFinished`).
//!
//! Nothing here runs by itself: the command of a tee makes the room before it opens its file, and gives what it
//! reads to the pump in the scope of the workers.
#![tactic(auto)]

pub mod crew;
pub mod ended;
mod ending;
pub mod pieces;
pub mod pump;
mod serving;
mod settling;

pub use crew::{Crew, Room, Shared};
pub use ended::TeeEnd;
pub use pieces::Pieces;
pub use pump::Pump;
