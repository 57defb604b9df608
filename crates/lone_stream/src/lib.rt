//! One stream that is stepped by its caller, over a seat and a tree of its own.
//!
//! `make_room` makes the room of a stream of one file before its device: a seat, with the table at which it sits, and
//! room for a tree. `begin` begins to run a node in it, and answers a stepper. `step` makes a turn of it, which may
//! give a load, and `stop` halts it; whoever takes what it gives may also step it by hand. `end` takes the stepper
//! apart once it has ended, by itself or halted: how it ended, its ledger, and its devices, which `retire` gives back
//! (`Ran`). Where memory is wanting to begin, `begin` answers such a `Ran` itself; where it is wanting in a turn,
//! `step` answers `AllocError`, and the stream has been halted.
//!
//! Nothing here runs by itself: the works of `cat` and `tee` run their files so.
#![tactic(auto)]

pub mod back;
pub mod room;
pub mod run;
pub mod turns;

pub use back::retire;
pub use room::{PlainRoom, StreamRoom, file_node, make_room};
pub use run::{Ran, begin, end};
pub use turns::{step, stop};
