//! The lines of a stream that is stepped, taken in groups.
//!
//! A `Reader` steps a node that gives lines. `next_group` gives the text of the next lines, so many of them or, behind
//! the last whole group, those that are left, each with a line feed behind it; None where all were taken. Where memory is
//! wanting it answers `AllocError`, and the stream has been halted where it hadn't ended: what was given is still a front
//! of the groups of its lines. `halt` stops it, and `into_stepper` gives the stepper back. Lines are copied once, into the
//! text of their group, so that their own memory is filled again.
//!
//! Nothing here runs by itself: the run of an evaluation reads its file so.
#![tactic(auto)]

pub(crate) mod gathering;
pub(crate) mod lines;
pub mod reader;

pub use reader::Reader;
