//! The frames of what `flume` printed, cut apart as they come.
//!
//! `Cutter::feed` takes a piece of the text and gives what it has of the payloads of the stream that is
//! asked for, or of all: a payload is given as it comes, and what can't be taken yet is held, as a front
//! of a frame's head, or all that stands behind the last frame. `Fed` tells what was given, how many
//! bytes were taken, and whether the text goes on as no frame does. The one error is `AllocError`, for
//! want of memory; a cutter may only be dropped then. Nothing here runs by itself: its
//! caller reads what is cut, and writes what is given.
#![tactic(auto)]

pub mod cutter;
pub mod heads;
pub mod step;

pub use cutter::{Cutter, Fed};
pub use heads::split_once;
pub use step::{Place, begins_with_digit};
