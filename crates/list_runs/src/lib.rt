//! The list of a plan as a pipe over its device, and what its lines are by the rules of a run.
//!
//! `list_pipe` makes the chain of the steps `utf8` and `lines`, through which a list is read
//! (`list_lines`), and `new_list` the list that was not read yet. The laws say what such a list has by
//! the rules: what it gave is a run of the list's node, it was read in time, each line of it is UTF-8,
//! and the lines that were given streams are its listing.
//!
//! The outer stream of a plan begins its list so:
//!
//! ```
//! let Ok(reader) = new_list(alloc) else {
//!     return Next::Over(How::Memory);
//! };
//! ```
#![tactic(auto)]

pub mod laws;
pub mod pipe;

pub use pipe::{list_pipe, new_list};
