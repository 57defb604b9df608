//! A list that is read in a row of a main tree, while streams of it run.
//!
//! `next_line` gives the next line of a list (`list_lines`) whose device is in an open row. The device
//! stays in its row, and nothing is noted: whatever leases wait and whatever seats are out, the main tree
//! is as far as it was, and no other row has changed.
//!
//! The outer stream of a plan takes the next line so:
//!
//! ```
//! match next_line(alloc, tree, row, list) {
//!     Listed::Line(line) => self.give_line::<V, S>(alloc, tree, desk, plan, line.as_slice()),
//!     Listed::Over(how) => self.end_list::<V, S>(tree, desk, how),
//! }
//! ```
#![tactic(auto)]

pub mod rows;

pub use rows::next_line;
