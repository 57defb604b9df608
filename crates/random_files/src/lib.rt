//! Files at random, for runs in which calls fail.
//!
//! `Dice` gives numbers that look random, and are the same for a seed and a number at each run; `content_of` makes a content of them, and
//! `add_file` a file, which now and then isn't there, or one call on each of whose devices fails. A table's file:
//!
//! ```
//! let content = table_content(dice)?;
//! let is_there = !dice.chance(40);
//! let trip = trip_of(dice, Act::Read, 120);
//! add(dice, files, "t", is_there.then_some(content), trip)
//! ```
#![tactic(auto)]

pub mod contents;
pub mod dice;
pub mod files;

pub use contents::{Flavour, content_of};
pub use dice::Dice;
pub use files::{File, add, add_file, trip_of};
