//! Descriptions at random, with the files that they name.
//!
//! `plan_of` draws a `Plan`, `text_of` writes it as a description, and `spoil` now and then appends what makes that one be refused.
//! `add_steps` draws steps, each of which takes what the one before it gives, and `steps_word` writes them as one word of a command line.
//!
//! ```
//! let mut source = text_of(dice, &plan, &files)?;
//! let asked = match spoil(dice, &plan, &mut source)? {
//!     Some(line) => Asked::Refused(3, line),
//!     None => Asked::Run(plan),
//! };
//! ```
#![tactic(auto)]

pub mod drawing;
pub mod listing;
pub mod plan;
pub mod spoiling;
pub mod steps;
pub mod writing;

pub use drawing::{plan_of, target_of};
pub use plan::{Group, Join, Listing, Plan, StandIn, Stream};
pub use spoiling::spoil;
pub use steps::{Kind, Name, Step, add_steps};
pub use writing::{steps_word, text_of};
