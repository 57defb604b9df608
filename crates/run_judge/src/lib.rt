//! A judge of runs of descriptions: what was printed, written, reported, opened and closed, by a second reader of it.
//!
//! A `Seen` is what is left of a call over devices in memory. `judge_run` takes its output apart, makes of each file what the steps give,
//! and appends to `Wrongs` a line for each thing that no run of the description can have left.
//!
//! ```
//! let mut wrongs = Wrongs::new(alloc);
//! match &call.asked {
//!     Asked::Run(plan) => judge_run(plan, &call.files, seen, &mut wrongs)?,
//! ```
#![tactic(auto)]

pub mod ends;
pub mod judge;
pub mod order;
pub mod outer;
pub mod run;
pub mod seen;
pub mod streams;
pub mod wrongs;

pub use judge::judge_run;
pub use run::names_of;
pub use seen::{Seen, judge_devices, judge_status, status_of};
pub use wrongs::Wrongs;
