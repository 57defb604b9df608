//! The work of an evaluation's hands: the text of a group of lines goes through a chain of steps of its own.
//!
//! `GroupWork` is the `Work` of such steps. Its result for a load is the text of what they give, as bytes,
//! with `How::Done`, or with the fault in which they ended. Each load goes through steps of its own, which
//! begin anew: nothing is kept from one load to the next. The one error is `AllocError`. Threads may share
//! the work, and it may go to another thread.
//!
//! Nothing here runs by itself: the hands of `par_eval` do the work.
#![tactic(auto)]

pub mod crossing;
pub(crate) mod text;
pub mod work;

pub use work::GroupWork;
