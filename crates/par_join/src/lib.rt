//! Streams that are run and printed, and the work of the commands.
//!
//! `run_streams` runs the streams of a plan, and prints what they give in frames of their numbers. An outer
//! stream gives them part by part, those of a group once it has read the group's tables, in which they look
//! up, and behind all of them one for each line of its list. It answers an `Outcome`, of which the first end
//! is the outer stream's. Nothing is an error of the call itself. The work of `cat` is `cat_run`'s.
//!
//! The whole run is one scope of threads (`scoped`): each stream has one of its own, over seats that threads
//! share, and none is left when the call returns. The collector is the caller's thread, and begins and ends
//! within the scope. The desk, the depot and the sink are lent to it, and come back as they then are.
//!
//! Nothing here runs without a plan: `flume_cli` has the whole caller.
#![tactic(auto)]

pub(crate) mod left;
pub(crate) mod room;
pub(crate) mod scoped;
pub mod streams;

pub use cat_run::{Outcome, run_cat};
pub use frames::{NotPut, put_frame, put_load};
pub use streams::run_streams;
