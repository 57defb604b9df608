//! The parts of a small batch tool over `run_streams`: a plan that is made in code, a depot that counts,
//! and a sink that gathers totals.
//!
//! `count_lines` gives the plan that counts the lines of each file, or `None` where that is none within
//! the limits. `CountingDepot` hands on what another depot makes and takes back, and counts it.
//! `TotalSink` writes nothing: it counts what it is given. The one error is `AllocError`, for want of
//! memory. Nothing here runs by itself: its caller runs the plan over the depot and the sink.
#![tactic(auto)]

pub mod depot;
pub mod plan;
pub mod sink;

pub use depot::CountingDepot;
pub use plan::count_lines;
pub use sink::TotalSink;
