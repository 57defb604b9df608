//! The work of a plan, as the rules of a run speak of it: what its outer stream reads and gives, the
//! places of its rows, and what each of its streams and its list may give. Nothing here runs.
//!
//! A plan with a list has no streams for it that are known before it is read, so its work is that of
//! the lines that were given streams (`run_work p lines`).
#![tactic(auto)]

pub mod laws;
