//! What the tests of the top call share: an outside in memory, one call over it, and what it left.
//!
//! `outside` has a `Case`, which says what is asked and which calls fail, `run`, which makes the
//! outside and calls the top call once, and checks on the `Aftermath`, what the call left behind;
//! `reports` has whole tails of runs and checks of all that was printed and reported; `slow` has a
//! source that gives one byte a read.
#![tactic(auto)]

pub mod outside;
pub mod reports;
pub mod slow;
