//! Stops at the board with their place in the ledger.
//!
//! A stream that closed its root says at the board behind how much of the ledger it interrupts a context
//! (`interrupt`). A stream that finds that sees that its own seat's ledger has come as far (`look_behind`),
//! and what it notes from then on stands behind it (`close_behind`). So in the ledger of both the Close of
//! the one stands before that of the other (`laws`).
//!
//! The board and the desk are two tables, and no step is one of both. What ties them is a number: who
//! interrupts names a front of the ledger that its seat has seen, and who looks waits until its own seat
//! sees that front too. Each step is in one order with all others, so the first time that it looks it does;
//! no clause says so, and none needs it. Nothing here runs by itself: a run's collector and its jobs do this.
#![tactic(auto)]

pub mod laws;
pub mod stops;

pub use stops::{close_behind, interrupt, look_behind};
