//! What becomes of the streams of a plan that a collector deals with, one after the other, as definitions alone; and what
//! is kept of one that is open no longer.
//!
//! Nothing here runs. What was done is one list of moves (`Move`), in the order in which devices were made: the tables of a
//! part were tried, the list was opened, a line of it was given a stream, or a stream was dealt with. By these moves the
//! outer stream stands (`StandsOuter`). A stream that was dealt with was begun, skipped, or there was no memory to make it
//! (`Part`); one that is open no longer came back, or was missed (`Gone`), and its devices are kept (`Leftover`) until the
//! ledger is finished. Where a stream stopped others it had closed its root before, and one that was halted closed its own
//! behind the stop that it obeyed (`KeepsPlaces`). A collector keeps these while it runs, and what follows at its end needs
//! no more of it.
#![tactic(auto)]

pub mod leftover;

pub use leftover::Leftover;
