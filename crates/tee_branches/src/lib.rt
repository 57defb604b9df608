//! The branches of a tee: each a pipe between a topic and a channel.
//!
//! A `Branch` receives what its topic's publisher publishes, feeds the loads to its pipe, as a chain of steps is
//! one, and sends the text of what that gives through the channel, under its own number, and then its end.
//! `turn` takes it one step on, at most one load further, and passes a gate first. It answers `Empty` only where
//! its queue of the topic was empty at one moment of the call, `Blocked` only where the channel's queue was full
//! at one, and then a message waits; `Over` once its end was sent. `end` takes a branch apart that is over.
//!
//! Each turn that finds nothing waiting looks at the board first. Where the run is interrupted the branch ends
//! as halted; so it does behind an end of the topic that isn't a whole one. Where memory is wanting it ends so.
//! What it sent are pieces of what its pipe gives of what it received, all of it unless it was stopped, and
//! then its end (`EndsBranch`). No call answers an error.
//!
//! A branch whose pipe wants no more, as behind a `take`, goes on receiving, and ends with the topic. One that
//! found a fault or no memory is over and receives no more: who gets that end interrupts the run, and doesn't
//! wait for that branch's queue of the topic.
//!
//! Nothing here runs.
#![tactic(auto)]

pub mod branch;
pub mod crossing;
pub(crate) mod news;
pub(crate) mod receive;
pub(crate) mod stage;
pub(crate) mod steps;
pub mod turn;

pub use branch::{Branch, BranchEnd};
pub use turn::BranchTurn;
