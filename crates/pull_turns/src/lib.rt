//! Runs a node turn by turn: each turn does one thing, and tells what came of it.
//!
//! `Runner::over` takes a node, what it is run over (`Outside`: devices by their places, and
//! scopes), and the most bytes of a read. `turn` makes one turn (`Turn`), over the tables in which
//! pipes look up, and `uncons` turns until elements or the end come (`Unconsed`), not more than so
//! many; a fault is an end. Where one of them answers `AllocError`, the one error, the run may only
//! be halted. `halt` closes all that is open, as canceled; `how` tells how the run ended, and `end`
//! gives the outside back; `outside_mut` lends it in between. `Rest` is what is left of a node that runs.
//!
//! In `worked_nodes`, `advance` makes turns to the first that gives elements or is the end, over any
//! outside, and knows that what it gives is a front of each run of the node:
//!
//! ```
//! for _turn in 0..turns {
//!     let turn = runner.turn(tables, desk)?;
//!     match turn {
//!         Turn::Quiet => {}
//!         Turn::Chunk(_) | Turn::Done | Turn::Fault(_) => return Ok(turn),
//!     }
//! }
//! Ok(Turn::Quiet)
//! ```
#![tactic(auto)]

pub mod crossing;
pub(crate) mod enter;
pub(crate) mod groups;
pub(crate) mod leaf;
pub(crate) mod loads;
pub mod outside;
pub(crate) mod piping;
pub(crate) mod reading;
pub mod rest;
pub mod runner;
pub(crate) mod sided;
pub(crate) mod step;
pub mod turn;
pub mod writing;

pub use outside::Outside;
pub use rest::{Rest, When};
pub use runner::{Runner, Unconsed};
pub use turn::Turn;
