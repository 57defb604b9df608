//! Calls of every command at random, and what is wrong with what was seen of them.
//!
//! `call_of` draws a `Call` of a command: its words, what standard input has, the files, and which calls on all of these fail. Who makes
//! the call keeps what is left of it as a `Seen`, of which `judge` tells what is wrong, and `page_of` shows all of it to a reader.
//!
//! ```
//! let call = call_of(dice, command)?;
//! let seen = see(rt, dice.alloc, &call)?;
//! let wrongs = judge(dice.alloc, &call, &seen)?;
//! ```
#![tactic(auto)]

pub mod audits;
pub mod call;
pub mod drawing;
pub mod evals;
pub mod judging;
pub mod ledgers;
pub mod page;
pub mod refusals;
pub mod rotates;
pub mod singles;
pub mod tees;
pub mod whole;

pub use call::{Asked, Call, Chain};
pub use drawing::{COMMANDS, call_of, command_of};
pub use judging::judge;
pub use page::page_of;
