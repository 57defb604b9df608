//! One state for every pipe, and what a pipe gives of a whole input, however the input is cut.
//!
//! `AnyPipe` is the state of a `Pipe`, whichever it is: it is made of the pipe as plain data and the
//! dictionaries of the tables in which pipes look up (`PipeState::of`; a table that isn't among these
//! has no values), and fed and told the end as any other (`Feed`). `feed_all` feeds loads to a state
//! one after another, `finish_all` tells it the end, `pour` does both, and `pour_through` does so for
//! a pipe. `Poured` has the loads that came, and the fault where the input has one; a fault is no
//! error. The one error is `AllocError`, after which nothing is kept.
//!
//! ```
//! /// The input as far as it is UTF-8, and the fault.
//! fn checked(
//!     alloc: Global,
//!     front: &[u8],
//!     back: &[u8],
//! ) -> Result<(Vec<u8>, Option<Code>), AllocError> {
//!     let mut loads = Vec::new(alloc);
//!     loads.push(bytes(alloc, front)?)?;
//!     loads.push(bytes(alloc, back)?)?;
//!     let tables = Dicts::new(alloc);
//!     let Poured { loads, fault } = pour_through::<AnyPipe>(alloc, &tables, Pipe::Utf8, loads)?;
//!     Ok((text_of(alloc, loads.as_slice())?, fault))
//! }
//! ```
#![tactic(auto)]

pub mod crossing;
pub mod pouring;
pub mod state;

pub use pouring::{Poured, feed_all, finish_all, pour, pour_through};
pub use state::AnyPipe;
