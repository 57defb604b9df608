//! A node that is run over a tree of scopes and its devices, turn by turn.
//!
//! `Stepper::new` takes a node, a tree of which only the root is open, a device for each place, and the
//! tables in which pipes look up, which it keeps; where memory is wanting it gives tree and devices
//! back (`Unmade`). `turn` does one thing, and `uncons` makes turns until elements or the end come
//! (`Unconsed`); a fault is an end. Where one of them answers `AllocError` the run may only be
//! halted. `halt` closes all that is open, as canceled. Over a seat that sees how far the ledger is,
//! `mark` keeps what it sees, and `halt_behind` closes the root behind that. `how` tells how the run
//! ended, and `end` takes it apart: the tree, with the devices that were acquired on its shelf, and
//! those that were never opened (`Ended`). Only `new` and `end` ask that the tables may be dropped. `Held` is a device as
//! the payload of a row, which is closed as the row ends; `Resources` is a stream's tree with its
//! devices, as what `pull_turns` runs a node over.
//!
//! In `worked_nodes`, `gather` asks for the first of what is left again and again, and `run_whole`
//! runs a node so, and halts it where it hasn't ended:
//!
//! ```
//! let mut quiet = 0;
//! for _ask in 0..pace.asks {
//!     match stepper.uncons(desk, pace.turns)? {
//!         Unconsed::Chunk(load) => out.push(load)?,
//!         Unconsed::End(_) => return Ok(quiet),
//!         Unconsed::Again => quiet += 1,
//!     }
//! }
//! Ok(quiet)
//! ```
//!
//! ```
//! let mut stepper = Stepper::<S, V, F>::new(alloc, node, tree, devices, tables, pace.chunk)?;
//! let mut loads = Vec::new(alloc);
//! let quiet = gather(&mut stepper, desk, &mut loads, pace);
//! close(&mut stepper, desk);
//! Ok(Whole {
//!     loads,
//!     quiet,
//!     ended: stepper.end(),
//! })
//! ```
#![tactic(auto)]

pub mod crossing;
pub mod held;
pub mod marks;
pub(crate) mod places;
pub mod resources;
pub mod stepper;

pub use held::Held;
pub use pull_turns::{Turn, Unconsed};
pub use resources::Resources;
pub use stepper::{Ended, Stepper, Unmade};
