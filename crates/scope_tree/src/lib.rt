//! Scopes in a tree, each with the rows that were acquired in it, over the seat of one stream: closing
//! a scope ends what is open in it and below it, in the reverse of the order in which it came.
//!
//! A lease keeps the rows that it covers from their ends until it is cancelled, by the stream that
//! it was made for or by the one that made it.
//!
//! Each call says in its clauses what the next one asks. So a caller makes a tree over a seat, opens
//! and acquires:
//!
//! ```
//! let mut tree = Tree::new(seat, room);
//! let child = tree.open(desk, 0);
//! tree.acquired(desk, 0, 0, first);
//! tree.acquired(desk, child, 1, second);
//! ```
//!
//! It leases the root for the stream 7, closes it and cancels the lease, or where no memory is left
//! for the lease closes it all the same:
//!
//! ```
//! match tree.lease(alloc, desk, 0, 7) {
//!     Ok(lease) => {
//!         tree.close(desk, 0, Exit::Succeeded);
//!         tree.cancel(desk, lease, Exit::Succeeded);
//!         let (ledger, _) = finish_alone(tree, desk);
//!         Ok(ledger)
//!     }
//! ```
//!
//! Both times it ends the tree and finishes the seat (`finish_alone`):
//!
//! ```
//! let (seat, shelf) = tree.end();
//! (seat.finish(desk), shelf)
//! ```
#![tactic(auto)]

pub mod branch;
mod finalize;
pub mod laws;
mod leases;
mod leaving;
pub mod marks;
pub mod room;
mod rows;
mod tear;
pub mod tree;
mod walk;

pub use branch::{Finish, Spent, Standing};
pub use leases::Lease;
pub use room::Room;
pub use tree::Tree;
