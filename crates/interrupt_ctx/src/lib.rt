//! A board of interruption: a word for each context of a run, which tells whether the context was
//! interrupted, and why. It is set once, for good, and all threads of the run may set it and look at it.
//!
//! Context 0 is the whole run, and context 1 + k is that of stream k, its child: an interruption of the
//! run reaches each of its streams, one of a stream reaches neither the run nor another stream.
//!
//! `Board::new` makes a board and its first seat. Who sets or looks has a seat (`BoardSeat`), which takes
//! no memory and keeps, for contracts alone, what it has set and seen. `set` answers whether it was this
//! call that interrupted the context. `look` answers why a context is to stop: its own cause, or where it
//! has none that of the whole run. `split` makes a seat for another thread, and `join` takes it in again.
//! A `BoardRef` is a handle that owns a board with the other handles on it, each on a thread of its own
//! (`share`).
//!
//! No call waits, tries again or takes a lock. The only error is `AllocError`, of `Board::new` and of a
//! handle's `new` and `share`; no other call takes memory.
//!
//! Here `sets` asserts what `set` answers in a context, and `finds_each` what a look finds in each:
//!
//! ```
//! let (board, mut seat) = Board::new(rt.alloc(), 3)?;
//! finds(&rt, &board, &mut seat, 1, None);
//! sets(&rt, &board, &mut seat, 1, Why::Until, true);
//! finds_each(&rt, &board, &mut seat, &[None, Some(Why::Until), None]);
//! sets(&rt, &board, &mut seat, 1, Why::Sink, false);
//! finds(&rt, &board, &mut seat, 1, Some(Why::Until));
//! sets(&rt, &board, &mut seat, 0, Why::Memory, true);
//! finds_each(
//!     &rt,
//!     &board,
//!     &mut seat,
//!     &[Some(Why::Memory), Some(Why::Until), Some(Why::Memory)],
//! );
//! sets(&rt, &board, &mut seat, 0, Why::Fault, false);
//! Ok(())
//! ```
#![tactic(auto)]

pub mod board;
pub mod crossing;
pub mod handle;
mod rule;
pub mod view;
pub mod why;

pub use board::{Board, BoardSeat};
pub use handle::BoardRef;
pub use view::{Interruption, Look, View};
pub use why::{Stop, Why};
