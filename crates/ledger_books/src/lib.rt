//! What may follow the events of a ledger so far, by what is kept of them: the place of each event
//! under what it notes, in one hash map, the places of the leases and of the rows, and what the
//! events ahead tell.
//!
//! - `Books` goes through a ledger once: `may_follow` tells whether the next event may stand there,
//!   `note` keeps it. Nothing but places is kept, and the events are read at them, so one fact says
//!   what the books hold (`Keeps`).
//! - `Ends` is told ahead, when the books are made: where each thing is noted first, and by when the
//!   leases behind each row are canceled. As a scope is opened it keeps the place at which that one
//!   is closed: that of its own Close, or that of its parent. Only the legal front of a ledger is
//!   judged by it, and nothing behind that front can change what it tells there (`Foresees`).
//! - `Jumps` has the ways up: from each scope to its parent and to one far above.
//! - `Waits` has a seat for each lease that isn't canceled, in a room of its scope that lies in the
//!   parent's (`Rooms`), and the greatest of their places in any room (`Peaks`): so it tells that no
//!   lease keeps a row, however many others are in force.
//! - `Lenders` guesses which lease covers the rows of a scope, for who asks whether one does.
//! - `first_illegal` is the walk: the place of the first event that may not follow those before it,
//!   or none where the ledger is legal, and never the one for the other.
//! - `scopes` and `leases` answer what a rule asks of the events so far.
//!
//! What an event costs: some look-ups by a hash, and a number of steps that grows with the logarithm
//! of the depth of its scope or of the number of leases. A walk stands behind each of the three quick
//! ways (`covering`, the walk from parent to parent, the one over the rows of a stream): it is taken
//! where a quick way tells nothing, so that nothing rests on what is guessed. In a legal ledger the
//! quick ways tell what holds, so a walk is taken once, at the event that breaks a rule.
//!
//! ```
//! let mut books = Books::of(alloc, events)?;
//! for (i, event) in events.iter().enumerate() {
//!     if !books.may_follow(alloc, &events[..i], *event)? {
//!         return Ok(Some(i as u64));
//!     }
//!     books.note(*event, i as u64)?;
//! }
//! Ok(None)
//! ```
#![tactic(auto)]

pub mod books;
pub mod ends;
pub mod index;
pub mod jumps;
pub mod lasts;
pub mod leases;
pub mod lenders;
pub mod peaks;
pub mod rooms;
pub mod scopes;
pub mod untils;
pub mod waits;

pub use books::{Books, first_illegal};
pub use ends::Ends;
pub use index::{Index, Key};
pub use jumps::Jumps;
pub use lenders::Lenders;
pub use waits::Waits;
