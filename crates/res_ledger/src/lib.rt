//! The ledger: what the streams of a run did with their scopes, rows and leases, event by event.
//!
//! - `Ledger` is the list of `Event`s, whose stamps are their places: `of_events`, `len`, `get`,
//!   `as_slice`. An event says which stream did (`StreamNo`) `What`.
//! - `text` gives a ledger's text. Its one error is want of memory (`AllocError`). The crate
//!   `ledger_text` reads a text.
//! - The rules stand in the specs, for the contracts of those who note events: which event may
//!   follow (`IsLegal`), that all was ended (`IsComplete`), in which order and with which exit
//!   (`IsOrdered`). `laws` of `ledger_text` has what follows from them.
//!
//! A ledger of three events, whose stamps are 0, 1 and 2:
//!
//! ```
//! Ok(Ledger::of_events(vec![in alloc; first, second, third]?))
//! ```
//!
//! Its text, of the three steps of a row that is acquired, closed and finalized:
//!
//! ```
//! let one_row = [
//!     What::Acquire { row: 0, scope: 0 },
//!     What::Close { scope: 0, exit },
//!     What::Final { row: 0, exit, ok },
//! ];
//! let written = b"ledger 3\n0 acquire 0 0\n0 close 0 succeeded\n0 final 0 succeeded ok\n";
//! ```
//!
//! ```
//! let ledger = of_events(alloc, by, steps)?;
//! same(rt, text(alloc, &ledger)?.as_slice(), written);
//! ```
#![tactic(auto)]

pub mod event;
pub mod ledger;
mod texts;

pub use event::{Event, StreamNo, What};
pub use ledger::Ledger;
pub use texts::text;
