//! What holds of the ledger after any calls of a tree of scopes.
//!
//! A function over a tree says in its contract which calls it makes (`Called`), and no more of the
//! tree. The laws say what follows from that, whatever the calls were: once the root is closed and
//! the seat finished the ledger is lawful, complete and in order (`IsWhole`); the shelf has what the
//! ledger says that ended, with the exits that were noted; a lease has the rows that the ledger
//! tells. Each law is the contract of a function in `laws` that does nothing: code calls it where a
//! proof needs it, or the proof cites the lemma behind it. No law has an error.
//!
//! By `calls_stay_alone` this caller's ledger is whole, over any seat:
//!
//! ```
//! pub fn one_row<S: RowSeat>(
//!     seat: S,
//!     room: Room<S::Pay>,
//!     desk: &mut S::Desk,
//!     pay: S::Pay,
//! ) -> (Ledger, List<Spent<S::Pay>>)
//! where
//!     S::Pay: Finish,
//!     requires fits { S.fits seat desk.old }
//!     requires start { S.view seat ≡ start Outer 1 8 (S.view seat).splits }
//!     requires room { (2 ≤ scope_room room) × (1 ≤ row_room room) }
//!     ensures whole { IsWholeLedger result.0 }
//! {
//!     let mut tree = Tree::new(seat, room);
//!     let child = tree.open(desk, 0);
//!     tree.acquired(desk, child, 0, pay);
//!     tree.close(desk, 0, Exit::Succeeded);
//!     let (seat, shelf) = tree.end();
//!     let ledger = seat.finish(desk);
//!     (ledger, shelf)
//! }
//! ```
#![tactic(auto)]

pub mod laws;
