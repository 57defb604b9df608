//! Hands on threads of their own, from which they come back.
//!
//! `begin` gives a hand a thread in a scope, where it makes turns until it is over; what all hands of a run
//! share is a `Place`. Who finds nothing to do, a hand or the caller, waits for its bell, which rings once there is
//! (`Bells`); of that no contract speaks. Before each turn hand j passes the gate with the number j. Where no thread can be
//! started the hand stays here, and `turn` gives it a turn of the caller's. `settle` joins the thread and
//! gives the hand once it is over, which a hand that is here is made by turns: so its end has to be on
//! its way to it.
//!
//! Want of memory for a thread is no error: the hand stays here. A hand comes back as the hand that it was,
//! and where what it said before were results, so are what it said since (`Returns`).
//!
//! `Crew` is all hands of a run with their dealer. `Crew::begin` begins them in a scope; `put` deals a load,
//! while fewer are out than there are hands; `take` gives the next result in the order of the dealing; and
//! `finish`, once all results were taken, sends each hand its end and takes them in. While one of them waits
//! for a queue it gives the hands that are here a turn each. At `finish` it is known that what was taken is,
//! in order, what comes of what was dealt, apart from results that lacked memory, which are empty and say so
//! (`How::Memory`). That a call comes back isn't claimed: each waits for other threads.
//!
//! Nothing here runs by itself: a run begins its crew in a scope, deals, takes, and finishes.
#![tactic(auto)]

pub mod away;
pub mod begins;
pub mod bell;
pub mod crew;
pub mod hired;
pub mod place;

pub use away::AsHired;
pub use begins::begin;
pub use bell::Bells;
pub use crew::Crew;
pub use hired::Hired;
pub use place::Place;
