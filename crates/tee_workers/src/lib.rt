//! Workers for the branches of a tee: each branch on a thread of its own, from which it comes back.
//!
//! `begin` gives a branch a thread in a scope, where it makes turns until it is over; what all branches of a
//! run share is a `Site`: the topic, the channel's queue, the board and the gate. Where no thread can be
//! started the branch stays here, and `Hired::turn` gives it a turn of the caller's. `Hired::settle` joins the
//! thread and gives the branch once it is over, which a branch that is here is made by turns: so its end has to
//! be on its way to it.
//!
//! Want of memory for a thread is no error: the branch stays here. A branch comes back as the branch of the
//! same pipe, at the same queues and board (`ComesBack`). No clause says that a thread runs, or that a branch
//! which waits comes to its end.
//!
//! Nothing here runs by itself: a run begins its branches in a scope, and settles them behind their ends.
#![tactic(auto)]

pub mod away;
pub mod begins;
pub mod hired;
pub mod site;

pub use away::AsBegun;
pub use begins::begin;
pub use hired::Hired;
pub use site::Site;
