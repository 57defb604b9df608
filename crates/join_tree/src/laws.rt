//! Laws of a main tree and its streams, each the contract of a function that does nothing.
ghost use Rattle.join_tree.specs.Laws.{GuestsStay, MainGrows, MainMayFinish, MainSettles, StreamsLeaveLast};

use scope_tree::Finish;

/// How a main tree begins, and that each call keeps what is known of it.
pub fn main_grows<P: Finish>()
    ensures { MainGrows P.ends }
{}

/// Which seats are out while none goes out or comes in.
pub fn guests_stay<P>()
    ensures { GuestsStay P }
{}

/// The main seat may finish, and what its ledger tells then.
pub fn main_settles<P: Finish>()
    ensures finish { MainMayFinish P.ends }
    ensures settles { MainSettles P.ends }
{}

/// Each stream closes its root before it leaves.
pub fn streams_leave_last<P>()
    ensures { StreamsLeaveLast P }
{}
