//! What holds of a main tree and of the trees of the seats that it split off: how the ledger stands
//! once each of them is back.
//!
//! A family (`IsFamily`) is a main tree with the seats that it split off, told by the stream of each
//! and by what was noted before. `laws::family_grows` says that a tree at its start is one, and that
//! calls, splits and joins keep it one: a loop that starts streams and takes them in again has it as
//! its invariant. At the end `family_may_finish` gives what `RowSeat::finish` asks, and
//! `family_is_whole` that the ledger is lawful, complete and in order. Where each seat was split off
//! in pace (`IsInPace`), `family_is_paced` says that each stream's lease and the next one's stand
//! before its first event, that no more streams are open at once than the width, and that a stream
//! begins once the leases of all before it but fewer than the width were cancelled.
//!
//! All is plain data that only contracts see, and nothing here runs: each law is the contract of a
//! function that does nothing. The calls of `join_tree` keep a family by them.
#![tactic(auto)]

pub mod laws;
