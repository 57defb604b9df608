//! What a collector of many streams leaves that has come to its end, for whoever settles its main tree.
//!
//! Nothing here runs. `collected_runs` says of a collector at its end, as plain data (`IsCollected`), and
//! of the ledger that its main tree settles into: all devices that are left may go back, and once they
//! have, the outer stream and the streams that it gave ran together (`RunsTogether`).
#![tactic(auto)]

pub mod laws;
