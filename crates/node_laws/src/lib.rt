//! What holds of the runs of every node, and of what every pipe gives: laws, and what a few pipes and
//! nodes give, computed.
#![tactic(auto)]

pub mod laws;
