//! What the contract of the top call says of calls that are written out: which ones it takes, and
//! that it refuses each that has one thing wrong.
#![tactic(auto)]

pub mod hands;
pub mod refused;
pub mod sources;
pub mod worked;
