//! What the rules of a run say of runs that are written out: which ones they take, and that each
//! run with one thing wrong is refused; and what follows of them. The rules are facts. For those of
//! ends, exits, pace, tables, rows and the order of frames there are tests that compute, each of which
//! is exact.
#![tactic(auto)]

pub mod exact;
pub mod giving;
pub mod leaving;
pub mod refused;
pub mod worked;
