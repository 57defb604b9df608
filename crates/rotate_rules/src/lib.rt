//! What a rotating output may leave, as plain data: one file that is read, and the files that it is
//! copied into, each of so many bytes but the last. Nothing here runs.
//!
//! `rotate_work` is the work (`Work` of run_rules) whose rows are the file that is read and its
//! pieces (`piece_of`); `RotatesFiles` says that a run did it, never with more than two of the files
//! open (`HoldsTwo`).
#![tactic(auto)]

pub mod laws;
