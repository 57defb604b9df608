//! What the evaluation of a file may show, as plain data: its lines go in groups through a chain of
//! steps, and what comes of each group is printed, in the order of the groups. Nothing here runs.
//!
//! `answer_to` is the answer of one thread to the bytes of a file: its frames, and how stream 0 ends.
//! `Evaluates` says that a run gave it, or that a device or a write failed or memory was wanting, and
//! what is so of the devices and the ledger then; no number of threads stands in it, and `laws` has that
//! runs over the same content print the same.
#![tactic(auto)]

pub mod laws;
