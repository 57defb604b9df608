//! Seats that threads share at work: callers that see public clauses alone.
//!
//! In `same` a shared seat has the tree that the scripts of `tree_scripts` take. In `notes` two threads
//! note at one table, and in `apart` two seats at handles of their own. In `races` one thread closes a
//! row while another lets go of its last lease. In `crowds` eight threads live through rows of their own
//! and let go of rows that all of them leased, while a ninth closes these. `worked_trees` runs those
//! scripts over that tree, and `worked_threads` the threads.
#![tactic(auto)]

pub mod apart;
pub mod crowds;
pub mod hosting;
pub mod notes;
pub mod races;
pub mod rows;
pub mod same;
pub mod staying;
