//! What is kept of a stream that is open no longer.

use chunk_core::List;
use pull_stepper::Held;
use scope_tree::Spent;

/// The devices of a stream that has ended or that couldn't be begun: those that were acquired, on the
/// shelf of its tree with the rows of tables that it was the last to leave, and those never opened.
#[derive(Drop)]
pub struct Leftover<V> {
    pub shelf: List<Spent<Held<V>>>,
    pub unopened: List<V>,
}
