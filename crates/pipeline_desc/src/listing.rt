//! The list of a plan.
use crate::step::Step;
use chunk_core::{Line, List, Word};

/// A file each of whose lines is the path of one stream more. These streams have the numbers behind
/// those that are described.
#[derive(Drop)]
pub struct ListSpec {
    /// The file that has the paths.
    pub path: Word,
    /// The steps of each of its streams, from the first on.
    pub steps: List<Step>,
    /// What each of its streams gives where it ends in a fault: one element more, and then the end.
    pub on_fault: Option<Line>,
    /// The most lines.
    pub max: u32,
}
