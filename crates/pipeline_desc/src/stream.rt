//! One stream of a plan.
use crate::join::Join;
use crate::step::Step;
use chunk_core::{Line, List, Word};

/// A second file, which goes through the same steps as the first.
#[derive(Drop)]
pub struct Second {
    /// What is made of the two.
    pub join: Join,
    /// The file.
    pub path: Word,
    /// The steps behind the join, from the first on.
    pub after: List<Step>,
}

/// A file whose bytes go through steps.
#[derive(Drop)]
pub struct StreamSpec {
    /// The file.
    pub path: Word,
    /// The steps, from the first on.
    pub steps: List<Step>,
    /// The other side, where there is one.
    pub second: Option<Second>,
    /// What is given where the stream ends in a fault: one element more, and then the end.
    pub on_fault: Option<Line>,
    /// The file that the stream's text is written to, so that none of it is printed.
    pub to: Option<Word>,
    /// The number of another stream, with whose end this one is interrupted.
    pub until: Option<u32>,
}
