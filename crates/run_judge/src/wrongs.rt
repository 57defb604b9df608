//! What is wrong with a call.
use std::alloc::{AllocError, Global};

/// A line for each thing that is wrong.
#[derive(Drop)]
pub struct Wrongs {
    pub alloc: Global,
    pub lines: Vec<String>,
}

impl Wrongs {
    pub fn new(alloc: Global) -> Wrongs {
        let lines = Vec::new(alloc);
        Wrongs { alloc, lines }
    }

    /// Keeps what is wrong, with a number, unless this holds.
    pub fn unless(&mut self, holds: bool, what: &str, number: usize) -> Result<(), AllocError> {
        if !holds {
            self.lines
                .push(format!(in self.alloc; "{what}: {number}")?)?;
        }
        Ok(())
    }
}
