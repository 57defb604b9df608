//! The memory of the chunk that was given last, to be filled again.
ghost use Rattle.std.specs.Prelude.{◌≡◌, IfOk};

use crate::chunk::Chunk;
use std::alloc::{AllocError, Global};

/// The chunk that was given last. Once nobody else has it, its memory is filled again. No clause
/// speaks of it.
#[derive(Drop)]
pub struct Refill<T> {
    last: Option<Chunk<T>>,
}

impl<T> Refill<T> {
    /// Nothing was given yet.
    pub fn new() -> Refill<T> {
        Refill { last: None }
    }

    /// The vector of the last chunk, where nobody else has it.
    pub fn regain(&mut self) -> Option<Vec<T>>
    where
        T: Drop,
    {
        self.last.take()?.into_vec().ok()
    }

    /// The vector as a chunk, of which a share is kept.
    pub fn give(&mut self, alloc: Global, items: Vec<T>) -> Result<Chunk<T>, AllocError>
    where
        T: Drop,
        ensures { IfOk result (λ chunk. chunk ≡ items.items) }
    {
        let given = Chunk::of_vec(alloc, items)?;
        self.last = given.share().ok();
        Ok(given)
    }
}
