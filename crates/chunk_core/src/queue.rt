//! Chunks in a row, of which elements are taken in order.
ghost use Rattle.std.specs.Prelude.{◌≡◌, ◌++◌, [], take, drop, IfOk, OnOk, OnErr, IfSome, OnSome, IfNone};

use crate::chunk::Chunk;
use std::alloc::{AllocError, Global};
use std::collections::VecDeque;
use std::marker::Model;

/// A row of chunks, which keeps the allocator that it was made with. Contracts see the list of all
/// their elements.
#[derive(Drop)]
pub struct ChunkQueue<T> {
    chunks: VecDeque<Chunk<T>>,
    alloc: Global,
}

impl<T> Model for ChunkQueue<T> {
    ghost use Rattle.std.specs.Prelude.{List};
    ghost use Rattle.std.specs.List.{flat_map};

    ghost Value = { List T };

    ghost view = { λ queue. flat_map (λ chunk. chunk) queue.chunks.items };
}

impl<T> ChunkQueue<T> {
    /// An empty queue, which takes no memory.
    pub fn new(alloc: Global) -> ChunkQueue<T>
        ensures { result ≡ [] }
    {
        ChunkQueue {
            chunks: VecDeque::new(alloc),
            alloc,
        }
    }

    /// Appends the elements of a chunk without a copy, or leaves the queue as it was.
    pub fn push(&mut self, chunk: Chunk<T>) -> Result<(), AllocError>
    where
        T: Drop,
        ensures ok { OnOk result (self.new ≡ self.old ++ chunk) }
        ensures err { OnErr result (self.new ≡ self.old) }
    {
        // An empty chunk isn't kept, so that no call walks over many of them.
        if !chunk.is_empty() {
            self.chunks.push_back(chunk)?;
        }
        Ok(())
    }

    /// Takes the first `n` elements, or all where there are no more, or leaves the queue as it was.
    /// Where the first chunk has them they aren't cloned.
    pub fn take(&mut self, n: usize) -> Result<Chunk<T>, AllocError>
    where
        T: Clone,
        requires same { (x y : T) → T.is_clone x y → y ≡ x }
        ensures front { IfOk result (λ front. front ≡ take n self.old) }
        ensures rest { OnOk result (self.new ≡ drop n self.old) }
        ensures err { OnErr result (self.new ≡ self.old) }
    {
        if let Some(first) = self.chunks.front_mut() {
            if n < first.len() {
                return first.split(n);
            }
        }
        if let Some(first) = self.pop(n) {
            return Ok(first);
        }
        let items = self.front(n)?;
        let front = Chunk::of_vec(self.alloc, items)?;
        self.skip(n);
        Ok(front)
    }

    /// The first chunk, where it is what `take` gives; else the queue stays as it was.
    fn pop(&mut self, n: usize) -> Option<Chunk<T>>
        ensures front { IfSome result (λ front. front ≡ take n self.old) }
        ensures rest { OnSome result (self.new ≡ drop n self.old) }
        ensures none { IfNone result (self.new ≡ self.old) }
    {
        let first = self.chunks.front()?.len();
        if n == first || (first < n && self.chunks.len() == 1) {
            self.chunks.pop_front()
        } else {
            None
        }
    }

    /// Clones of the first `n` elements.
    fn front(&self, n: usize) -> Result<Vec<T>, AllocError>
    where
        T: Clone,
        requires same { (x y : T) → T.is_clone x y → y ≡ x }
        ensures { IfOk result (λ front. front.items ≡ take n self.now) }
    {
        let mut front = Vec::new(self.alloc);
        for chunk in self.chunks.iter() {
            let wanted = n - front.len();
            if wanted == 0 {
                break;
            }
            front.extend_with_clones(chunk.front(wanted))?;
        }
        Ok(front)
    }

    /// Drops the first `n` elements.
    fn skip(&mut self, mut n: usize)
    where
        T: Drop,
        ensures { self.new ≡ drop n self.old }
    {
        while let Some(first) = self.chunks.front_mut() {
            if n < first.len() {
                first.skip(n);
                return;
            }
            n -= first.len();
            self.chunks.pop_front();
        }
    }
}
