//! Windows on shared vectors.
ghost use Rattle.std.specs.Prelude.{◌≡◌, ◌==◌, ◌++◌, [], length, take, drop, IfOk, OnOk, OnErr, IfErr, slice_get};
ghost use Rattle.std.specs.Iterator.{YieldsFirstRef, item_count};
ghost use Rattle.std.specs.Option.{option_copied};
ghost use Rattle.chunk_core.specs.Windows.{shared_items};

use std::alloc::{AllocError, Global};
use std::cmp;
use std::iter::FusedIterator;
use std::marker::Model;
use std::sync::Arc;

/// A window on a vector that other chunks may share. Contracts see the list of its elements.
#[derive(Drop)]
pub struct Chunk<T> {
    /// None where the chunk was made empty.
    items: Option<Arc<Vec<T>, Global>>,
    from: usize,
    to: usize,
}

impl<T> Model for Chunk<T> {
    ghost use Rattle.std.specs.Prelude.{List, length, slice_range, ◌≤◌};
    ghost use Rattle.chunk_core.specs.Windows.{shared_items};

    ghost Value = { List T };

    ghost view = { λ chunk. slice_range (shared_items chunk.items) chunk.from chunk.to };

    ghost invariant = { λ chunk. (chunk.from ≤ chunk.to) × (chunk.to ≤ length (shared_items chunk.items)) };
}

/// The elements of a chunk in order. Contracts see the list of those still to come.
#[derive(Drop)]
pub struct ChunkIter<'a, T> {
    left: &'a [T],
}

impl<'a, T> Model for ChunkIter<'a, T> {
    ghost use Rattle.std.specs.Prelude.{List};

    ghost Value = { List T };

    ghost view = { λ it. it.left.now };
}

impl<T> Chunk<T> {
    /// A chunk of no elements, which takes no memory.
    pub fn empty() -> Chunk<T>
        ensures { result ≡ [] }
    {
        Chunk {
            items: None,
            from: 0,
            to: 0,
        }
    }

    /// The whole vector, without a copy. At want of memory the vector is dropped.
    pub fn of_vec(alloc: Global, v: Vec<T>) -> Result<Chunk<T>, AllocError>
    where
        T: Drop,
        ensures { IfOk result (λ chunk. chunk ≡ v.items) }
    {
        let to = v.len();
        let items = Some(Arc::new(alloc, v)?);
        Ok(Chunk { items, from: 0, to })
    }

    pub fn len(&self) -> usize
        ensures { result ≡ length self.now }
    {
        self.to - self.from
    }

    pub fn is_empty(&self) -> bool
        ensures { result ≡ (length self.now == 0) }
    {
        self.from == self.to
    }

    /// The element at a place, from 0.
    pub fn get(&self, i: usize) -> Option<&T>
        ensures { option_copied result ≡ slice_get self.now i }
    {
        self.as_slice().get(i)
    }

    pub fn as_slice(&self) -> &[T]
        ensures { result.now ≡ self.now }
    {
        match &self.items {
            Some(items) => {
                let items: &Vec<T> = items;
                &items.as_slice()[self.from..self.to]
            }
            None => &[],
        }
    }

    /// Takes off the first `n` elements, or all where there are no more, without a copy.
    #[tactic(auto, using(crate::proofs::Windows::window_rest, crate::proofs::Windows::window_none))]
    pub fn split(&mut self, n: usize) -> Result<Chunk<T>, AllocError>
        ensures front { IfOk result (λ front. front ≡ take n self.old) }
        ensures rest { OnOk result (self.new ≡ drop n self.old) }
        ensures err { OnErr result (self.new ≡ self.old) }
    {
        let items = shared(&self.items)?;
        let middle = if n < self.to - self.from {
            self.from + n
        } else {
            self.to
        };
        let front = Chunk {
            items,
            from: self.from,
            to: middle,
        };
        self.from = middle;
        Ok(front)
    }

    /// The same window once more, without a copy.
    pub fn share(&self) -> Result<Chunk<T>, AllocError>
        ensures { IfOk result (λ chunk. chunk ≡ self.now) }
    {
        Ok(Chunk {
            items: shared(&self.items)?,
            from: self.from,
            to: self.to,
        })
    }

    /// The vector itself, without a copy, where the window is all of it and no other chunk shares
    /// it; else the chunk.
    pub fn into_vec(self) -> Result<Vec<T>, Chunk<T>>
        ensures ok { IfOk result (λ v. v.items ≡ self) }
        ensures err { IfErr result (λ chunk. chunk ≡ self) }
    {
        let Chunk { items, from, to } = self;
        let Some(items) = items else {
            return Err(Chunk {
                items: None,
                from,
                to,
            });
        };
        if from > 0 || to < items.len() {
            let items = Some(items);
            return Err(Chunk { items, from, to });
        }
        match Arc::try_unwrap(items) {
            Ok(items) => Ok(items),
            Err(items) => {
                let items = Some(items);
                Err(Chunk { items, from, to })
            }
        }
    }

    /// Clones of both, one after the other, in a vector of their own.
    #[tactic(auto, using(crate::proofs::Clones::appended))]
    pub fn concat(&self, alloc: Global, other: &Chunk<T>) -> Result<Chunk<T>, AllocError>
    where
        T: Clone,
        requires same { (x y : T) → T.is_clone x y → y ≡ x }
        ensures { IfOk result (λ both. both ≡ self.now ++ other.now) }
    {
        let mut items = Vec::new(alloc);
        items.extend_with_clones(self.as_slice())?;
        items.extend_with_clones(other.as_slice())?;
        Chunk::of_vec(alloc, items)
    }

    /// The first `n` elements, or all where there are no more.
    pub(crate) fn front(&self, n: usize) -> &[T]
        ensures { result.now ≡ take n self.now }
    {
        let items = self.as_slice();
        &items[..cmp::min(n, items.len())]
    }

    /// Drops the first `n` elements, or all where there are no more.
    #[tactic(auto, using(crate::proofs::Windows::window_rest, crate::proofs::Windows::window_none))]
    pub(crate) fn skip(&mut self, n: usize)
        ensures { self.new ≡ drop n self.old }
    {
        self.from = if n < self.to - self.from {
            self.from + n
        } else {
            self.to
        };
    }

    /// Each element in order.
    pub fn iter(&self) -> ChunkIter<'_, T>
        ensures { result ≡ self.now }
    {
        ChunkIter {
            left: self.as_slice(),
        }
    }
}

/// The vector once more, where there is one.
fn shared<T>(items: &Option<Arc<Vec<T>, Global>>) -> Result<Option<Arc<Vec<T>, Global>>, AllocError>
    ensures { IfOk result (λ again. shared_items again ≡ shared_items items.now) }
{
    match items {
        Some(items) => Ok(Some(Arc::try_clone(items)?)),
        None => Ok(None),
    }
}

impl<'a, T> Iterator for ChunkIter<'a, T> {
    type Item = &'a T;

    ghost next_gives = { YieldsFirstRef (λ left. left) };

    ghost remaining = { item_count (λ left. left) };

    fn next(&mut self) -> Option<&'a T> {
        let (first, others) = self.left.split_first()?;
        self.left = others;
        Some(first)
    }
}

impl<'a, T> FusedIterator for ChunkIter<'a, T> {}
