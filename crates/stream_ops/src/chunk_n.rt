//! Elements in groups of so many.
ghost use Rattle.std.specs.Prelude.{◌≡◌, ◌++◌, ◌<◌, ℕ, List, [], IfOk, OnOk, length, vec_len};
ghost use Rattle.chunk_core.specs.Elements.{Element, LoadKind, elements, kind_of};
ghost use Rattle.chunk_core.specs.Feed.{Meaning};
ghost use Rattle.pull_nodes.specs.Pipes.{IsMeaningOf};
ghost use Rattle.pull_nodes.specs.Plain.{ungrouped};
ghost use Rattle.pull_nodes.specs.declared.pipe.Pipe.TheVariants as pipe;
ghost use Rattle.stream_ops.specs.ChunkNState.{KeepsGroup, StandsFor, in_groups};

use crate::loads::{Appended, Spares};
use chunk_core::{Chunk, Fed, Feed, Line, Load, Row};
use std::alloc::{AllocError, Global};
use std::{cmp, mem};

/// `ChunkN`: the size of a group, and the elements behind the last whole group, which are all of
/// one kind.
#[derive(Drop)]
pub struct ChunkNPipe {
    size: usize,
    bytes: Vec<u8>,
    lines: Vec<Line>,
    rows: Vec<Row>,
    spare: Box<Spares>,
}

/// All that is held.
fn take_all<T: Drop>(alloc: Global, held: &mut Vec<T>) -> Result<Chunk<T>, AllocError>
    ensures all { IfOk result (λ all. all ≡ held.old.items) }
    ensures none { OnOk result (held.new.items ≡ []) }
{
    Chunk::of_vec(alloc, mem::replace(held, Vec::new(alloc)))
}

/// All that is held, and then the chunk.
fn take_with<T: Appended>(
    alloc: Global,
    spare: &mut T::Spare,
    held: &mut Vec<T>,
    chunk: Chunk<T>,
) -> Result<Chunk<T>, AllocError>
    ensures all { IfOk result (λ all. all ≡ held.old.items ++ chunk) }
    ensures none { OnOk result (held.new.items ≡ []) }
{
    if held.is_empty() {
        return Ok(chunk);
    }
    T::append(alloc, spare, held, chunk.as_slice())?;
    T::give(alloc, spare, mem::replace(held, Vec::new(alloc)))
}

/// The groups that are now whole; what stands behind them is held.
fn take_groups<T: Appended>(
    alloc: Global,
    spare: &mut T::Spare,
    size: usize,
    held: &mut Vec<T>,
    mut chunk: Chunk<T>,
) -> Result<Chunk<T>, AllocError>
    requires open { vec_len held.old < size }
    ensures groups { IfOk result (λ groups. groups ≡ in_groups size (held.old.items ++ chunk)) }
    ensures rest { OnOk result (held.new.items ≡ ungrouped size (held.old.items ++ chunk)) }
{
    T::regain(spare);
    let wanted = size - held.len();
    if chunk.len() < wanted {
        let none = chunk.split(0)?;
        T::append(alloc, spare, held, chunk.as_slice())?;
        return Ok(none);
    }
    let more = chunk.len() - wanted;
    let front = chunk.split(wanted + (more - more % size))?;
    let groups = take_with(alloc, spare, held, front)?;
    T::append(alloc, spare, held, chunk.as_slice())?;
    Ok(groups)
}

impl ChunkNPipe {
    /// Nothing was read. Groups of 0 are groups of one.
    pub fn new(alloc: Global, n: u32) -> Result<ChunkNPipe, AllocError>
        ensures { IfOk result (λ q. (m : Meaning) → IsMeaningOf (pipe.ChunkN n) m → StandsFor q m []) }
    {
        Ok(ChunkNPipe {
            size: cmp::max(n, 1) as usize,
            bytes: Vec::new(alloc),
            lines: Vec::new(alloc),
            rows: Vec::new(alloc),
            spare: Spares::new(alloc)?,
        })
    }

    fn take_rest(&mut self, alloc: Global) -> Result<Load, AllocError>
        ensures rest { IfOk result (λ rest. (kind : LoadKind) (ys : List Element) → KeepsGroup self.old kind ys → elements rest ≡ ys) }
        ensures kind { IfOk result (λ rest. (kind : LoadKind) (ys : List Element) → KeepsGroup self.old kind ys → 0 < length ys → kind_of rest ≡ kind) }
        ensures none { OnOk result ((kind : LoadKind) (ys : List Element) → KeepsGroup self.old kind ys → KeepsGroup self.new kind []) }
    {
        if !self.lines.is_empty() {
            return Ok(Load::Lines(take_all(alloc, &mut self.lines)?));
        }
        if !self.rows.is_empty() {
            return Ok(Load::Rows(take_all(alloc, &mut self.rows)?));
        }
        Ok(Load::Bytes(take_all(alloc, &mut self.bytes)?))
    }
}

impl Feed for ChunkNPipe {
    ghost use Rattle.std.specs.Prelude.{refl};
    ghost use Rattle.pull_nodes.specs.declared.pipe.Pipe.TheVariants as pipe;
    ghost use Rattle.pull_nodes.proofs.Meanings.{sound_from};
    ghost use Rattle.stream_ops.specs.ChunkNState.{StandsFor, Comes};

    ghost stands = { StandsFor };

    ghost comes = { Comes };

    ghost sound = { λ q m xs h. sound_from (pipe.ChunkN h.0) m h.1 xs refl };

    fn feed(&mut self, alloc: Global, load: Load) -> Result<Fed, AllocError> {
        match load {
            Load::Bytes(bytes) => {
                let groups = take_groups(alloc, &mut (), self.size, &mut self.bytes, bytes)?;
                Ok(Fed::Out(Load::Bytes(groups)))
            }
            Load::Lines(lines) => {
                let spare = &mut self.spare.lines;
                let groups = take_groups(alloc, spare, self.size, &mut self.lines, lines)?;
                Ok(Fed::Out(Load::Lines(groups)))
            }
            Load::Rows(rows) => {
                let spare = &mut self.spare.rows;
                let groups = take_groups(alloc, spare, self.size, &mut self.rows, rows)?;
                Ok(Fed::Out(Load::Rows(groups)))
            }
        }
    }

    fn finish(&mut self, alloc: Global) -> Result<Fed, AllocError> {
        let rest = self.take_rest(alloc)?;
        if rest.is_empty() {
            return Ok(Fed::End);
        }
        Ok(Fed::Out(rest))
    }
}
