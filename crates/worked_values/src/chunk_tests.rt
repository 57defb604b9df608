ghost use Rattle.std.specs.Prelude.{◌≡◌, IfOk};
ghost use Rattle.chunk_core.specs.Elements.{kind_of};
ghost use Rattle.chunk_core.specs.Feed.{MayFeed};

use crate::asserts::{prints, renders, same};
use chunk_core::{Chunk, ChunkQueue, Code, Fed, Feed, How, Line, Load, Row};
use std::alloc::{AllocError, Global};
use std::mem;
use std::process::Abort;
use std::test::Fail;

const UNEVEN_ROWS: &[&[&[u8]]] = &[&[b"a,\"b", b"c d"], &[b"e"]];

/// Keeps its bytes until the input ends.
#[derive(Drop)]
struct Gather {
    held: Vec<u8>,
}

impl Feed for Gather {
    ghost use Rattle.std.specs.Prelude.{◌≡◌, [], map, None};
    ghost use Rattle.std.proofs.Common.{ap};
    ghost use Rattle.chunk_core.specs.Elements.Element.{Byte};
    ghost use Rattle.chunk_core.specs.Elements.LoadKind.{Bytes};

    ghost stands = { λ q m xs. (m ≡ record { takes = Bytes; gives = Bytes; part = λ _. record { list = []; fault = None }; all = λ ys. record { list = ys; fault = None } }) × (xs ≡ map Byte q.held.items) };

    ghost comes = { λ q k ys c. (k ≡ Bytes) × (ys ≡ map Byte q.held.items) × (c ≡ None) };

    ghost sound = { λ q m xs h. ap (λ n. (n.part xs).fault) h.0 };

    fn feed(&mut self, alloc: Global, load: Load) -> Result<Fed, AllocError> {
        let Load::Bytes(bytes) = load else {
            return Ok(Fed::End);
        };
        self.held.extend_from_slice(bytes.as_slice())?;
        let none = Chunk::of_vec(alloc, Vec::new(alloc))?;
        Ok(Fed::Out(Load::Bytes(none)))
    }

    fn finish(&mut self, alloc: Global) -> Result<Fed, AllocError> {
        if self.held.is_empty() {
            return Ok(Fed::End);
        }
        let held = mem::replace(&mut self.held, Vec::new(alloc));
        Ok(Fed::Out(Load::Bytes(Chunk::of_vec(alloc, held)?)))
    }
}

/// What a pipe answers to a load, or where that is no fault to the end behind it.
fn give<P: Feed>(alloc: Global, pipe: &mut P, load: Load) -> Result<Fed, AllocError>
    requires { MayFeed (P.stands pipe.old) (kind_of load) }
{
    match pipe.feed(alloc, load)? {
        Fed::Out(_) => pipe.finish(alloc),
        fed => Ok(fed),
    }
}

fn bytes_of(alloc: Global, bytes: &[u8]) -> Result<Chunk<u8>, AllocError>
    ensures { IfOk result (λ chunk. chunk ≡ bytes.now) }
{
    Chunk::of_vec(alloc, Vec::from_slice(alloc, bytes)?)
}

/// The chunk, which must not come back as a vector: the text says what that would mean.
fn still_chunk(chunk: Chunk<u8>, meaning: &'static str) -> Result<Chunk<u8>, Fail> {
    match chunk.into_vec() {
        Ok(_) => Err(Fail::from(meaning)),
        Err(chunk) => Ok(chunk),
    }
}

fn vector_of(chunk: Chunk<u8>) -> Result<Vec<u8>, Fail> {
    match chunk.into_vec() {
        Ok(bytes) => Ok(bytes),
        Err(_) => Err(Fail::from("the vector didn't come back")),
    }
}

fn rows_of(alloc: Global, rows: &[&[&[u8]]]) -> Result<Chunk<Row>, AllocError> {
    let mut copies = Vec::new(alloc);
    for fields in rows.iter().copied() {
        let mut row = Row::new(alloc);
        for field in fields {
            row.push(Line::copy_of(alloc, field)?)?;
        }
        copies.push(row)?;
    }
    Chunk::of_vec(alloc, copies)
}

#[test]
fn a_vector_comes_back_where_nobody_shares_it(rt: HostRuntime) -> Result<(), Fail> {
    let chunk = bytes_of(rt.alloc(), &[1, 2])?;
    let share = chunk.share()?;
    let chunk = still_chunk(chunk, "a shared vector came back")?;
    drop(share);
    same(&rt, vector_of(chunk)?.as_slice(), &[1, 2]);
    Ok(())
}

#[test]
fn a_part_of_a_vector_stays_a_chunk(rt: HostRuntime) -> Result<(), Fail> {
    let mut chunk = bytes_of(rt.alloc(), &[1, 2, 3])?;
    let front = chunk.split(2)?;
    drop(chunk);
    let front = still_chunk(front, "more than the window came back")?;
    same(&rt, front.as_slice(), &[1, 2]);
    Ok(())
}

/// Fails the test unless the queue gives these for so many.
fn gives(
    rt: &impl Abort,
    queue: &mut ChunkQueue<u8>,
    count: usize,
    bytes: &[u8],
) -> Result<(), AllocError> {
    let front = queue.take(count)?;
    same(rt, front.as_slice(), bytes);
    same(rt, front.is_empty(), bytes.is_empty());
    Ok(())
}

/// A queue of one chunk, and a share of it.
fn queue_of_one(alloc: Global, bytes: &[u8]) -> Result<(ChunkQueue<u8>, Chunk<u8>), AllocError> {
    let chunk = bytes_of(alloc, bytes)?;
    let share = chunk.share()?;
    let mut queue = ChunkQueue::new(alloc);
    queue.push(chunk)?;
    Ok((queue, share))
}

/// Fails the test unless the queue, whose first chunk is shared, gives these without a copy.
fn gives_uncopied(
    rt: &impl Abort,
    queue: &mut ChunkQueue<u8>,
    count: usize,
    bytes: &[u8],
) -> Result<(), Fail> {
    let front = still_chunk(queue.take(count)?, "it was copied")?;
    same(rt, front.as_slice(), bytes);
    Ok(())
}

#[test]
fn queue_gives_its_only_chunk_without_a_copy(rt: HostRuntime) -> Result<(), Fail> {
    let (mut queue, share) = queue_of_one(rt.alloc(), &[1, 2, 3])?;
    gives_uncopied(&rt, &mut queue, 9, share.as_slice())
}

#[test]
fn queue_gives_a_front_without_a_copy(rt: HostRuntime) -> Result<(), Fail> {
    let (mut queue, share) = queue_of_one(rt.alloc(), &[1, 2, 3])?;
    gives_uncopied(&rt, &mut queue, 1, &[1])?;
    gives(&rt, &mut queue, 9, &[2, 3])?;
    same(&rt, share.as_slice(), &[1, 2, 3]);
    Ok(())
}

/// What may be passed to another thread.
fn is_sendable<T: Send>(_value: &T) {}

#[test]
fn loads_go_to_other_threads(rt: HostRuntime) -> Result<(), Fail> {
    let load = Load::Bytes(bytes_of(rt.alloc(), &[1])?);
    is_sendable(&load);
    Ok(())
}

#[test]
fn codes_and_ends_have_their_names(rt: HostRuntime) -> Result<(), Fail> {
    prints(
        &rt,
        rt.alloc(),
        &How::Fault(Code::Raised(7)),
        "fault raised 7",
    )?;
    prints(&rt, rt.alloc(), &Code::LongLine, "longline")?;
    Ok(())
}

#[test]
fn a_row_renders_with_quotes_where_it_needs_them(rt: HostRuntime) -> Result<(), Fail> {
    let load = Load::Rows(rows_of(rt.alloc(), UNEVEN_ROWS)?);
    renders(&rt, rt.alloc(), &load, b"\"a,\"\"b\",c d\ne\n")?;
    Ok(())
}

/// What a pipe that gathers gives of the bytes, and then of their end.
fn gathered(alloc: Global, bytes: &[u8]) -> Result<Fed, AllocError> {
    let held = Vec::new(alloc);
    let load = Load::Bytes(bytes_of(alloc, bytes)?);
    give(alloc, &mut Gather { held }, load)
}

#[test]
fn a_pipe_that_gathers_gives_all_at_the_end(rt: HostRuntime) -> Result<(), Fail> {
    let Fed::Out(load) = gathered(rt.alloc(), &[7, 8])? else {
        return Err(Fail::from("nothing came out"));
    };
    renders(&rt, rt.alloc(), &load, &[7, 8])?;
    Ok(())
}
