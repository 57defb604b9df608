//! Chunks are made, split, queued and rendered.
use chunk_core::{Chunk, ChunkQueue, Line, Load, render};
use std::test::Fail;

#[test]
fn chunks_are_split_queued_and_rendered(rt: HostRuntime) -> Result<(), Fail> {
    let alloc = rt.alloc();
    let mut rest = Chunk::of_vec(alloc, Vec::from_slice(alloc, b"hello world")?)?;
    let front = rest.split(6)?;
    assert_eq!(rt; front.as_slice(), b"hello ".as_slice());

    let mut queue = ChunkQueue::new(alloc);
    queue.push(rest)?;
    queue.push(front)?;
    let word = Load::Bytes(queue.take(5)?);
    assert_eq!(rt; render(alloc, &word)?.as_slice(), b"world".as_slice());

    let mut lines = Vec::new(alloc);
    lines.push(Line::copy_of(alloc, b"one")?)?;
    lines.push(Line::copy_of(alloc, b"two")?)?;
    let load = Load::Lines(Chunk::of_vec(alloc, lines)?);
    assert_eq!(rt; load.len(), 2);
    assert_eq!(rt; render(alloc, &load)?.as_slice(), b"one\ntwo\n".as_slice());
    Ok(())
}
