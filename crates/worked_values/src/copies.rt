//! Loads once more, and loads of nothing.
use crate::asserts::{holds, prints, renders, same};
use chunk_core::{Chunk, Code, Line, Load, Row};
use std::alloc::{AllocError, Global};
use std::process::Abort;
use std::test::Fail;

fn vec_of<T: Drop>(alloc: Global, item: T) -> Result<Vec<T>, AllocError> {
    let mut items = Vec::new(alloc);
    items.push(item)?;
    Ok(items)
}

/// A load of each kind, each with one `a`.
fn loads(alloc: Global) -> Result<Vec<Load>, AllocError> {
    let mut loads = Vec::new(alloc);
    loads.push(Load::Bytes(Chunk::of_vec(alloc, vec_of(alloc, b'a')?)?))?;
    let line = Line::copy_of(alloc, b"a")?;
    loads.push(Load::Lines(Chunk::of_vec(alloc, vec_of(alloc, line)?)?))?;
    let field = Line::copy_of(alloc, b"a")?;
    let row = Row::of_vec(vec_of(alloc, field)?);
    loads.push(Load::Rows(Chunk::of_vec(alloc, vec_of(alloc, row)?)?))?;
    Ok(loads)
}

/// Fails the test unless the load renders so, as often as it is copied, and also once it was let go.
fn copies_render(
    rt: &impl Abort,
    alloc: Global,
    load: Load,
    text: &[u8],
) -> Result<(), AllocError> {
    let first = load.copy()?;
    let second = first.copy()?;
    renders(rt, alloc, &load, text)?;
    drop(load);
    drop(first);
    renders(rt, alloc, &second, text)?;
    Ok(())
}

#[test]
fn a_copy_renders_as_the_load(rt: HostRuntime) -> Result<(), Fail> {
    let texts: [&[u8]; 3] = [b"a", b"a\n", b"a\n"];
    let mut loads = loads(rt.alloc())?;
    for text in texts.iter().rev() {
        if let Some(load) = loads.pop() {
            copies_render(&rt, rt.alloc(), load, text)?;
        }
    }
    holds(&rt, loads.is_empty());
    Ok(())
}

/// Fails the test unless the load and what is split off it are of nothing.
fn stays_empty(rt: &impl Abort, alloc: Global, mut load: Load) -> Result<(), AllocError> {
    let front = load.split(1)?;
    renders(rt, alloc, &front, b"")?;
    renders(rt, alloc, &load.copy()?, b"")?;
    same(rt, load.len(), 0);
    Ok(())
}

#[test]
fn a_load_of_nothing_stays_one(rt: HostRuntime) -> Result<(), Fail> {
    stays_empty(&rt, rt.alloc(), Load::empty())?;
    stays_empty(&rt, rt.alloc(), Load::Lines(Chunk::empty()))?;
    stays_empty(&rt, rt.alloc(), Load::Rows(Chunk::empty()))?;
    let none: Chunk<u8> = Chunk::empty();
    holds(&rt, none.into_vec().is_err());
    Ok(())
}

#[test]
fn codes_of_lists_have_their_names(rt: HostRuntime) -> Result<(), Fail> {
    prints(&rt, rt.alloc(), &Code::BadPath, "badpath")?;
    prints(&rt, rt.alloc(), &Code::TooMany, "toomany")?;
    Ok(())
}
