//! The words of a command line are read.
use crate::asserts::same;
use chunk_core::Word;
use command_words::{Asked, asked_by};
use std::alloc::{AllocError, Global};
use std::process::Abort;
use std::test::Fail;

/// How many bytes a frame has at most, where the words ask for one file.
fn chunk_asked(alloc: Global, words: &[&str]) -> Result<Option<u32>, AllocError> {
    let mut copies = Vec::new(alloc);
    for word in words {
        copies.push(Word::of(alloc, word)?)?;
    }
    let Some(Asked::Cat { chunk, .. }) = asked_by(alloc, &copies)? else {
        return Ok(None);
    };
    Ok(Some(chunk))
}

/// Fails the test unless the words ask for so many bytes.
fn asks(
    rt: &impl Abort,
    alloc: Global,
    words: &[&str],
    chunk: Option<u32>,
) -> Result<(), AllocError> {
    same(rt, chunk_asked(alloc, words)?, chunk);
    Ok(())
}

#[test]
fn an_option_stands_before_or_behind_its_path(rt: HostRuntime) -> Result<(), Fail> {
    let alloc = rt.alloc();
    asks(&rt, alloc, &["cat", "--chunk", "4", "a"], Some(4))?;
    asks(&rt, alloc, &["cat", "a", "--chunk=4"], Some(4))?;
    asks(&rt, alloc, &["cat", "a"], Some(4096))?;
    asks(&rt, alloc, &["cat", "--chunk", "a"], None)?;
    asks(&rt, alloc, &["run"], None)?;
    Ok(())
}
