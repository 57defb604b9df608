//! Bytes cut within a line end go through `LinesPipe`.
use crate::loads::{bytes, text_of};
use chunk_core::{Fed, Feed};
use std::alloc::{AllocError, Global};
use std::test::Fail;
use text_pipes::LinesPipe;

/// What two pieces of bytes give, and then the end, where no line is too long.
fn lines_of(alloc: Global, front: &[u8], back: &[u8]) -> Result<Option<Vec<u8>>, AllocError> {
    let mut pipe = LinesPipe::new(alloc)?;
    let Fed::Out(first) = pipe.feed(alloc, bytes(alloc, front)?)? else {
        return Ok(None);
    };
    let Fed::Out(second) = pipe.feed(alloc, bytes(alloc, back)?)? else {
        return Ok(None);
    };
    let Fed::Out(last) = pipe.finish(alloc)? else {
        return Ok(None);
    };
    Ok(Some(text_of(alloc, [first, second, last].as_slice())?))
}

#[test]
fn a_line_end_cut_in_two_is_one_line_end(rt: HostRuntime) -> Result<(), Fail> {
    let Some(text) = lines_of(rt.alloc(), b"one\r", b"\ntwo")? else {
        return Err(Fail::from("a line is too long"));
    };
    assert_eq!(rt; text.as_slice(), b"one\n||two\n|".as_slice());
    Ok(())
}
