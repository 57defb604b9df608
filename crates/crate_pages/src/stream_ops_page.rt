//! Lines in two loads go through `NumberPipe`.
use crate::loads::{lines, text_of};
use chunk_core::{Fed, Feed};
use std::alloc::{AllocError, Global};
use std::test::Fail;
use stream_ops::NumberPipe;

/// What each of two loads of lines gives, numbered.
fn numbered(alloc: Global, front: &[&[u8]], back: &[&[u8]]) -> Result<Option<Vec<u8>>, AllocError> {
    let mut pipe = NumberPipe::new(alloc)?;
    let Fed::Out(first) = pipe.feed(alloc, lines(alloc, front)?)? else {
        return Ok(None);
    };
    let Fed::Out(second) = pipe.feed(alloc, lines(alloc, back)?)? else {
        return Ok(None);
    };
    let Fed::End = pipe.finish(alloc)? else {
        return Ok(None);
    };
    Ok(Some(text_of(alloc, [first, second].as_slice())?))
}

#[test]
fn numbers_go_on_from_load_to_load(rt: HostRuntime) -> Result<(), Fail> {
    let Some(text) = numbered(rt.alloc(), &[b"a", b"b"], &[b"c"])? else {
        return Err(Fail::from("the pipe answered otherwise"));
    };
    assert_eq!(rt; text.as_slice(), b"0 a\n1 b\n|2 c\n|".as_slice());
    Ok(())
}
