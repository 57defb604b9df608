//! Bytes cut within a line go through a chain.
use crate::loads::{bytes, text_of};
use chain_pipes::Chain;
use chunk_core::{Fed, Feed};
use std::alloc::Global;
use std::test::Fail;
use step_words::{StepsRefused, steps};

/// What the chain of a word gives of two pieces of bytes, and then nothing at the end.
fn chained(
    alloc: Global,
    word: &[u8],
    front: &[u8],
    back: &[u8],
) -> Result<Option<Vec<u8>>, StepsRefused> {
    let mut chain = Chain::new(alloc, &steps(alloc, word)?)?;
    let Fed::Out(first) = chain.feed(alloc, bytes(alloc, front)?)? else {
        return Ok(None);
    };
    let Fed::Out(second) = chain.feed(alloc, bytes(alloc, back)?)? else {
        return Ok(None);
    };
    let Fed::End = chain.finish(alloc)? else {
        return Ok(None);
    };
    Ok(Some(text_of(alloc, [first, second].as_slice())?))
}

#[test]
fn a_line_cut_in_two_is_the_one_that_is_taken(rt: HostRuntime) -> Result<(), Fail> {
    let word = b"lines|filter b|take 1";
    let Some(text) = chained(rt.alloc(), word, b"a\nb", b"c\nb\n")? else {
        return Err(Fail::from("the chain answered otherwise"));
    };
    assert_eq!(rt; text.as_slice(), b"|bc\n|".as_slice());
    Ok(())
}
