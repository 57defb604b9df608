//! Words are read to steps, and other words are refused.
use crate::asserts::same;
use std::alloc::{AllocError, Global};
use std::process::Abort;
use std::test::Fail;
use step_words::{StepsRefused, steps};

/// How many steps a word has, where it has some.
fn count_of(alloc: Global, word: &[u8]) -> Result<Option<usize>, AllocError> {
    match steps(alloc, word) {
        Ok(steps) => Ok(Some(steps.len())),
        Err(StepsRefused::Bad) => Ok(None),
        Err(StepsRefused::Memory) => Err(AllocError),
    }
}

/// Fails the test unless the word has so many steps, or is refused.
fn counts(
    rt: &impl Abort,
    alloc: Global,
    word: &[u8],
    count: Option<usize>,
) -> Result<(), AllocError> {
    same(rt, count_of(alloc, word)?, count);
    Ok(())
}

#[test]
fn a_word_is_steps_or_bad(rt: HostRuntime) -> Result<(), Fail> {
    let alloc = rt.alloc();
    counts(&rt, alloc, b"lines|filter b|take 1", Some(3))?;
    counts(&rt, alloc, b"", Some(0))?;
    counts(&rt, alloc, b"lines|", None)?;
    counts(&rt, alloc, b"lines|utf8", None)?;
    counts(&rt, alloc, b"csv|lookup names 0", None)?;
    Ok(())
}
