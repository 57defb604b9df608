//! Descriptions that are read slowly, are too long, or can't be read.
use crate::asserts::{holds, holds_at, same, same_at};
use crate::refusals::refused;
use flume_cli::Status;
use pipeline_desc::RefusalKind;
use std::alloc::{AllocError, Global};
use std::process::Abort;
use std::sync::Wait;
use std::test::Fail;
use std::thread::Threads;
use worked_calls::outside::{Aftermath, Case, filled, run, run_from, run_of};
use worked_calls::reports::DONE;
use worked_calls::slow::OneByOne;

const UNREAD: &str = "flume: cannot read the description\n";

/// What a run leaves of a description that comes a byte a read, and how many of its bytes were read.
fn run_slowly(
    rt: &(impl Threads + Wait + Sync),
    alloc: Global,
    bytes: &[u8],
    fails_at: Option<usize>,
) -> Result<(Aftermath, usize), AllocError> {
    let mut src = OneByOne::new(alloc, bytes, fails_at)?;
    let seen = run_from(rt, alloc, &mut src, &run_of("", b"hello\n"))?;
    Ok((seen, src.given()))
}

/// Fails the test unless such a description is run, and prints this.
fn is_run_slowly(
    rt: &(impl Abort + Threads + Wait + Sync),
    alloc: Global,
    bytes: &[u8],
    frames: &[u8],
    tail: &str,
) -> Result<(), AllocError> {
    let (seen, _) = run_slowly(rt, alloc, bytes, None)?;
    holds(rt, seen.is_whole(alloc, Status::Good, frames, tail)?);
    Ok(())
}

/// Nothing is read behind the first byte that is too many.
#[test]
fn too_long_a_description(rt: HostRuntime) -> Result<(), Fail> {
    let more = filled(rt.alloc(), &[("#", 1_048_580)])?;
    let (seen, given) = run_slowly(&rt, rt.alloc(), &more, None)?;
    let status = refused(RefusalKind::TooLong, None, None);
    holds(&rt, seen.is_idle(status, "flume: description refused 9\n"));
    same(&rt, given, 1_048_577);
    Ok(())
}

/// Fails the test unless the description is unread where this read of it fails.
fn is_unread(
    rt: &(impl Abort + Threads + Wait + Sync),
    alloc: Global,
    source: &[u8],
    nth: u32,
) -> Result<(), AllocError> {
    let case = Case {
        source,
        source_fails: &[nth],
        ..run_of("", b"hello\n")
    };
    let seen = run(rt, alloc, &case)?;
    holds_at(rt, seen.is_idle(Status::Unread, UNREAD), &nth);
    same_at(rt, seen.report.status.number(), 6, &nth);
    Ok(())
}

fn is_unread_at_each(
    rt: &(impl Abort + Threads + Wait + Sync),
    alloc: Global,
    source: &[u8],
    nths: &[u32],
) -> Result<(), AllocError> {
    for nth in nths {
        is_unread(rt, alloc, source, *nth)?;
    }
    Ok(())
}

/// Whatever was read before, and whether that would be refused or not.
#[test]
fn source_that_fails(rt: HostRuntime) -> Result<(), Fail> {
    is_unread(&rt, rt.alloc(), b"", 1)?;
    is_unread_at_each(&rt, rt.alloc(), b"[[", &[1, 2])?;
    let long = filled(rt.alloc(), &[("#", 10_000)])?;
    is_unread_at_each(&rt, rt.alloc(), &long, &[1, 2, 3, 4])?;
    Ok(())
}

/// It is read on to its end, or to a failure and no further.
#[test]
fn source_that_gives_one_byte_a_read(rt: HostRuntime) -> Result<(), Fail> {
    let bytes = b"[[stream]]\npath = 'a'\n";
    is_run_slowly(&rt, rt.alloc(), bytes, b"0 6\nhello\n\n", DONE)?;
    let (seen, given) = run_slowly(&rt, rt.alloc(), bytes, Some(10))?;
    holds(&rt, seen.is_idle(Status::Unread, UNREAD));
    same(&rt, given, 10);
    Ok(())
}

/// Fails the test unless the words end so, where the first read of a description would fail.
fn end_without_a_source(
    rt: &(impl Abort + Threads + Wait + Sync),
    alloc: Global,
    words: &[&str],
    status: Status,
) -> Result<(), AllocError> {
    let case = Case {
        words,
        source_fails: &[1],
        ..run_of("", b"")
    };
    let seen = run(rt, alloc, &case)?;
    same_at(rt, seen.report.status, status, &words);
    Ok(())
}

/// `cat` reads no description, and neither do words that mean nothing.
#[test]
fn source_is_read_by_run_alone(rt: HostRuntime) -> Result<(), Fail> {
    end_without_a_source(&rt, rt.alloc(), &["cat", "a"], Status::Good)?;
    end_without_a_source(&rt, rt.alloc(), &["run", "a"], Status::BadWords)?;
    Ok(())
}
