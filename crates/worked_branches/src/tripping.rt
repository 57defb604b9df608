//! Calls on the device that fail, one at a time.
use crate::asserts::{holds_at, same_at};
use crate::teeing::{call_of, printed};
use device_port::Act;
use flume_cli::Status;
use std::alloc::{AllocError, Global};
use std::process::Abort;
use std::sync::Wait;
use std::test::Fail;
use std::thread::Threads;
use worked_calls::outside::{Case, run};

const TEE: &[&str] = &["tee", "--chunk", "2", "a", "lines"];

const EVAL: &[&str] = &["eval", "--group", "1", "a", "lines"];

/// Fails the test unless these words print this where this call is the only one that fails.
fn fails(
    rt: &(impl Abort + Threads + Wait + Sync),
    alloc: Global,
    words: &[&str],
    trip: (Act, u32),
    status: Status,
    text: &str,
) -> Result<(), AllocError> {
    let trips = [trip];
    let case = Case {
        trips: &trips,
        ..call_of(words, b"ab\ncd\n")
    };
    let seen = run(rt, alloc, &case)?;
    printed(rt, &seen, status, text.as_bytes(), words);
    Ok(())
}

/// The file can't be opened, or not closed well.
#[test]
fn opens_and_closes_fail(rt: HostRuntime) -> Result<(), Fail> {
    let alloc = rt.alloc();
    let unopened = "end outer fault open\nend 0 halted\nledger 1\nouter close 0 errored\n";
    fails(&rt, alloc, TEE, (Act::Open, 1), Status::Faulty, unopened)?;
    let unopened = "end 0 fault open\nledger 1\n0 close 0 errored\n";
    fails(&rt, alloc, EVAL, (Act::Open, 1), Status::Faulty, unopened)?;
    let unclosed = "0 3\nab\n\n0 3\ncd\n\nend 0 done\nledger 3\n0 acquire 0 0\n\
        0 close 0 succeeded\n0 final 0 succeeded fault\n";
    fails(&rt, alloc, EVAL, (Act::Close, 1), Status::Unclean, unclosed)?;
    let unclosed = "0 3\nab\n\n0 3\ncd\n\nend outer done\nend 0 done\nledger 3\n\
        outer acquire 0 0\nouter close 0 succeeded\nouter final 0 succeeded fault\n";
    fails(&rt, alloc, TEE, (Act::Close, 1), Status::Unclean, unclosed)?;
    Ok(())
}

/// Sixty-four bytes.
const LINE: &[u8] = b"a line of sixty-four bytes, as many of which are read at a time\n";

/// So many times as many bytes as are read at a time.
fn pages_of(alloc: Global, count: u32) -> Result<Vec<u8>, AllocError> {
    let mut bytes = Vec::new(alloc);
    for _ in 0..count.saturating_mul(64) {
        bytes.extend_from_slice(LINE)?;
    }
    Ok(bytes)
}

/// What is printed of an evaluation whose reading fails behind so many groups.
fn answered(alloc: Global, groups: u32) -> Result<Vec<u8>, AllocError> {
    let mut text = Vec::new(alloc);
    for _ in 0..groups {
        text.extend_from_slice(b"0 4096\n")?;
        text.extend_from_slice(&pages_of(alloc, 1)?)?;
        text.extend_from_slice(b"\n")?;
    }
    text.extend_from_slice(
        b"end 0 fault read\nledger 3\n0 acquire 0 0\n0 close 0 errored\n0 final 0 errored ok\n",
    )?;
    Ok(text)
}

/// A read of the file fails behind so many others, each of a group: these groups are answered.
fn reading_fails(
    rt: &(impl Abort + Threads + Wait + Sync),
    alloc: Global,
    before: u32,
) -> Result<(), AllocError> {
    let words = ["eval", "--group", "64", "a", ""];
    let trips = [(Act::Read, before.saturating_add(1))];
    let file = pages_of(alloc, 3)?;
    let case = Case {
        trips: &trips,
        ..call_of(&words, &file)
    };
    let seen = run(rt, alloc, &case)?;
    printed(rt, &seen, Status::Faulty, &answered(alloc, before)?, &words);
    Ok(())
}

#[test]
fn each_read_of_an_evaluation_fails(rt: HostRuntime) -> Result<(), Fail> {
    for before in 0..4u32 {
        reading_fails(&rt, rt.alloc(), before)?;
    }
    Ok(())
}

/// Fails the test unless the output is a front of the frames, and then the tail of a reader that failed.
fn ends_halted(rt: &impl Abort, out: &[u8], place: u32) {
    let tail = "end outer fault read\nend 0 halted\nend 1 halted\nledger 3\nouter acquire 0 0\n\
        outer close 0 errored\nouter final 0 errored ok\n";
    let len = out.len().saturating_sub(tail.len()).min(out.len());
    let frames = "0 3\nab\n\n0 3\ncd\n\n";
    holds_at(rt, out.ends_with(tail.as_bytes()), &place);
    holds_at(rt, frames.as_bytes().starts_with(&out[..len]), &place);
}

/// A read of the file fails behind so many others: the reader tells it, and both branches are halted.
fn teeing_fails(
    rt: &(impl Abort + Threads + Wait + Sync),
    alloc: Global,
    before: u32,
) -> Result<(), AllocError> {
    let trips = [(Act::Read, before.saturating_add(1))];
    let words = ["tee", "--chunk", "2", "a", "lines", "lines|count"];
    let case = Case {
        trips: &trips,
        ..call_of(&words, b"ab\ncd\n")
    };
    let seen = run(rt, alloc, &case)?;
    same_at(rt, seen.report.status, Status::Faulty, &before);
    holds_at(rt, seen.returned(), &before);
    ends_halted(rt, seen.out.written(), before);
    Ok(())
}

#[test]
fn each_read_of_a_tee_fails(rt: HostRuntime) -> Result<(), Fail> {
    for before in 0..4u32 {
        teeing_fails(&rt, rt.alloc(), before)?;
    }
    Ok(())
}
