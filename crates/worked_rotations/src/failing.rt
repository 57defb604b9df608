//! Rotations of which a call on a device fails.
use crate::rotations::{Left, leaves, rotation_of};
use device_port::Act;
use flume_cli::Status;
use std::alloc::{AllocError, Global};
use std::process::Abort;
use std::sync::Wait;
use std::test::Fail;
use std::thread::Threads;
use worked_calls::outside::Case;

/// The words of all these rotations.
const WORDS: &[&str] = &["rotate", "--bytes", "4", "a", "p"];

/// What is left where this call of this path is the only one that fails.
#[derive(Clone, Copy, Debug)]
struct Failing<'a> {
    trip: (&'a str, Act, u32),
    left: Left<'a>,
}

fn faulty<'a>(trip: (&'a str, Act, u32), tail: &'a str, pieces: &'a [&'a [u8]]) -> Failing<'a> {
    Failing {
        trip,
        left: Left {
            status: Status::Faulty,
            tail,
            pieces,
        },
    }
}

fn unclean<'a>(trip: (&'a str, Act, u32), tail: &'a str, pieces: &'a [&'a [u8]]) -> Failing<'a> {
    Failing {
        trip,
        left: Left {
            status: Status::Unclean,
            tail,
            pieces,
        },
    }
}

/// Fails the test unless `abcdef` is left so.
fn fails(
    rt: &(impl Abort + Threads + Wait + Sync),
    alloc: Global,
    failing: &Failing,
) -> Result<(), AllocError> {
    let trips = [failing.trip];
    let case = Case {
        other_trips: &trips,
        ..rotation_of(WORDS, b"abcdef")
    };
    leaves(rt, alloc, &case, &failing.left)
}

/// A call on the file that is read fails.
#[test]
fn calls_on_the_source_fail(rt: HostRuntime) -> Result<(), Fail> {
    let alloc = rt.alloc();
    let unopened = "end 0 fault open\nledger 1\n0 close 0 errored\n";
    let unread = "end 0 fault read\nledger 3\n0 acquire 0 0\n0 close 0 errored\n\
        0 final 0 errored ok\n";
    let unread_behind = "end 0 fault read\nledger 10\n0 acquire 0 0\n0 open 1 0\n\
        0 acquire 1 1\n0 open 2 0\n0 acquire 2 2\n0 close 1 succeeded\n\
        0 final 1 succeeded ok\n0 close 0 errored\n0 final 2 errored ok\n\
        0 final 0 errored ok\n";
    let unclosed = "end 0 done\nledger 10\n0 acquire 0 0\n0 open 1 0\n0 acquire 1 1\n\
        0 open 2 0\n0 acquire 2 2\n0 close 1 succeeded\n0 final 1 succeeded ok\n\
        0 close 0 succeeded\n0 final 2 succeeded ok\n0 final 0 succeeded fault\n";
    let both: &[&[u8]] = &[b"abcd", b"ef"];
    fails(&rt, alloc, &faulty(("a", Act::Open, 1), unopened, &[]))?;
    fails(&rt, alloc, &faulty(("a", Act::Read, 1), unread, &[]))?;
    fails(
        &rt,
        alloc,
        &faulty(("a", Act::Read, 2), unread_behind, both),
    )?;
    fails(&rt, alloc, &unclean(("a", Act::Close, 1), unclosed, both))?;
    Ok(())
}

/// A call on the first file fails.
#[test]
fn calls_on_the_first_file_fail(rt: HostRuntime) -> Result<(), Fail> {
    let alloc = rt.alloc();
    let unopened = "end 0 fault open\nledger 3\n0 acquire 0 0\n0 close 0 errored\n\
        0 final 0 errored ok\n";
    let unwritten = "end 0 fault write\nledger 6\n0 acquire 0 0\n0 open 1 0\n\
        0 acquire 1 1\n0 close 0 errored\n0 final 1 errored ok\n0 final 0 errored ok\n";
    let unclosed = "end 0 done\nledger 10\n0 acquire 0 0\n0 open 1 0\n0 acquire 1 1\n\
        0 open 2 0\n0 acquire 2 2\n0 close 1 succeeded\n0 final 1 succeeded fault\n\
        0 close 0 succeeded\n0 final 2 succeeded ok\n0 final 0 succeeded ok\n";
    let both: &[&[u8]] = &[b"abcd", b"ef"];
    fails(&rt, alloc, &faulty(("p.0", Act::Open, 1), unopened, &[]))?;
    fails(
        &rt,
        alloc,
        &faulty(("p.0", Act::Write, 1), unwritten, &[b""]),
    )?;
    fails(&rt, alloc, &unclean(("p.0", Act::Close, 1), unclosed, both))?;
    Ok(())
}

/// A call on the second file fails.
#[test]
fn calls_on_the_second_file_fail(rt: HostRuntime) -> Result<(), Fail> {
    let alloc = rt.alloc();
    let unopened = "end 0 fault open\nledger 6\n0 acquire 0 0\n0 open 1 0\n\
        0 acquire 1 1\n0 close 0 errored\n0 final 1 errored ok\n0 final 0 errored ok\n";
    let unwritten = "end 0 fault write\nledger 10\n0 acquire 0 0\n0 open 1 0\n\
        0 acquire 1 1\n0 open 2 0\n0 acquire 2 2\n0 close 1 succeeded\n\
        0 final 1 succeeded ok\n0 close 0 errored\n0 final 2 errored ok\n\
        0 final 0 errored ok\n";
    let unclosed = "end 0 done\nledger 10\n0 acquire 0 0\n0 open 1 0\n0 acquire 1 1\n\
        0 open 2 0\n0 acquire 2 2\n0 close 1 succeeded\n0 final 1 succeeded ok\n\
        0 close 0 succeeded\n0 final 2 succeeded fault\n0 final 0 succeeded ok\n";
    let first: &[&[u8]] = &[b"abcd"];
    let both: &[&[u8]] = &[b"abcd", b"ef"];
    fails(&rt, alloc, &faulty(("p.1", Act::Open, 1), unopened, first))?;
    fails(
        &rt,
        alloc,
        &faulty(("p.1", Act::Write, 1), unwritten, &[b"abcd", b""]),
    )?;
    fails(&rt, alloc, &unclean(("p.1", Act::Close, 1), unclosed, both))?;
    Ok(())
}
