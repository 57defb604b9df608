//! Runs of streams whose output is written to a file.
use crate::asserts::{holds_at, same_at};
use crate::runs::{Wanted, at_fault, good, is_not_written};
use device_port::Act;
use flume_cli::Status;
use std::alloc::{AllocError, Global};
use std::fmt::Debug;
use std::process::Abort;
use std::sync::Wait;
use std::test::Fail;
use std::thread::Threads;
use worked_calls::outside::{Aftermath, Case, run, run_of};

/// The tail of a run whose one stream was written to a file.
const WRITTEN: &str = "end outer done\nend 0 done\nledger 8\n\
    outer lease 0 0\nouter close 0 succeeded\n0 acquire 0 0\n0 acquire 1 0\n\
    0 close 0 succeeded\n0 final 1 succeeded ok\n0 final 0 succeeded ok\n0 cancel 0 succeeded\n";

/// One stream from the file `a` to the file `b`.
const COPYING: &str = "[[stream]]\npath = 'a'\nto = 'b'\n";

/// The tail of a run whose one stream failed when its source and its file to write were open.
fn faulty_beside_a_file(alloc: Global, fault: &str) -> Result<String, AllocError> {
    format!(in alloc;
        "end outer done\nend 0 fault {fault}\nledger 8\n\
        outer lease 0 0\nouter close 0 succeeded\n0 acquire 0 0\n0 acquire 1 0\n\
        0 close 0 errored\n0 final 1 errored ok\n0 final 0 errored ok\n0 cancel 0 errored\n"
    )
}

/// Fails the test unless this was left, and tells the place.
fn is_left(
    rt: &impl Abort,
    alloc: Global,
    seen: &Aftermath,
    wanted: Wanted<'_>,
    place: &impl Debug,
) -> Result<(), AllocError> {
    let is_whole = seen.is_whole(alloc, wanted.status, wanted.frames, wanted.tail)?;
    holds_at(rt, is_whole, place);
    Ok(())
}

/// Fails the test unless the case leaves this, these bytes in the file `b`, and the file `a` as it
/// was.
fn writes(
    rt: &(impl Abort + Threads + Wait + Sync),
    alloc: Global,
    case: &Case,
    wanted: Wanted<'_>,
    written: Option<&[u8]>,
    place: &impl Debug,
) -> Result<(), AllocError> {
    let seen = run(rt, alloc, case)?;
    same_at(rt, seen.depot.file("b"), written, place);
    same_at(rt, seen.depot.file("a"), Some(case.file), place);
    is_left(rt, alloc, &seen, wanted, place)
}

/// Fails the test unless this call fails with this fault, when this was written.
fn fails_beside_a_file(
    rt: &(impl Abort + Threads + Wait + Sync),
    alloc: Global,
    trip: (&str, Act, u32),
    fault: &str,
    written: &[u8],
) -> Result<(), AllocError> {
    let tail = faulty_beside_a_file(alloc, fault)?;
    let case = Case {
        other_trips: &[trip],
        ..run_of(
            "chunk = 3\n[[stream]]\npath = 'a'\nsteps = ['lines']\nto = 'b'\n",
            b"ab\ncd\n",
        )
    };
    let wanted = at_fault(b"", tail.as_str());
    writes(rt, alloc, &case, wanted, Some(written), &trip)
}

/// A call on the file or on the source fails: the file keeps what was written before.
#[test]
fn calls_fail_beside_a_file(rt: HostRuntime) -> Result<(), Fail> {
    let alloc = rt.alloc();
    fails_beside_a_file(&rt, alloc, ("b", Act::Write, 1), "write", b"")?;
    fails_beside_a_file(&rt, alloc, ("b", Act::Write, 2), "write", b"ab\n")?;
    fails_beside_a_file(&rt, alloc, ("a", Act::Read, 1), "read", b"")?;
    fails_beside_a_file(&rt, alloc, ("a", Act::Read, 2), "read", b"ab\n")?;
    Ok(())
}

/// A close that fails is told, though the file has all that was written.
#[test]
fn failed_close_of_a_file(rt: HostRuntime) -> Result<(), Fail> {
    let wanted = Wanted {
        status: Status::Unclean,
        frames: b"",
        tail: "end outer done\nend 0 done\nledger 8\n\
            outer lease 0 0\nouter close 0 succeeded\n0 acquire 0 0\n0 acquire 1 0\n\
            0 close 0 succeeded\n0 final 1 succeeded ok\n0 final 0 succeeded fault\n\
            0 cancel 0 succeeded\n",
    };
    let case = Case {
        other_trips: &[("b", Act::Close, 1)],
        ..run_of(COPYING, b"hello\n")
    };
    writes(&rt, rt.alloc(), &case, wanted, Some(b"hello\n"), &COPYING)?;
    Ok(())
}

/// The text that stands in for a fault is written behind what came before it.
#[test]
fn text_stands_in_within_a_file(rt: HostRuntime) -> Result<(), Fail> {
    let text = "[[stream]]\npath = 'a'\nsteps = ['lines']\non_fault = 'lost'\nto = 'b'\n";
    let tail = "end outer done\nend 0 done\nledger 10\n\
        outer lease 0 0\nouter close 0 succeeded\n0 acquire 0 0\n0 open 1 0\n0 acquire 1 1\n\
        0 close 1 errored\n0 final 1 errored ok\n0 close 0 succeeded\n0 final 0 succeeded ok\n\
        0 cancel 0 succeeded\n";
    let case = Case {
        trips: &[(Act::Read, 2)],
        ..run_of(text, b"ab\ncd")
    };
    let wanted = good(b"", tail);
    writes(&rt, rt.alloc(), &case, wanted, Some(b"ab\nlost\n"), &text)?;
    Ok(())
}

/// The tail can't be printed: the file is whole all the same.
#[test]
fn failed_write_of_the_tail_beside_a_file(rt: HostRuntime) -> Result<(), Fail> {
    let case = Case {
        out_fails: &[1],
        ..run_of(COPYING, b"hello\n")
    };
    let seen = run(&rt, rt.alloc(), &case)?;
    same_at(
        &rt,
        seen.depot.file("b"),
        Some(b"hello\n".as_slice()),
        &COPYING,
    );
    is_not_written(&rt, rt.alloc(), &seen, b"", &[WRITTEN])?;
    Ok(())
}
