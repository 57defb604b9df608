//! What is seen where memory is wanting.
use crate::asserts::{holds, same};
use crate::cats::TAIL;
use crate::listed::{FRAMES, LINES, LISTED, listed_in};
use crate::tables::{KEYS, LOOKUP};
use device_port::Act;
use flume_cli::Status;
use std::alloc::Global;
use std::process::Abort;
use std::sync::Wait;
use std::thread::Threads;
use worked_calls::outside::{Aftermath, Case, cat_of, run, run_of};
use worked_calls::reports::CAUGHT;

const WANTING: &[u8] = b"flume: out of memory\n";

/// What the status says is what stands on the two outputs, and each device that was opened was
/// closed. Run it with each allocation failing in turn; with ample memory the run is whole.
#[test]
fn wanting_memory_is_told(rt: HostRuntime) {
    let case = cat_of(b"hello\n");
    tells(&rt, rt.alloc(), &case, b"0 6\nhello\n\n", TAIL);
}

/// The same of a description, over a file of which the second read fails.
#[test]
fn wanting_memory_of_a_run_is_told(rt: HostRuntime) {
    let case = Case {
        trips: &[(Act::Read, 2)],
        ..run_of(
            "[[stream]]\npath = 'a'\nsteps = ['lines']\non_fault = 'lost'\n",
            b"ab\ncd",
        )
    };
    let frames = b"0 3\nab\n\n0 5\nlost\n\n";
    tells(&rt, rt.alloc(), &case, frames, CAUGHT);
}

/// The same of a lookup in a table that is leased.
#[test]
fn wanting_memory_of_a_lookup_is_told(rt: HostRuntime) {
    let case = Case {
        others: &[("t.csv", b"k,v\n")],
        ..run_of(LOOKUP, KEYS)
    };
    let tail = "end outer done\nend 0 done\nledger 8\n\
        outer acquire 0 0\nouter lease 0 0\nouter close 0 succeeded\n0 acquire 1 0\n\
        0 close 0 succeeded\n0 final 1 succeeded ok\n0 cancel 0 succeeded\n\
        0 final 0 succeeded ok\n";
    tells(&rt, rt.alloc(), &case, b"0 7\nk,v\nz,\n\n", tail);
}

/// The same of a list, whose lines are given streams.
#[test]
fn wanting_memory_of_a_list_is_told(rt: HostRuntime) {
    let case = listed_in(&[("l", LINES), ("b", b"y\n")]);
    tells(&rt, rt.alloc(), &case, FRAMES, LISTED);
}

/// The same of words: they are read, or nothing is done.
#[test]
fn wanting_memory_of_words_is_told(rt: HostRuntime) {
    let refused = b"flume: bad command line\n";
    let cat_words = Case {
        words: &["cat", "--chunk", "0", "a"],
        ..cat_of(b"hello\n")
    };
    refuses(&rt, rt.alloc(), &cat_words, 2, refused);
    let run_words = Case {
        words: &["run", "--max-open=65"],
        ..cat_of(b"hello\n")
    };
    refuses(&rt, rt.alloc(), &run_words, 2, refused);
}

/// The same of a description that is refused: nothing is done.
#[test]
fn wanting_memory_of_a_refusal_is_told(rt: HostRuntime) {
    let case = run_of("chunk = 0\n", b"hello\n");
    let refused = b"flume: description refused 4\n";
    refuses(&rt, rt.alloc(), &case, 3, refused);
}

/// The same of a ledger that is audited: the verdict is printed, or nothing is.
#[test]
fn wanting_memory_of_an_audit_is_told(rt: HostRuntime) {
    let case = Case {
        words: &["audit"],
        source: b"ledger 2\nouter lease 0 0\nouter cancel 0 canceled\n",
        ..cat_of(b"hello\n")
    };
    tells(&rt, rt.alloc(), &case, b"", "audit ok\n");
}

/// Fails the test unless the case prints this, or tells that memory was wanting.
fn tells(
    rt: &(impl Abort + Threads + Wait + Sync),
    alloc: Global,
    case: &Case,
    frames: &[u8],
    tail: &str,
) {
    if let Ok(seen) = run(rt, alloc, case) {
        assert_told(rt, &seen, frames, tail);
    }
}

/// Fails the test unless the case is refused with this number and line, or memory was wanting.
fn refuses(
    rt: &(impl Abort + Threads + Wait + Sync),
    alloc: Global,
    case: &Case,
    number: u8,
    line: &[u8],
) {
    if let Ok(seen) = run(rt, alloc, case) {
        assert_refused(rt, &seen, number, line);
    }
}

/// Nothing is done but that standard error is told why, if there is room for that.
fn assert_refused(rt: &impl Abort, seen: &Aftermath, number: u8, line: &[u8]) {
    let line = if seen.report.status == Status::Memory {
        WANTING
    } else {
        same(rt, seen.report.status.number(), number);
        line
    };
    holds(rt, seen.err.written() == line || seen.err.starved() == 1);
    holds(rt, seen.out.written().is_empty());
    same(rt, seen.depot.made().len(), 0);
}

/// The output is whole with ample memory, and else a front of that.
fn assert_told(rt: &impl Abort, seen: &Aftermath, frames: &[u8], tail: &str) {
    let out = seen.out.written();
    let err = seen.err.written();
    holds(rt, seen.returned());
    match seen.report.status {
        Status::Memory => {
            same(rt, err, WANTING);
            holds(rt, frames.starts_with(out));
        }
        Status::NotWritten => {
            same(rt, err, b"");
            same(rt, seen.out.starved(), 1);
            holds(rt, frames.starts_with(out));
        }
        status => {
            same(rt, status, Status::Good);
            same(rt, err, b"");
            assert_whole(rt, out, frames, tail);
        }
    }
}

fn assert_whole(rt: &impl Abort, out: &[u8], frames: &[u8], tail: &str) {
    holds(rt, out.starts_with(frames));
    holds(rt, out.ends_with(tail.as_bytes()));
    same(rt, out.len(), frames.len() + tail.len());
}
