//! Runs of which each write fails in turn, and runs of which ever more frames are wanted.
use crate::asserts::{holds_at, same_at};
use crate::listed::{LINES, listed_in};
use crate::payloads::count_frames;
use crate::tables::{KEYS, LOOKUP};
use flume_cli::Status;
use ledger_audit::audit;
use ledger_verdict::Verdict;
use std::alloc::{AllocError, Global};
use std::process::Abort;
use std::sync::Wait;
use std::test::Fail;
use std::thread::Threads;
use worked_calls::outside::{Aftermath, Case, filled, run, run_of};

/// Fails the test unless the run ended with this status, its ledger is in order, and each device came
/// back.
fn is_in_order(
    rt: &impl Abort,
    alloc: Global,
    seen: &Aftermath,
    status: Status,
    place: u32,
) -> Result<(), AllocError> {
    same_at(rt, seen.report.status, status, &place);
    let verdict = audit(alloc, &seen.report.ledger)?;
    same_at(rt, verdict, Verdict::Clean, &place);
    holds_at(rt, seen.returned(), &place);
    Ok(())
}

/// Fails the test unless each of so many writes of the case fails the run, and the next is never made.
fn writes_fail<R: Abort + Threads + Wait + Sync>(
    rt: &R,
    alloc: Global,
    case: &Case,
    writes: u32,
) -> Result<(), AllocError> {
    for before in 0..writes {
        let nth: [u32; 1] = [before.saturating_add(1)];
        let failing = Case {
            out_fails: &nth,
            ..*case
        };
        let seen = run(rt, alloc, &failing)?;
        is_in_order(rt, alloc, &seen, Status::NotWritten, before)?;
    }
    let beyond: [u32; 1] = [writes.saturating_add(1)];
    let passing = Case {
        out_fails: &beyond,
        ..*case
    };
    let seen = run(rt, alloc, &passing)?;
    is_in_order(rt, alloc, &seen, Status::Good, writes)
}

/// Five streams of five files, which give seven frames.
const FIVE: &str = "[[stream]]\npath = 'a'\n[[stream]]\npath = 'b'\n[[stream]]\npath = 'c'\n\
    [[stream]]\npath = 'd'\n[[stream]]\npath = 'e'\n";

/// The other files: an empty one, 4,096 and 4,097 bytes of the long one, and that one.
fn others_of(long: &[u8]) -> [(&str, &[u8]); 4] {
    [
        ("b", b""),
        ("c", long.get(..4096).unwrap_or(long)),
        ("d", long.get(..4097).unwrap_or(long)),
        ("e", long),
    ]
}

/// Five streams, the first of a file of one byte.
fn five_of<'a>(text: &'a str, others: &'a [(&'a str, &'a [u8])]) -> Case<'a> {
    Case {
        others,
        ..run_of(text, b"x")
    }
}

/// A frame of a lookup and the tail are two writes; seven frames and the tail are eight, and two of a
/// list three.
#[test]
fn each_write_fails_in_turn(rt: HostRuntime) -> Result<(), Fail> {
    let alloc = rt.alloc();
    let lookup = Case {
        others: &[("t.csv", b"k,v\n")],
        ..run_of(LOOKUP, KEYS)
    };
    writes_fail(&rt, alloc, &lookup, 2)?;
    let long = filled(alloc, &[("", 10_000)])?;
    let others = others_of(&long);
    writes_fail(&rt, alloc, &five_of(FIVE, &others), 8)?;
    let listed = listed_in(&[("l", LINES), ("b", b"y\n")]);
    writes_fail(&rt, alloc, &listed, 3)?;
    Ok(())
}

/// So many frames are printed as are wanted, or all seven, and the ledger is in order.
#[test]
fn as_many_frames_as_are_wanted(rt: HostRuntime) -> Result<(), Fail> {
    let alloc = rt.alloc();
    let long = filled(alloc, &[("", 10_000)])?;
    let others = others_of(&long);
    for take in 0..9u32 {
        let text = format!(in alloc; "take = {take}\n{FIVE}")?;
        let seen = run(&rt, alloc, &five_of(text.as_str(), &others))?;
        is_in_order(&rt, alloc, &seen, Status::Good, take)?;
        same_at(
            &rt,
            count_frames(seen.out.written()),
            take.min(7) as usize,
            &take,
        );
    }
    Ok(())
}
