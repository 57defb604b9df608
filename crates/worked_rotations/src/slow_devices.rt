//! Rotations over devices that read and write a few bytes a call.
use crate::asserts::same_at;
use crate::rotations::{Left, TWO, holds_pieces, rotation_of};
use crate::sparing::SparingDepot;
use device_port::{Act, OpenGate};
use flume_cli::Status;
use std::alloc::{AllocError, Global};
use std::process::Abort;
use std::sync::Wait;
use std::test::Fail;
use std::thread::Threads;
use worked_calls::outside::{Case, Printed, call_over, depot_of};

/// Fails the test unless the case leaves this over devices that take `more` bytes and one a call.
fn leaves_slowly(
    rt: &(impl Abort + Threads + Wait + Sync),
    alloc: Global,
    case: &Case,
    more: usize,
    left: &Left,
) -> Result<(), AllocError> {
    let mut depot = SparingDepot {
        depot: depot_of(alloc, case)?,
        more,
    };
    let Printed {
        report,
        out,
        err: _,
    } = call_over(rt, alloc, case, &mut depot, &OpenGate)?;
    same_at(rt, report.status, left.status, left);
    same_at(rt, out.written(), left.tail.as_bytes(), left);
    holds_pieces(rt, alloc, &depot.depot, left.pieces, left.tail)
}

/// However few bytes a call takes, the pieces are the same.
#[test]
fn pieces_of_short_reads_and_writes(rt: HostRuntime) -> Result<(), Fail> {
    let case = rotation_of(&["rotate", "--bytes", "4", "a", "p"], b"abcdef");
    let left = Left {
        status: Status::Good,
        tail: TWO,
        pieces: &[b"abcd", b"ef"],
    };
    for more in 0..6usize {
        leaves_slowly(&rt, rt.alloc(), &case, more, &left)?;
    }
    Ok(())
}

/// A write fails in the middle of a piece: the file keeps what was written before.
#[test]
fn failed_writes_within_a_piece(rt: HostRuntime) -> Result<(), Fail> {
    let case = Case {
        other_trips: &[("p.1", Act::Write, 3)],
        ..rotation_of(&["rotate", "--bytes", "3", "a", "p"], b"abcdef")
    };
    let left = Left {
        status: Status::Faulty,
        tail: "end 0 fault write\nledger 10\n0 acquire 0 0\n0 open 1 0\n0 acquire 1 1\n\
            0 open 2 0\n0 acquire 2 2\n0 close 1 succeeded\n0 final 1 succeeded ok\n\
            0 close 0 errored\n0 final 2 errored ok\n0 final 0 errored ok\n",
        pieces: &[b"abc", b"de"],
    };
    leaves_slowly(&rt, rt.alloc(), &case, 0, &left)?;
    Ok(())
}
