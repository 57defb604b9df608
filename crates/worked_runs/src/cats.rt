//! One call that prints the frames of a file, and what it has to leave.
use crate::asserts::{holds_at, same_at};
use chunk_core::{Exit, How};
use device_port::Act;
use flume_cli::Status;
use std::alloc::{AllocError, Global};
use std::fmt::Debug;
use std::process::Abort;
use std::sync::Wait;
use std::thread::Threads;
use worked_calls::outside::{Aftermath, Case, cat_of, filled, run};

/// What a call leaves that opened its file, beside its output.
#[derive(Clone, Copy)]
pub(crate) struct Left {
    pub(crate) status: Status,
    pub(crate) number: u8,
    pub(crate) how: How,
    pub(crate) exit: Exit,
    /// Whether the file was closed well.
    pub(crate) ok: bool,
    /// How many writes failed.
    pub(crate) faults: u64,
}

/// What is left where nothing fails.
pub(crate) const WELL: Left = Left {
    status: Status::Good,
    number: 0,
    how: How::Done,
    exit: Exit::Succeeded,
    ok: true,
    faults: 0,
};

/// What is left where a write fails before the stream has ended.
pub(crate) const HALTED: Left = Left {
    status: Status::NotWritten,
    number: 4,
    how: How::Halted,
    exit: Exit::Canceled,
    ok: true,
    faults: 1,
};

/// The tail of a call of which nothing fails.
pub(crate) const TAIL: &str =
    "end 0 done\nledger 3\n0 acquire 0 0\n0 close 0 succeeded\n0 final 0 succeeded ok\n";

/// Fails the test unless the call printed this and left this, and tells the place.
fn is_left(rt: &impl Abort, seen: &Aftermath, out: &[u8], left: &Left, place: &impl Debug) {
    holds_at(rt, seen.printed(left.status, out), place);
    same_at(rt, seen.report.status.number(), left.number, place);
    same_at(rt, seen.out.faults(), left.faults, place);
    holds_at(rt, seen.ended(left.how), place);
    holds_at(rt, seen.has_one_row(left.exit, left.ok), place);
    holds_at(rt, seen.device_came_back(Some(left.exit)), place);
}

/// Fails the test unless the case prints this and leaves this.
pub(crate) fn leaves(
    rt: &(impl Abort + Threads + Wait + Sync),
    alloc: Global,
    case: &Case,
    out: &[u8],
    left: &Left,
) -> Result<(), AllocError> {
    let seen = run(rt, alloc, case)?;
    is_left(rt, &seen, out, left, &(case.words, case.out_fails));
    Ok(())
}

/// Fails the test unless a file of 5,000 letters, of which these calls fail, leaves this.
pub(crate) fn long_leaves(
    rt: &(impl Abort + Threads + Wait + Sync),
    alloc: Global,
    trips: &[(Act, u32)],
    out_fails: &[u32],
    out: &[u8],
    left: &Left,
) -> Result<(), AllocError> {
    let file = filled(alloc, &[("", 5000)])?;
    let case = Case {
        trips,
        out_fails,
        ..cat_of(&file)
    };
    leaves(rt, alloc, &case, out, left)
}

/// What is printed of a file of 5,000 letters where nothing fails.
pub(crate) fn long_output(alloc: Global) -> Result<Vec<u8>, AllocError> {
    filled(
        alloc,
        &[("0 4096\n", 4096), ("\n0 904\n", 904), ("\n", 0), (TAIL, 0)],
    )
}
