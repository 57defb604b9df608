//! One run, or several that are alike, and what each has to leave.
use crate::asserts::{holds, holds_at, same};
use device_port::Act;
use flume_cli::Status;
use std::alloc::{AllocError, Global};
use std::fmt::Debug;
use std::process::Abort;
use std::sync::Wait;
use std::thread::Threads;
use worked_calls::outside::{Aftermath, Case, run_of};
use worked_calls::reports::{DONE, runs_as};

/// What a run leaves: its status, the frames that it prints, and its ends and ledger as text.
#[derive(Clone, Copy)]
pub(crate) struct Wanted<'a> {
    pub(crate) status: Status,
    pub(crate) frames: &'a [u8],
    pub(crate) tail: &'a str,
}

/// What a run leaves of which nothing fails.
pub(crate) fn good<'a>(frames: &'a [u8], tail: &'a str) -> Wanted<'a> {
    Wanted {
        status: Status::Good,
        frames,
        tail,
    }
}

/// What a run leaves of which a stream ends with a fault.
pub(crate) fn at_fault<'a>(frames: &'a [u8], tail: &'a str) -> Wanted<'a> {
    Wanted {
        status: Status::Faulty,
        frames,
        tail,
    }
}

/// Fails the test unless the case leaves this.
pub(crate) fn leaves(
    rt: &(impl Abort + Threads + Wait + Sync),
    alloc: Global,
    case: &Case,
    wanted: Wanted<'_>,
) -> Result<(), AllocError> {
    let is_left = runs_as(rt, alloc, case, wanted.status, wanted.frames, wanted.tail)?;
    holds(rt, is_left);
    Ok(())
}

/// Fails the test unless the case leaves this, and tells the place.
pub(crate) fn leaves_at(
    rt: &(impl Abort + Threads + Wait + Sync),
    alloc: Global,
    case: &Case,
    wanted: Wanted<'_>,
    place: &impl Debug,
) -> Result<(), AllocError> {
    let is_left = runs_as(rt, alloc, case, wanted.status, wanted.frames, wanted.tail)?;
    holds_at(rt, is_left, place);
    Ok(())
}

/// Descriptions that are alike but for what stands at an `@`.
#[derive(Clone, Copy)]
pub(crate) struct Alike<'a> {
    /// The text of each, with the `@`.
    pub(crate) description: &'a str,
    /// The calls on the file `a` that fail.
    pub(crate) trips: &'a [(Act, u32)],
    pub(crate) status: Status,
    pub(crate) tail: &'a str,
}

/// Such descriptions, whose one stream ends well.
pub(crate) fn ending_well(description: &str) -> Alike<'_> {
    Alike {
        description,
        trips: &[],
        status: Status::Good,
        tail: DONE,
    }
}

/// One stream, of the file `a` through the steps at the `@`.
pub(crate) const STEPS: &str = "[[stream]]\npath = 'a'\nsteps = [@]\n";

/// What stands at the `@`, the file `a`, and the frames.
pub(crate) type Row<'a> = (&'a str, &'a [u8], &'a [u8]);

/// Fails the test unless the description with the row's text leaves the row's frames.
pub(crate) fn row_leaves(
    rt: &(impl Abort + Threads + Wait + Sync),
    alloc: Global,
    each: &Alike<'_>,
    row: &Row<'_>,
) -> Result<(), AllocError> {
    let (part, file, frames) = *row;
    let text = each.description.replace(alloc, "@", part)?;
    let case = Case {
        trips: each.trips,
        ..run_of(text.as_str(), file)
    };
    let wanted = Wanted {
        status: each.status,
        frames,
        tail: each.tail,
    };
    leaves_at(rt, alloc, &case, wanted, &part)
}

/// Fails the test unless the description with each row's text leaves the row's frames.
pub(crate) fn each_leaves(
    rt: &(impl Abort + Threads + Wait + Sync),
    alloc: Global,
    each: &Alike<'_>,
    rows: &[Row<'_>],
) -> Result<(), AllocError> {
    for row in rows {
        row_leaves(rt, alloc, each, row)?;
    }
    Ok(())
}

/// Fails the test unless the ends and the ledger have one of these texts, and each device came back.
fn is_reported(
    rt: &impl Abort,
    alloc: Global,
    seen: &Aftermath,
    tails: &[&str],
) -> Result<(), AllocError> {
    let mut is_one = false;
    for tail in tails {
        is_one = is_one || seen.reported(alloc, tail)?;
    }
    holds(rt, is_one);
    Ok(())
}

/// Fails the test unless a write failed when this was written, and one of these was reported.
pub(crate) fn is_not_written(
    rt: &impl Abort,
    alloc: Global,
    seen: &Aftermath,
    out: &[u8],
    tails: &[&str],
) -> Result<(), AllocError> {
    same(rt, seen.report.status, Status::NotWritten);
    same(rt, seen.out.written(), out);
    same(rt, seen.out.faults(), 1);
    same(rt, seen.err.written(), b"");
    is_reported(rt, alloc, seen, tails)
}
