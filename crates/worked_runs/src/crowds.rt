//! Many runs of many small streams: whatever fails and whichever thread comes first, the ledger is in
//! order, each device comes back, and each stream's frames are of its file.
use crate::asserts::{holds_at, same_at};
use crate::mixed::{Failing, Mixed, Work, mixed_of};
use crate::payloads::{count_frames, payloads_of};
use chunk_core::How;
use device_port::OpenGate;
use flume_cli::{Report, Status};
use ledger_audit::audit;
use ledger_verdict::Verdict;
use res_ledger::{StreamNo, What};
use std::alloc::{AllocError, Global};
use std::ops::Range;
use std::process::Abort;
use std::sync::Wait;
use std::test::Fail;
use std::thread::Threads;
use worked_calls::outside::{Aftermath, Case, Printed, call_over, run_of};

/// A run, by its seed and how many of its streams may be open.
type Place = (u64, u32);

/// How the stream of this number ended.
fn end_of(report: &Report, k: usize) -> Option<How> {
    let end = report.ends.get(k.saturating_add(1))?;
    Some(end.how)
}

/// Whether the payload is the front of the file that was printed by then, and all of it where the stream
/// was done.
fn is_printed(payload: &[u8], file: &[u8], how: Option<How>) -> bool {
    file.starts_with(payload) && (how != Some(How::Done) || payload.len() == file.len())
}

/// Fails the test unless what was printed of each stream is of its file.
fn prints_its_files(
    rt: &impl Abort,
    alloc: Global,
    mixed: &Mixed,
    seen: &Aftermath,
    place: &Place,
) -> Result<(), AllocError> {
    holds_at(rt, count_frames(seen.out.written()) <= mixed.take, place);
    let payloads = payloads_of(alloc, seen.out.written(), mixed.streams.len())?;
    for (k, stream) in mixed.streams.iter().enumerate() {
        if let (Work::Plain | Work::Until, Some(payload)) = (stream.work, payloads.get(k)) {
            let how = end_of(&seen.report, k);
            holds_at(rt, is_printed(payload, &stream.file, how), &(*place, k));
        }
    }
    Ok(())
}

/// Whether the ends are those of the outer stream and then of each stream in order.
fn ends_are_in_order(report: &Report, count: usize) -> bool {
    let mut next: u32 = 0;
    let mut in_order = report.ends.len() == count.saturating_add(1);
    for (i, end) in report.ends.as_slice().iter().enumerate() {
        if i == 0 {
            in_order = in_order && end.who == StreamNo::Outer;
        } else {
            in_order = in_order && end.who == StreamNo::Inner(next);
            next = next.saturating_add(1);
        }
    }
    in_order
}

fn has_fault(report: &Report) -> bool {
    report
        .ends
        .as_slice()
        .iter()
        .any(|end| matches!(end.how, How::Fault(_)))
}

fn has_failed_final(report: &Report) -> bool {
    report.ledger.as_slice().iter().any(|event| matches!(event.what, What::Final { ok: false, .. }))
}

/// The status that is told of such an output, such ends and such a ledger.
fn status_told(seen: &Aftermath) -> Status {
    if seen.out.faults() != 0 {
        Status::NotWritten
    } else if has_fault(&seen.report) {
        Status::Faulty
    } else if has_failed_final(&seen.report) {
        Status::Unclean
    } else {
        Status::Good
    }
}

/// The most streams that were open at a time, by the ledger.
fn most_open(report: &Report) -> u32 {
    let mut open: u32 = 0;
    let mut most: u32 = 0;
    let mut begun: u64 = 0;
    for event in report.ledger.as_slice() {
        if let StreamNo::Inner(k) = event.by {
            let bit = 1u64.wrapping_shl(k);
            if begun & bit == 0 {
                begun |= bit;
                open = open.saturating_add(1);
                most = most.max(open);
            }
            if let What::Cancel { .. } = event.what {
                open = open.saturating_sub(1);
            }
        }
    }
    most
}

/// Fails the test unless all that was reported fits together.
fn is_in_order(
    rt: &impl Abort,
    alloc: Global,
    mixed: &Mixed,
    seen: &Aftermath,
    place: &Place,
) -> Result<(), AllocError> {
    let (_, max_open) = *place;
    let verdict = audit(alloc, &seen.report.ledger)?;
    same_at(rt, verdict, Verdict::Clean, place);
    same_at(rt, seen.err.written(), b"", place);
    same_at(rt, seen.report.status, status_told(seen), place);
    holds_at(rt, seen.returned(), place);
    holds_at(
        rt,
        ends_are_in_order(&seen.report, mixed.streams.len()),
        place,
    );
    holds_at(rt, most_open(&seen.report) <= max_open, place);
    if mixed.failing == Failing::Nothing {
        same_at(rt, seen.report.status, Status::Good, place);
    }
    Ok(())
}

/// Runs the streams of a seed.
fn run_mixed<R: Threads + Wait + Sync>(
    rt: &R,
    alloc: Global,
    mixed: &Mixed,
) -> Result<Aftermath, AllocError> {
    let mut depot = mixed.depot(alloc)?;
    let nth: [u32; 1] = [mixed.write_that_fails().unwrap_or(u32::MAX)];
    let case = Case {
        out_fails: &nth,
        ..run_of(mixed.description.as_str(), b"not read")
    };
    let Printed { report, out, err } = call_over(rt, alloc, &case, &mut depot, &OpenGate)?;
    Ok(Aftermath {
        report,
        depot,
        out,
        err,
    })
}

fn run_is_in_order<R: Abort + Threads + Wait + Sync>(
    rt: &R,
    alloc: Global,
    place: &Place,
) -> Result<(), AllocError> {
    let (seed, max_open) = *place;
    let mixed = mixed_of(alloc, seed, max_open)?;
    let seen = run_mixed(rt, alloc, &mixed)?;
    is_in_order(rt, alloc, &mixed, &seen, place)?;
    prints_its_files(rt, alloc, &mixed, &seen, place)
}

/// Fails the test unless the runs of these seeds are in order, of whose streams so many may be open.
fn runs_are_in_order<R: Abort + Threads + Wait + Sync>(
    rt: &R,
    alloc: Global,
    seeds: Range<u64>,
    max_open: u32,
) -> Result<(), AllocError> {
    for seed in seeds {
        run_is_in_order(rt, alloc, &(seed, max_open))?;
    }
    Ok(())
}

#[test]
fn one_stream_at_a_time(rt: HostRuntime) -> Result<(), Fail> {
    runs_are_in_order(&rt, rt.alloc(), 0..300, 1)?;
    Ok(())
}

#[test]
fn two_streams_at_a_time(rt: HostRuntime) -> Result<(), Fail> {
    runs_are_in_order(&rt, rt.alloc(), 300..800, 2)?;
    Ok(())
}

#[test]
fn some_streams_at_a_time(rt: HostRuntime) -> Result<(), Fail> {
    runs_are_in_order(&rt, rt.alloc(), 800..1300, 7)?;
    Ok(())
}

#[test]
fn all_streams_at_a_time(rt: HostRuntime) -> Result<(), Fail> {
    runs_are_in_order(&rt, rt.alloc(), 1300..1800, 64)?;
    Ok(())
}
