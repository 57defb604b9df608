//! What stops streams that run side by side.
use crate::asserts::{holds_at, same_at};
use crate::reports::all_ended;
use chunk_core::How;
use device_port::Act;
use flume_cli::Status;
use std::alloc::{AllocError, Global};
use std::process::Abort;
use std::sync::Wait;
use std::test::Fail;
use std::thread::Threads;
use worked_calls::outside::{Aftermath, Case, run, run_of};

const THREE: &str = "[[stream]]\npath = 'a'\n[[stream]]\npath = 'b'\n[[stream]]\npath = 'a'\n";

/// Fails the test unless the writes failed behind so many bytes, and each stream was done or halted.
fn stopped_behind(rt: &impl Abort, nth: u32, seen: &Aftermath, written: usize) {
    let report = &seen.report;
    same_at(rt, report.status, Status::NotWritten, &nth);
    holds_at(rt, seen.returned(), &nth);
    same_at(rt, seen.out.written().len(), written, &nth);
    same_at(rt, report.ends.len(), 4, &nth);
    holds_at(rt, all_ended(report, How::Done, How::Halted), &nth);
}

/// Fails the test unless nothing is written behind the write that fails.
fn write_fails<R: Abort + Threads + Wait + Sync>(
    rt: &R,
    alloc: Global,
    text: &str,
    nth: u32,
    written: usize,
) -> Result<(), AllocError> {
    let fails: [u32; 1] = [nth];
    let case = Case {
        others: &[("b", b"12")],
        out_fails: &fails,
        ..run_of(text, b"xy")
    };
    let seen = run(rt, alloc, &case)?;
    stopped_behind(rt, nth, &seen, written);
    Ok(())
}

/// The numbers of the writes, and how many bytes are written before each.
const WRITES: &[(u32, usize)] = &[(1, 0), (2, 6), (3, 12), (4, 18), (5, 24), (6, 30)];

fn writes_fail<R: Abort + Threads + Wait + Sync>(
    rt: &R,
    alloc: Global,
    text: &str,
    writes: &[(u32, usize)],
) -> Result<(), AllocError> {
    for (nth, written) in writes {
        write_fails(rt, alloc, text, *nth, *written)?;
    }
    Ok(())
}

/// Whichever write fails, nothing is written behind it, and every device comes back.
#[test]
fn each_write_fails(rt: HostRuntime) -> Result<(), Fail> {
    let text = format!(in rt.alloc(); "chunk = 1\n{THREE}")?;
    writes_fail(&rt, rt.alloc(), text.as_str(), WRITES)?;
    Ok(())
}

/// Fails the test unless the run has this status where the first such call of the second device
/// fails, at least so many devices were made, and each of them came back.
fn call_fails<R: Abort + Threads + Wait + Sync>(
    rt: &R,
    alloc: Global,
    act: Act,
    status: Status,
    least: usize,
) -> Result<(), AllocError> {
    let trips: [(&str, Act, u32); 1] = [("b", act, 1)];
    let case = Case {
        others: &[("b", b"12")],
        other_trips: &trips,
        ..run_of(THREE, b"xy")
    };
    let seen = run(rt, alloc, &case)?;
    same_at(rt, seen.report.status, status, &act);
    holds_at(rt, seen.returned(), &act);
    let made = seen.depot.made().len();
    holds_at(rt, made >= least && made <= 3, &(act, made));
    Ok(())
}

/// Whichever call of a device fails, every device comes back, and one end or one Final tells of it. Behind
/// a fault the third stream need not have begun.
#[test]
fn each_call_fails(rt: HostRuntime) -> Result<(), Fail> {
    call_fails(&rt, rt.alloc(), Act::Open, Status::Faulty, 2)?;
    call_fails(&rt, rt.alloc(), Act::Read, Status::Faulty, 2)?;
    call_fails(&rt, rt.alloc(), Act::Close, Status::Unclean, 3)?;
    Ok(())
}
