//! A batch tool over the library: counts the lines of each log that its words name, prints nothing of
//! them, and sums up what the run did.
#![tactic(auto)]

use chunk_core::{How, Word};
use device_port::{FileDepot, OpenGate};
use digest_parts::{CountingDepot, TotalSink, count_lines};
use par_join::run_streams;
use pipeline_desc::Plan;
use std::process::ExitCode;
use std::sync::Wait;
use std::thread::Threads;
use std::{env, io};

fn main(rt: HostRuntime) -> io::Result<ExitCode> {
    let paths = read_paths(&rt)?;
    match count_lines(rt.alloc(), paths.as_slice()) {
        Ok(Some(plan)) => digest(rt, &rt, &plan),
        Ok(None) => {
            eprintln!(rt; "usage: log_digest PATH .. (1,024 paths of 1 to 1,024 bytes at most)")?;
            Ok(ExitCode::from(2))
        }
        Err(_) => Ok(ExitCode::from(5)),
    }
}

fn read_paths(rt: &HostRuntime) -> io::Result<Vec<Word>> {
    let mut paths = Vec::new(rt.alloc());
    for arg in env::args(rt)?.skip(1) {
        paths.push(Word::of(rt.alloc(), arg.as_str())?)?;
    }
    Ok(paths)
}

/// Runs the plan, and prints the totals, how each stream ended, and how many events there were.
fn digest<R: Threads + Wait + Sync>(
    rt: HostRuntime,
    workers: &R,
    plan: &Plan,
) -> io::Result<ExitCode> {
    let alloc = rt.alloc();
    let mut depot = CountingDepot::new(FileDepot::new(rt));
    let mut out = TotalSink::new();
    let outcome = run_streams(workers, alloc, plan, &mut depot, &mut out, &OpenGate);
    let (made, back) = depot.counts();
    let (bytes, _) = out.totals();
    println!(rt; "{made} files, {back} back, {bytes} bytes of frames")?;
    let mut status = 0;
    for end in outcome.ends.as_slice() {
        if let How::Fault(code) = end.how {
            println!(rt; "a fault: {code}")?;
            status = 1;
        }
    }
    let events = outcome.ledger.len();
    println!(rt; "{events} events")?;
    Ok(ExitCode::from(if outcome.memory { 5 } else { status }))
}
