//! Runs over the lines of a list: calls on the list and on the files of its lines fail, and as many lines
//! as there may be are given streams.
use crate::asserts::{holds_at, same_at};
use crate::payloads::count_frames;
use crate::runs::{Wanted, at_fault, good, leaves, leaves_at};
use chunk_core::{Code, How};
use device_port::Act;
use flume_cli::Status;
use ledger_audit::audit;
use ledger_verdict::Verdict;
use std::alloc::{AllocError, Global};
use std::process::Abort;
use std::sync::Wait;
use std::test::Fail;
use std::thread::Threads;
use worked_calls::outside::{Aftermath, Case, run, run_of};

/// The list `l`, where one stream is open at a time.
pub(crate) const LIST: &str = "version = 2\nmax_open = 1\n[list]\npath = 'l'\n";

/// Two lines.
pub(crate) const LINES: &[u8] = b"a\nb\n";

/// What their files give.
pub(crate) const FRAMES: &[u8] = b"0 2\nx\n\n1 2\ny\n\n";

/// The tail where nothing fails.
pub(crate) const LISTED: &str = "end outer done\nend 0 done\nend 1 done\nledger 15\n\
    outer open 1 0\nouter acquire 0 1\nouter lease 0 1\nouter lease 1 1\n0 acquire 1 0\n\
    0 close 0 succeeded\n0 final 1 succeeded ok\n0 cancel 0 succeeded\n\
    outer close 1 succeeded\nouter close 0 succeeded\n1 acquire 2 0\n1 close 0 succeeded\n\
    1 final 2 succeeded ok\n1 cancel 1 succeeded\n1 final 0 succeeded ok\n";

/// The tail where the list failed behind two lines, the first of which was begun.
const LEFT: &str = "end outer fault read\nend 0 done\nend 1 halted\nledger 11\n\
    outer open 1 0\nouter acquire 0 1\nouter lease 0 1\nouter lease 1 1\n0 acquire 1 0\n\
    0 close 0 succeeded\n0 final 1 succeeded ok\n0 cancel 0 succeeded\n\
    outer close 0 errored\nouter cancel 1 canceled\nouter final 0 canceled ok\n";

/// The case of such a list, over the files of its lines.
pub(crate) fn listed_in<'a>(others: &'a [(&'a str, &'a [u8])]) -> Case<'a> {
    Case {
        others,
        ..run_of(LIST, b"x\n")
    }
}

/// Fails the test unless a run of which this call fails leaves this.
fn call_fails(
    rt: &(impl Abort + Threads + Wait + Sync),
    alloc: Global,
    call: (&str, Act, u32),
    wanted: Wanted<'_>,
) -> Result<(), AllocError> {
    let trips: [(&str, Act, u32); 1] = [call];
    let case = Case {
        other_trips: &trips,
        ..listed_in(&[("l", LINES), ("b", b"y\n")])
    };
    leaves_at(rt, alloc, &case, wanted, &call)
}

/// The list fails before its first line, behind its last one, or not at all, since it was at its end.
#[test]
fn list_fails_at_each_read(rt: HostRuntime) -> Result<(), Fail> {
    let alloc = rt.alloc();
    let unopened = "end outer fault open\nledger 2\nouter open 1 0\nouter close 0 errored\n";
    call_fails(&rt, alloc, ("l", Act::Open, 1), at_fault(b"", unopened))?;
    let unread = "end outer fault read\nledger 4\nouter open 1 0\nouter acquire 0 1\n\
        outer close 0 errored\nouter final 0 errored ok\n";
    call_fails(&rt, alloc, ("l", Act::Read, 1), at_fault(b"", unread))?;
    let left = at_fault(b"0 2\nx\n\n", LEFT);
    call_fails(&rt, alloc, ("l", Act::Read, 2), left)?;
    call_fails(&rt, alloc, ("l", Act::Read, 3), good(FRAMES, LISTED))?;
    Ok(())
}

/// A close of the list fails, which the stream notes that leaves last.
#[test]
fn list_fails_at_its_close(rt: HostRuntime) -> Result<(), Fail> {
    let alloc = rt.alloc();
    let tail = LISTED.replace(alloc, "1 final 0 succeeded ok", "1 final 0 succeeded fault")?;
    let unclean = Wanted {
        status: Status::Unclean,
        frames: FRAMES,
        tail: tail.as_str(),
    };
    call_fails(&rt, alloc, ("l", Act::Close, 1), unclean)?;
    Ok(())
}

/// The file of a line fails at a read, and the lines behind it are left.
#[test]
fn listed_file_fails(rt: HostRuntime) -> Result<(), Fail> {
    let case = Case {
        other_trips: &[("b", Act::Read, 1)],
        ..listed_in(&[("l", b"a\nb\na\nb\n"), ("b", b"y\n")])
    };
    let tail = "end outer halted\nend 0 done\nend 1 fault read\nend 2 halted\nledger 16\n\
        outer open 1 0\nouter acquire 0 1\nouter lease 0 1\nouter lease 1 1\n0 acquire 1 0\n\
        0 close 0 succeeded\n0 final 1 succeeded ok\n0 cancel 0 succeeded\nouter lease 2 1\n\
        1 acquire 2 0\n1 close 0 errored\n1 final 2 errored ok\n1 cancel 1 errored\n\
        outer cancel 2 canceled\nouter close 0 canceled\nouter final 0 canceled ok\n";
    leaves(&rt, rt.alloc(), &case, at_fault(b"0 2\nx\n\n", tail))?;
    Ok(())
}

/// Fails the test unless 1,024 streams were given, which printed so many frames, the run ended so, its
/// ledger is in order, and each device came back.
fn gave_all(
    rt: &impl Abort,
    alloc: Global,
    seen: &Aftermath,
    ended: (Status, How, usize),
    open: u32,
) -> Result<(), AllocError> {
    let (status, how, frames) = ended;
    same_at(rt, seen.report.status, status, &open);
    same_at(rt, seen.report.ends.len(), 1025, &open);
    let outer = seen.report.ends.as_slice().first().map(|end| end.how);
    same_at(rt, outer, Some(how), &open);
    same_at(rt, count_frames(seen.out.written()), frames, &open);
    let verdict = audit(alloc, &seen.report.ledger)?;
    same_at(rt, verdict, Verdict::Clean, &open);
    holds_at(rt, seen.returned(), &open);
    Ok(())
}

/// So many lines `a`.
fn lines_of(alloc: Global, count: u32) -> Result<Vec<u8>, AllocError> {
    let mut lines = Vec::new(alloc);
    for _ in 0..count {
        lines.extend_from_slice(b"a\n")?;
    }
    Ok(lines)
}

/// Runs a list of so many lines, of which 1,024 may be given streams and so many be open.
fn run_many(
    rt: &(impl Abort + Threads + Wait + Sync),
    alloc: Global,
    count: u32,
    open: u32,
) -> Result<Aftermath, AllocError> {
    let lines = lines_of(alloc, count)?;
    let text = format!(in alloc;
        "version = 2\nmax_open = {open}\n[list]\npath = 'l'\nmax = 1024\n"
    )?;
    let others: [(&str, &[u8]); 1] = [("l", lines.as_slice())];
    let case = Case {
        others: &others,
        ..run_of(text.as_str(), b"x\n")
    };
    run(rt, alloc, &case)
}

/// As many lines as there may be are given streams. Of one line more the last stream isn't begun, where
/// one is open at a time.
#[test]
fn as_many_lines_as_there_may_be(rt: HostRuntime) -> Result<(), Fail> {
    let alloc = rt.alloc();
    for open in &[1u32, 64] {
        let seen = run_many(&rt, alloc, 1024, *open)?;
        gave_all(&rt, alloc, &seen, (Status::Good, How::Done, 1024), *open)?;
    }
    let seen = run_many(&rt, alloc, 1025, 1)?;
    let many = How::Fault(Code::TooMany);
    gave_all(&rt, alloc, &seen, (Status::Faulty, many, 1023), 1)?;
    Ok(())
}

/// A path of a thousand bytes, and five lines of it, of which one read gives four.
fn long_lines(alloc: Global) -> Result<(String, String), AllocError> {
    let mut path = String::new(alloc);
    for _ in 0..100u32 {
        path.push_str("0123456789")?;
    }
    let mut lines = String::new(alloc);
    for _ in 0..5u32 {
        writeln!(lines, "{path}")?;
    }
    Ok((path, lines))
}

/// Fails the test unless the five lines lead to this status and so many frames where this read of the
/// list fails.
fn long_list_gives(
    rt: &(impl Abort + Threads + Wait + Sync),
    alloc: Global,
    fails: u32,
    status: Status,
    frames: usize,
) -> Result<(), AllocError> {
    let (path, lines) = long_lines(alloc)?;
    let others: [(&str, &[u8]); 2] = [("l", lines.as_bytes()), (path.as_str(), b"y\n")];
    let trips: [(&str, Act, u32); 1] = [("l", Act::Read, fails)];
    let case = Case {
        other_trips: &trips,
        ..listed_in(&others)
    };
    let seen = run(rt, alloc, &case)?;
    same_at(rt, seen.report.status, status, &fails);
    same_at(rt, count_frames(seen.out.written()), frames, &fails);
    let verdict = audit(alloc, &seen.report.ledger)?;
    same_at(rt, verdict, Verdict::Clean, &fails);
    holds_at(rt, seen.returned(), &fails);
    Ok(())
}

/// The read that fails, the status, and how many frames there are.
const READS: &[(u32, Status, usize)] = &[
    (1, Status::Faulty, 0),
    (2, Status::Faulty, 3),
    (3, Status::Faulty, 4),
    (4, Status::Good, 5),
];

/// Of the lines that were given streams before a read that fails the last one isn't begun.
#[test]
fn list_fails_between_its_reads(rt: HostRuntime) -> Result<(), Fail> {
    let alloc = rt.alloc();
    for (fails, status, frames) in READS {
        long_list_gives(&rt, alloc, *fails, *status, *frames)?;
    }
    Ok(())
}
