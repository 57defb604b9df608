//! Evaluations of which a group fails.
use crate::asserts::{holds_at, same_at};
use crate::many::lines_of;
use crate::teeing::call_of;
use chunk_core::{Code, How};
use flume_cli::Status;
use std::alloc::{AllocError, Global};
use std::process::Abort;
use std::sync::Wait;
use std::test::Fail;
use std::thread::Threads;
use worked_calls::outside::run;

/// Fails the test unless the second fields of these lines end with a fault behind these frames.
fn ends_with_nofield(
    rt: &(impl Abort + Threads + Wait + Sync),
    alloc: Global,
    jobs: &str,
    file: &[u8],
    frames: &str,
) -> Result<(), AllocError> {
    let words = ["eval", "--jobs", jobs, "--group", "1", "a", "csv|field 1"];
    let seen = run(rt, alloc, &call_of(&words, file))?;
    let out = seen.out.written();
    same_at(rt, seen.report.status, Status::Faulty, &frames);
    holds_at(rt, out.starts_with(frames.as_bytes()), &frames);
    let tail = &out[frames.len().min(out.len())..];
    holds_at(
        rt,
        tail.starts_with(b"end 0 fault nofield\nledger 3\n"),
        &frames,
    );
    holds_at(rt, seen.ended(How::Fault(Code::NoField)), &frames);
    holds_at(rt, seen.returned(), &frames);
    Ok(())
}

fn by_jobs(
    rt: &(impl Abort + Threads + Wait + Sync),
    alloc: Global,
    jobs: &str,
) -> Result<(), AllocError> {
    ends_with_nofield(rt, alloc, jobs, b"p,q\nr\ns,t\n", "0 2\nq\n\n")?;
    ends_with_nofield(rt, alloc, jobs, b"r\np,q\ns,t\n", "")?;
    ends_with_nofield(rt, alloc, jobs, b"p,q\ns,t\nr\n", "0 2\nq\n\n0 2\nt\n\n")?;
    ends_with_nofield(rt, alloc, jobs, b"r\nr\nr\n", "")?;
    ends_with_nofield(rt, alloc, jobs, &lines_of(alloc, 200)?, "")
}

/// Nothing is printed behind the first group that fails, whichever that is.
#[test]
fn the_first_group_that_fails_ends_it(rt: HostRuntime) -> Result<(), Fail> {
    let alloc = rt.alloc();
    by_jobs(&rt, alloc, "1")?;
    by_jobs(&rt, alloc, "3")?;
    by_jobs(&rt, alloc, "64")?;
    Ok(())
}
