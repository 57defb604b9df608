//! As many files as there may be, and one more.
use crate::asserts::{holds_at, same_at};
use crate::rotations::rotation_of;
use chunk_core::{Code, How};
use flume_cli::Status;
use std::alloc::{AllocError, Global};
use std::process::Abort;
use std::sync::Wait;
use std::test::Fail;
use std::thread::Threads;
use worked_calls::outside::{Aftermath, run};

/// How many of the files p.0, p.1 and so on hold one byte `x`.
fn count_of(alloc: Global, seen: &Aftermath) -> Result<u64, AllocError> {
    let mut count: u64 = 0;
    for i in 0..2000u64 {
        let path = format!(in alloc; "p.{i}")?;
        if seen.depot.file(path.as_str()) == Some(b"x".as_slice()) {
            count = count.saturating_add(1);
        }
    }
    Ok(count)
}

/// Fails the test unless so many bytes, each in a file of its own, leave 1,024 files that are closed
/// once, and end so.
fn makes_all(
    rt: &(impl Abort + Threads + Wait + Sync),
    alloc: Global,
    bytes: usize,
    status: Status,
    how: How,
) -> Result<(), AllocError> {
    let file = vec![in alloc; b'x'; bytes]?;
    let words = ["rotate", "--bytes", "1", "a", "p"];
    let seen = run(rt, alloc, &rotation_of(&words, &file))?;
    same_at(rt, seen.report.status, status, &bytes);
    holds_at(rt, seen.ended(how), &bytes);
    same_at(rt, seen.report.ledger.len(), 4098, &bytes);
    same_at(rt, seen.depot.made().len(), 1025, &bytes);
    holds_at(rt, seen.returned(), &bytes);
    same_at(rt, count_of(alloc, &seen)?, 1024, &bytes);
    Ok(())
}

/// 1,024 bytes are 1,024 files, and of one byte more there is no file.
#[test]
fn as_many_files_as_there_may_be(rt: HostRuntime) -> Result<(), Fail> {
    let alloc = rt.alloc();
    makes_all(&rt, alloc, 1024, Status::Good, How::Done)?;
    let too_many = How::Fault(Code::TooMany);
    makes_all(&rt, alloc, 1025, Status::Faulty, too_many)?;
    Ok(())
}
