//! The adapters of real files and streams, over files of the tests' own and over real ones.
use super::{Moves, close_at, moves, read_at, sends, write_at};
use crate::asserts::{holds, same, same_at};
use crate::device_tests::fakes::{Answer, Scripted, Scripts};
use device_port::*;
use std::alloc::{AllocError, Global};
use std::io::ErrorKind;
use std::process::Abort;
use std::test::Fail;
use std::{fs, io};

/// A read that would have to wait fails, and isn't tried again.
#[test]
fn interrupted_reads_are_tried_again(rt: HostRuntime) {
    let answers = [
        Answer::Interrupted,
        Answer::Interrupted,
        Answer::Moves(1),
        Answer::Moves(0),
        Answer::Fails,
        Answer::WouldBlock,
        Answer::Moves(9),
    ];
    let mut source = StdSource::new(Scripted::new(rt.alloc(), &answers, None));
    let mut buf = [0u8; 4];
    same(&rt, source.read(&mut buf), Ok(1));
    same(&rt, buf, [b'x', 0, 0, 0]);
    same(&rt, source.read(&mut buf), Ok(0));
    same(&rt, source.read(&mut buf), Err(Failed));
    same(&rt, source.read(&mut buf), Err(Failed));
    same(&rt, source.read(&mut buf), Ok(4));
    same(&rt, buf, *b"xxxx");
}

/// A write that would have to wait fails, and isn't tried again.
#[test]
fn interrupted_writes_are_tried_again(rt: HostRuntime) {
    let answers = [
        Answer::Interrupted,
        Answer::Interrupted,
        Answer::Moves(1),
        Answer::Moves(9),
        Answer::Moves(0),
        Answer::Fails,
        Answer::WouldBlock,
        Answer::Moves(1),
    ];
    let mut file = Scripted::new(rt.alloc(), &answers, None);
    let mut sink = StdSink::new(&mut file);
    same(&rt, put(&mut sink, b"hello"), Ok(()));
    same(&rt, put(&mut sink, b"!"), Err(Failed));
    same(&rt, put(&mut sink, b"!"), Err(Failed));
    same(&rt, put(&mut sink, b"!"), Err(Failed));
    same(&rt, put(&mut sink, b"?"), Ok(()));
    same(&rt, file.taken.as_slice(), b"hello?");
}

/// Whether a device that was opened at the path is closed well, where making its file safe fails
/// so.
fn closes_well(
    alloc: Global,
    path: &str,
    mode: Mode,
    sync: Option<ErrorKind>,
) -> Result<bool, AllocError> {
    let mut depot = FileDepot::new(Scripts {
        alloc,
        answers: &[],
        sync,
    });
    close_at(&mut depot, alloc, path, mode)
}

/// Fails the test unless the device is closed as told, however making its file safe fails.
fn are_closed(
    rt: &impl Abort,
    alloc: Global,
    path: &str,
    mode: Mode,
    well: bool,
    failures: &[ErrorKind],
) -> Result<(), AllocError> {
    for kind in failures {
        let closed = closes_well(alloc, path, mode, Some(*kind))?;
        same_at(rt, closed, well, kind);
    }
    Ok(())
}

#[test]
fn lost_writes_are_failed_closes(rt: HostRuntime) -> Result<(), Fail> {
    let alloc = rt.alloc();
    let without_disk = [
        ErrorKind::InvalidInput,
        ErrorKind::ReadOnlyFilesystem,
        ErrorKind::Unsupported,
    ];
    are_closed(&rt, alloc, "written", Mode::Write, true, &without_disk)?;
    let lost = [
        ErrorKind::StorageFull,
        ErrorKind::QuotaExceeded,
        ErrorKind::Uncategorized,
    ];
    are_closed(&rt, alloc, "written", Mode::Write, false, &lost)?;
    are_closed(&rt, alloc, "read", Mode::Read, true, &lost)?;
    holds(&rt, closes_well(alloc, "written", Mode::Write, None)?);
    holds(&rt, !closes_well(alloc, "written", Mode::Read, None)?);
    holds(&rt, !closes_well(alloc, "read", Mode::Write, None)?);
    Ok(())
}

/// Fails the test unless a read and a write move so many bytes each, and the read leaves this in its
/// buffer.
fn each_moves<D: Depot>(
    rt: &impl Abort,
    alloc: Global,
    depot: &mut D,
    count: Option<usize>,
    left: [u8; 4],
) -> Result<(), AllocError> {
    let mut buf = [0u8; 4];
    same(rt, read_at(depot, alloc, "read", &mut buf)?, count);
    same(rt, buf, left);
    same(rt, write_at(depot, alloc, "written", b"hello")?, count);
    Ok(())
}

/// A depot whose files answer so.
fn depot_of<'a>(alloc: Global, answers: &'a [Answer]) -> FileDepot<Scripts<'a>> {
    let sync = None;
    FileDepot::new(Scripts {
        alloc,
        answers,
        sync,
    })
}

#[test]
fn devices_read_and_write_as_their_files_do(rt: HostRuntime) -> Result<(), Fail> {
    let moves = [Answer::Interrupted, Answer::Moves(2)];
    let mut depot = depot_of(rt.alloc(), &moves);
    each_moves(&rt, rt.alloc(), &mut depot, Some(2), *b"xx\0\0")?;
    Ok(())
}

#[test]
fn devices_fail_as_their_files_do(rt: HostRuntime) -> Result<(), Fail> {
    let fails = [Answer::Fails, Answer::Moves(2)];
    let mut depot = depot_of(rt.alloc(), &fails);
    each_moves(&rt, rt.alloc(), &mut depot, None, [0; 4])?;
    Ok(())
}

/// Fails the test unless what is written to the file is read back, and a shorter text then stands in
/// its place.
fn keeps_what_is_written<D: Depot>(
    rt: &impl Abort,
    alloc: Global,
    depot: &mut D,
    path: &str,
) -> Result<(), AllocError> {
    let mut buf = [0u8; 8];
    same(rt, write_at(depot, alloc, path, b"hello")?, Some(5));
    same(rt, read_at(depot, alloc, path, &mut buf)?, Some(5));
    same(rt, buf, *b"hello\0\0\0");
    same(rt, write_at(depot, alloc, path, b"he")?, Some(2));
    same(rt, read_at(depot, alloc, path, &mut buf)?, Some(2));
    Ok(())
}

#[test]
fn real_files_are_written_and_read(rt: HostRuntime) -> Result<(), Fail> {
    const PATH: &str = "device_port.tmp";
    const MOVES: &[Moves] = &[
        (PATH, Mode::Read, None),
        (".", Mode::Read, None),
        (".", Mode::Write, None),
        ("/dev/null", Mode::Write, Some(5)),
    ];
    let mut depot = FileDepot::new(rt);
    sends(&depot);
    keeps_what_is_written(&rt, rt.alloc(), &mut depot, PATH)?;
    fs::remove_file(&rt, PATH)?;
    moves(&rt, rt.alloc(), &mut depot, MOVES)?;
    Ok(())
}

/// How many files this process has open, where the system tells.
fn open_files(rt: &HostRuntime) -> Option<usize> {
    Some(fs::read_dir(rt, "/proc/self/fd").ok()?.count())
}

/// Writes the file 100 times and reads it 2,000 times.
fn write_and_read_often<D: Depot>(
    rt: &impl Abort,
    alloc: Global,
    depot: &mut D,
    path: &str,
) -> Result<(), AllocError> {
    let mut buf = [0u8; 8];
    for _ in 0..100 {
        same(rt, write_at(depot, alloc, path, b"again")?, Some(5));
    }
    for _ in 0..2000 {
        same(rt, read_at(depot, alloc, path, &mut buf)?, Some(5));
    }
    Ok(())
}

#[test]
fn closed_files_give_their_descriptors_back(rt: HostRuntime) -> Result<(), Fail> {
    let path = "device_port_again.tmp";
    let mut depot = FileDepot::new(rt);
    let before = open_files(&rt);
    write_and_read_often(&rt, rt.alloc(), &mut depot, path)?;
    fs::remove_file(&rt, path)?;
    let after = open_files(&rt);
    holds(
        &rt,
        after.unwrap_or(0) < before.unwrap_or(0).saturating_add(50),
    );
    Ok(())
}

/// Tests have an empty standard input.
#[test]
fn standard_streams(rt: HostRuntime) {
    let mut out = StdSink::new(rt.stdout());
    same(&rt, put(&mut out, b"written through\n"), Ok(()));
    let mut input = StdSource::new(rt.stdin());
    same(&rt, input.read(&mut [0u8; 8]), Ok(0));
}

#[test]
fn a_pipe_of_the_system_is_a_source_and_a_sink(rt: HostRuntime) -> Result<(), Fail> {
    let (reader, writer) = io::pipe(&rt)?;
    same(
        &rt,
        put(&mut StdSink::new(writer), b"through a pipe"),
        Ok(()),
    );
    let mut source = StdSource::new(reader);
    let mut buf = [0u8; 16];
    same(&rt, source.read(&mut buf), Ok(14));
    same(&rt, buf, *b"through a pipe\0\0");
    same(&rt, source.read(&mut buf), Ok(0));
    Ok(())
}

#[test]
fn a_folder_is_no_source(rt: HostRuntime) -> Result<(), Fail> {
    let mut source = StdSource::new(fs::open(&rt, "/")?);
    same(&rt, source.read(&mut [0u8; 8]), Err(Failed));
    Ok(())
}
