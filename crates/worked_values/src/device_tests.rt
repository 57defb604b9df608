//! Each maker once, and calls that fail by name.
ghost use Rattle.std.specs.Prelude.{◌≡◌, ◌<◌, false, length};
ghost use Rattle.device_port.specs.declared.device.Mode.TheVariants as mode;

mod fakes;
mod real;

use crate::asserts::{same, same_at};
use chunk_core::{Exit, Line, List, Word};
use device_port::*;
use std::alloc::{AllocError, Global};
use std::process::Abort;
use std::test::Fail;

fn nths(alloc: Global, nth: u32) -> Result<List<u32>, AllocError> {
    let mut list = List::new(alloc);
    list.push(nth)?;
    Ok(list)
}

fn sends<D: Depot>(_depot: &D)
where
    D::Dev: Send,
{}

#[test]
fn source_gives_its_bytes(rt: HostRuntime) -> Result<(), Fail> {
    let mut source = MemSource::new(rt.alloc(), b"hello", nths(rt.alloc(), 2)?)?;
    let mut buf = [0u8; 4];
    same(&rt, source.read(&mut buf), Ok(4));
    same(&rt, buf.as_slice(), b"hell");
    same(&rt, source.read(&mut buf), Err(Failed));
    same(&rt, source.read(&mut buf), Ok(1));
    same(&rt, buf[0], b'o');
    same(&rt, source.read(&mut buf), Ok(0));
    Ok(())
}

#[test]
fn sink_keeps_what_was_put(rt: HostRuntime) -> Result<(), Fail> {
    let mut sink = MemSink::new(rt.alloc(), nths(rt.alloc(), 2)?)?;
    same(&rt, put(&mut sink, b"one "), Ok(()));
    same(&rt, put(&mut sink, b"two "), Err(Failed));
    same(&rt, put(&mut sink, b""), Ok(()));
    same(&rt, put(&mut sink, b"three"), Ok(()));
    same(&rt, sink.written(), b"one three");
    same(&rt, sink.faults(), 1);
    same(&rt, sink.starved(), 0);
    Ok(())
}

/// Opens the device, writes some of the bytes and closes it, as far as that goes.
fn write_once<V: Device>(dev: &mut V, bytes: &[u8]) -> Option<usize>
    requires some { 0 < length bytes.now }
    requires unused { ((V.told dev.old).opens ≡ 0) × ((V.told dev.old).is_open ≡ false) × ((V.told dev.old).open_faults ≡ 0) × ((V.told dev.old).write_faults ≡ 0) }
    requires mode { (V.told dev.old).place.mode ≡ mode.Write }
    ensures closed { (V.told dev.new).is_open ≡ false }
    ensures number { (V.told dev.new).number ≡ (V.told dev.old).number }
{
    if dev.open().is_err() {
        return None;
    }
    let count = dev.write(bytes).ok();
    if dev.close(Exit::Succeeded).is_err() {
        return None;
    }
    count
}

/// Opens the device, reads once and closes it, as far as that goes.
fn read_once<V: Device>(dev: &mut V, buf: &mut [u8]) -> Option<usize>
    requires some { 0 < length buf.old }
    requires unused { ((V.told dev.old).opens ≡ 0) × ((V.told dev.old).is_open ≡ false) × ((V.told dev.old).open_faults ≡ 0) × ((V.told dev.old).read_faults ≡ 0) }
    requires mode { (V.told dev.old).place.mode ≡ mode.Read }
    ensures closed { (V.told dev.new).is_open ≡ false }
    ensures number { (V.told dev.new).number ≡ (V.told dev.old).number }
{
    if dev.open().is_err() {
        return None;
    }
    let count = dev.read(buf).ok();
    if dev.close(Exit::Canceled).is_err() {
        return None;
    }
    count
}

/// Opens the device and closes it, and tells whether both went well.
fn close_once<V: Device>(dev: &mut V) -> bool
    requires unused { ((V.told dev.old).opens ≡ 0) × ((V.told dev.old).is_open ≡ false) × ((V.told dev.old).open_faults ≡ 0) }
    ensures closed { (V.told dev.new).is_open ≡ false }
    ensures number { (V.told dev.new).number ≡ (V.told dev.old).number }
{
    if dev.open().is_err() {
        return false;
    }
    dev.close(Exit::Succeeded).is_ok()
}

fn write_at<D: Depot>(
    depot: &mut D,
    alloc: Global,
    path: &str,
    bytes: &[u8],
) -> Result<Option<usize>, AllocError>
    requires { 0 < length bytes.now }
{
    let mut dev = depot.make(alloc, &Word::of(alloc, path)?, Mode::Write)?;
    let count = write_once(&mut dev, bytes);
    depot.retire(dev);
    Ok(count)
}

fn read_at<D: Depot>(
    depot: &mut D,
    alloc: Global,
    path: &str,
    buf: &mut [u8],
) -> Result<Option<usize>, AllocError>
    requires { 0 < length buf.old }
{
    let mut dev = depot.make(alloc, &Word::of(alloc, path)?, Mode::Read)?;
    let count = read_once(&mut dev, buf);
    depot.retire(dev);
    Ok(count)
}

/// A path, what is done there, and how many bytes that moves, where it goes well.
type Moves = (&'static str, Mode, Option<usize>);

/// Fails the test unless one read, or one write of `hello`, at each path in turn moves as many bytes
/// as told.
fn moves<D: Depot>(
    rt: &impl Abort,
    alloc: Global,
    depot: &mut D,
    told: &[Moves],
) -> Result<(), AllocError> {
    let mut buf = [0u8; 8];
    for (path, mode, count) in told {
        let moved = match mode {
            Mode::Read => read_at(depot, alloc, path, &mut buf)?,
            Mode::Write => write_at(depot, alloc, path, b"hello")?,
        };
        same_at(rt, moved, *count, path);
    }
    Ok(())
}

fn close_at<D: Depot>(
    depot: &mut D,
    alloc: Global,
    path: &str,
    mode: Mode,
) -> Result<bool, AllocError> {
    let mut dev = depot.make(alloc, &Word::of(alloc, path)?, mode)?;
    let closed = close_once(&mut dev);
    depot.retire(dev);
    Ok(closed)
}

/// A depot with the file `a`, whose first close of the file `c` fails.
fn depot_of_one(alloc: Global) -> Result<MemDepot, AllocError> {
    let mut files = List::new(alloc);
    let (path, bytes) = (Word::of(alloc, "a")?, Line::copy_of(alloc, b"abc")?);
    files.push(FileOf { path, bytes })?;
    let mut fail = List::new(alloc);
    let (path, act) = (Word::of(alloc, "c")?, Act::Close);
    fail.push(Trip { path, act, nth: 1 })?;
    MemDepot::new(alloc, files, fail)
}

/// Fails the test unless the first two devices and the last one came back at these stages.
fn came_back(rt: &impl Abort, depot: &MemDepot) {
    let mut stages = depot.retired().iter().map(|record| record.stage);
    same(rt, stages.next(), Some(Stage::Closed(Exit::Canceled)));
    same(rt, stages.next(), Some(Stage::Unopened));
    same(rt, stages.last(), Some(Stage::ClosedBadly(Exit::Succeeded)));
}

#[test]
fn depot_stores_what_came_back(rt: HostRuntime) -> Result<(), Fail> {
    const MOVES: &[Moves] = &[
        ("a", Mode::Read, Some(3)),
        ("b", Mode::Read, None),
        ("b", Mode::Write, Some(5)),
        ("b", Mode::Read, Some(5)),
        ("c", Mode::Write, None),
    ];
    let mut depot = depot_of_one(rt.alloc())?;
    sends(&depot);
    moves(&rt, rt.alloc(), &mut depot, MOVES)?;
    same(&rt, depot.file("c"), Some(b"hello".as_slice()));
    same(&rt, depot.file("d"), None);
    same(&rt, depot.made().len(), 5);
    came_back(&rt, &depot);
    Ok(())
}
