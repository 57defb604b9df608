//! A depot in memory, with a file of which a read fails.
use chunk_core::{Exit, Line, List, Word};
use device_port::{Act, Depot, Device, Failed, FileOf, MemDepot, Mode, Stage, Trip};
use std::alloc::{AllocError, Global};
use std::test::Fail;

/// A depot with the file `a`, whose second read fails.
fn depot_of_one(alloc: Global) -> Result<MemDepot, AllocError> {
    let mut files = List::new(alloc);
    let (path, bytes) = (Word::of(alloc, "a")?, Line::copy_of(alloc, b"hello")?);
    files.push(FileOf { path, bytes })?;
    let mut fail = List::new(alloc);
    let (path, act) = (Word::of(alloc, "a")?, Act::Read);
    fail.push(Trip { path, act, nth: 2 })?;
    MemDepot::new(alloc, files, fail)
}

#[test]
fn a_file_in_memory_fails_at_its_second_read(rt: HostRuntime) -> Result<(), Fail> {
    let alloc = rt.alloc();
    let mut depot = depot_of_one(alloc)?;
    let mut device = depot.make(alloc, &Word::of(alloc, "a")?, Mode::Read)?;
    let mut buf = [0u8; 4];
    assert_eq!(rt; device.open(), Ok(()));
    assert_eq!(rt; device.read(&mut buf), Ok(4));
    assert_eq!(rt; buf.as_slice(), b"hell".as_slice());
    assert_eq!(rt; device.read(&mut buf), Err(Failed));
    assert_eq!(rt; device.close(Exit::Errored), Ok(()));
    depot.retire(device);
    for record in depot.retired() {
        assert_eq!(rt; record.stage, Stage::Closed(Exit::Errored));
        assert_eq!(rt; (record.read_faults, record.closes()), (1, 1));
    }
    Ok(())
}
