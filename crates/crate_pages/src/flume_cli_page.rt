//! The top call over an outside in memory.
use chunk_core::{Line, List, Word};
use device_port::{FileOf, MemDepot, MemSink, MemSource, OpenGate};
use flume_cli::{Status, flume};
use std::test::Fail;

#[test]
fn a_file_is_printed_with_its_end_and_ledger(rt: HostRuntime) -> Result<(), Fail> {
    let alloc = rt.alloc();
    let words = vec![in alloc; Word::of(alloc, "cat")?, Word::of(alloc, "a")?]?;
    let mut files = List::new(alloc);
    let (path, bytes) = (Word::of(alloc, "a")?, Line::copy_of(alloc, b"hello\n")?);
    files.push(FileOf { path, bytes })?;
    let mut depot = MemDepot::new(alloc, files, List::new(alloc))?;
    let mut src = MemSource::new(alloc, b"", List::new(alloc))?;
    let mut out = MemSink::new(alloc, List::new(alloc))?;
    let mut err = MemSink::new(alloc, List::new(alloc))?;

    let report = flume(
        &rt, alloc, &words, &mut src, &mut depot, &mut out, &mut err, &OpenGate,
    );
    assert_eq!(rt; report.status, Status::Good);
    let text = b"0 6\nhello\n\nend 0 done\nledger 3\n\
        0 acquire 0 0\n0 close 0 succeeded\n0 final 0 succeeded ok\n";
    assert_eq!(rt; out.written(), text.as_slice());
    assert_eq!(rt; err.written(), b"".as_slice());
    Ok(())
}
