//! An outside in memory, and one call over it.
ghost use Rattle.std.specs.Prelude.{◌≡◌, IfOk};
ghost use Rattle.device_port.specs.Memory.{sink_told};

use chunk_core::{Line, List, Word};
use device_port::{FileOf, MemDepot, MemSink, MemSource, OpenGate, Trip};
use flume_cli::flume;
use flume_cli::tail::tail_of;
use hostile_calls::Call;
use random_files::File;
use run_judge::Seen;
use std::alloc::{AllocError, Global};
use std::sync::Wait;
use std::thread::Threads;

fn words_of(alloc: Global, words: &[String]) -> Result<Vec<Word>, AllocError> {
    let mut list = Vec::new(alloc);
    for word in words {
        list.push(Word::of(alloc, word.as_str())?)?;
    }
    Ok(list)
}

/// The number as a list, or none where it is 0.
fn fails_of(alloc: Global, number: u32) -> Result<List<u32>, AllocError> {
    let mut list = List::new(alloc);
    if number != 0 {
        list.push(number)?;
    }
    Ok(list)
}

/// A sink, of which the write of this number fails.
fn sink_of(alloc: Global, number: u32) -> Result<MemSink, AllocError>
    ensures { IfOk result (λ s. (sink_told s).faults ≡ 0) }
{
    MemSink::new(alloc, fails_of(alloc, number)?)
}

fn files_of(alloc: Global, files: &[File]) -> Result<List<FileOf>, AllocError> {
    let mut list = List::new(alloc);
    for file in files {
        if let Some(content) = &file.content {
            let path = Word::of(alloc, file.path.as_str())?;
            let bytes = Line::copy_of(alloc, content)?;
            list.push(FileOf { path, bytes })?;
        }
    }
    Ok(list)
}

fn trips_of(alloc: Global, files: &[File]) -> Result<List<Trip>, AllocError> {
    let mut list = List::new(alloc);
    for file in files {
        if let Some((act, nth)) = file.trip {
            let path = Word::of(alloc, file.path.as_str())?;
            list.push(Trip { path, act, nth })?;
        }
    }
    Ok(list)
}

/// Makes the outside and calls the program once.
pub(crate) fn see<R: Threads + Wait + Sync>(
    rt: &R,
    alloc: Global,
    call: &Call,
) -> Result<Seen, AllocError> {
    let words = words_of(alloc, &call.words)?;
    let fails = fails_of(alloc, call.source_fails)?;
    let mut src = MemSource::new(alloc, &call.source, fails)?;
    let files = files_of(alloc, &call.files)?;
    let mut depot = MemDepot::new(alloc, files, trips_of(alloc, &call.files)?)?;
    let mut out = sink_of(alloc, call.out_fails)?;
    let mut err = sink_of(alloc, call.err_fails)?;
    let report = flume(
        rt, alloc, &words, &mut src, &mut depot, &mut out, &mut err, &OpenGate,
    );
    Ok(Seen {
        status: report.status.number(),
        tail: tail_of(alloc, &report.ends, &report.ledger)?,
        out,
        err,
        depot,
    })
}
