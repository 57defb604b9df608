//! An outside in memory, and one call over it.
ghost use Rattle.std.specs.Prelude.{◌≡◌, ◌-◌, ◌^◌, ◌<◌, IfOk};
ghost use Rattle.device_port.specs.Memory.{sink_told};

use chunk_core::{Exit, How, Line, List, Word};
use device_port::{Act, Depot, FileOf, Gate, MemDepot, MemSink, MemSource, OpenGate, Source, Trip};
use flume_cli::{Report, Status, flume};
use res_ledger::{Event, StreamNo, What};
use run_rules::EndOf;
use std::alloc::{AllocError, Global};
use std::sync::Wait;
use std::thread::Threads;

/// What is asked of the program, over a file with the path `a` and others.
#[derive(Clone, Copy, Debug)]
pub struct Case<'a> {
    pub words: &'a [&'a str],
    /// What standard input gives.
    pub source: &'a [u8],
    /// The numbers, from 1, of the reads of standard input that fail.
    pub source_fails: &'a [u32],
    pub file: &'a [u8],
    /// The other files, by path.
    pub others: &'a [(&'a str, &'a [u8])],
    /// The calls on the file `a` that fail.
    pub trips: &'a [(Act, u32)],
    /// The calls on files of other paths that fail.
    pub other_trips: &'a [(&'a str, Act, u32)],
    /// The numbers, from 1, of the writes to the output that fail.
    pub out_fails: &'a [u32],
    /// The numbers, from 1, of the writes to standard error that fail.
    pub err_fails: &'a [u32],
}

/// `cat a`, of which nothing fails.
pub fn cat_of(file: &[u8]) -> Case<'_> {
    Case {
        words: &["cat", "a"],
        source: b"not read",
        source_fails: &[],
        file,
        others: &[],
        trips: &[],
        other_trips: &[],
        out_fails: &[],
        err_fails: &[],
    }
}

/// `run` of a description, of which nothing fails.
pub fn run_of<'a>(description: &'a str, file: &'a [u8]) -> Case<'a> {
    Case {
        words: &["run"],
        source: description.as_bytes(),
        ..cat_of(file)
    }
}

/// What a call left behind.
#[derive(Drop)]
pub struct Aftermath {
    pub report: Report,
    pub depot: MemDepot,
    pub out: MemSink,
    pub err: MemSink,
}

fn words_of(alloc: Global, words: &[&str]) -> Result<Vec<Word>, AllocError> {
    let mut list = Vec::new(alloc);
    for word in words {
        list.push(Word::of(alloc, word)?)?;
    }
    Ok(list)
}

fn numbers_of(alloc: Global, numbers: &[u32]) -> Result<List<u32>, AllocError> {
    let mut list = List::new(alloc);
    for number in numbers {
        list.push(*number)?;
    }
    Ok(list)
}

fn file_of(alloc: Global, path: &str, bytes: &[u8]) -> Result<FileOf, AllocError> {
    Ok(FileOf {
        path: Word::of(alloc, path)?,
        bytes: Line::copy_of(alloc, bytes)?,
    })
}

fn files_of(alloc: Global, case: &Case) -> Result<List<FileOf>, AllocError> {
    let mut files = List::new(alloc);
    files.push(file_of(alloc, "a", case.file)?)?;
    for (path, bytes) in case.others {
        files.push(file_of(alloc, path, bytes)?)?;
    }
    Ok(files)
}

fn trip_of(alloc: Global, path: &str, act: Act, nth: u32) -> Result<Trip, AllocError> {
    Ok(Trip {
        path: Word::of(alloc, path)?,
        act,
        nth,
    })
}

fn add_trips(
    alloc: Global,
    trips: &mut List<Trip>,
    path: &str,
    calls: &[(Act, u32)],
) -> Result<(), AllocError> {
    for (act, nth) in calls {
        trips.push(trip_of(alloc, path, *act, *nth)?)?;
    }
    Ok(())
}

fn trips_of(alloc: Global, case: &Case) -> Result<List<Trip>, AllocError> {
    let mut trips = List::new(alloc);
    add_trips(alloc, &mut trips, "a", case.trips)?;
    for (path, act, nth) in case.other_trips {
        trips.push(trip_of(alloc, path, *act, *nth)?)?;
    }
    Ok(trips)
}

pub fn depot_of(alloc: Global, case: &Case) -> Result<MemDepot, AllocError> {
    MemDepot::new(alloc, files_of(alloc, case)?, trips_of(alloc, case)?)
}

pub fn sink_of(alloc: Global, fails: &[u32]) -> Result<MemSink, AllocError>
    ensures { IfOk result (λ s. (sink_told s).faults ≡ 0) }
{
    MemSink::new(alloc, numbers_of(alloc, fails)?)
}

/// Makes the outside and calls the top call once.
pub fn run<R: Threads + Wait + Sync>(
    rt: &R,
    alloc: Global,
    case: &Case,
) -> Result<Aftermath, AllocError> {
    let fails = numbers_of(alloc, case.source_fails)?;
    let mut src = MemSource::new(alloc, case.source, fails)?;
    run_from(rt, alloc, &mut src, case)
}

/// Makes the rest of the outside, and calls the top call once with this source.
pub fn run_from<R: Threads + Wait + Sync, S: Source>(
    rt: &R,
    alloc: Global,
    src: &mut S,
    case: &Case,
) -> Result<Aftermath, AllocError>
    requires { (S.told src.old).faults < 2 ^ 64 - 1 }
{
    let words = words_of(alloc, case.words)?;
    let mut depot = depot_of(alloc, case)?;
    let mut out = sink_of(alloc, case.out_fails)?;
    let mut err = sink_of(alloc, case.err_fails)?;
    let report = flume(
        rt, alloc, &words, src, &mut depot, &mut out, &mut err, &OpenGate,
    );
    Ok(Aftermath {
        report,
        depot,
        out,
        err,
    })
}

/// What a call printed and reported.
#[derive(Drop)]
pub struct Printed {
    pub report: Report,
    pub out: MemSink,
    pub err: MemSink,
}

/// Makes the rest of the outside, and calls the top call once over this depot, with this gate.
pub fn call_over<R: Threads + Wait + Sync, D: Depot, G: Gate + Sync>(
    rt: &R,
    alloc: Global,
    case: &Case,
    depot: &mut D,
    gate: &G,
) -> Result<Printed, AllocError>
where
    D::Dev: Send,
{
    let words = words_of(alloc, case.words)?;
    let fails = numbers_of(alloc, case.source_fails)?;
    let mut src = MemSource::new(alloc, case.source, fails)?;
    let mut out = sink_of(alloc, case.out_fails)?;
    let mut err = sink_of(alloc, case.err_fails)?;
    let report = flume(rt, alloc, &words, &mut src, depot, &mut out, &mut err, gate);
    Ok(Printed { report, out, err })
}

impl Aftermath {
    /// Whether nothing was done: no device was made, nothing printed, and standard error was told
    /// this.
    pub fn is_idle(&self, status: Status, line: &str) -> bool {
        self.report.status == status
            && self.err.written() == line.as_bytes()
            && self.out.written().is_empty()
            && self.depot.made().is_empty()
            && self.report.ends.is_empty()
            && self.report.ledger.is_empty()
    }

    /// Whether the call ended with this status and printed this, and nothing stands on standard
    /// error.
    pub fn printed(&self, status: Status, out: &[u8]) -> bool {
        self.report.status == status && self.out.written() == out && self.err.written().is_empty()
    }

    /// Whether one device was made, and it came back: opened once and closed once with this exit,
    /// or never opened.
    pub fn device_came_back(&self, exit: Option<Exit>) -> bool {
        let times = u64::from(exit.is_some());
        match self.depot.retired() {
            [record] => {
                self.depot.made().len() == 1
                    && record.opens() == times
                    && record.closes() == times
                    && record.exit() == exit
            }
            _ => false,
        }
    }

    /// Whether the report has one end, that of stream 0, which ended so.
    pub fn ended(&self, how: How) -> bool {
        let end = EndOf {
            who: StreamNo::Inner(0),
            how,
        };
        self.report.ends.as_slice() == [end].as_slice()
    }

    /// Whether the ledger is that of a run that opened its file and ended so.
    pub fn has_one_row(&self, exit: Exit, ok: bool) -> bool {
        let acquired = event(0, What::Acquire { row: 0, scope: 0 });
        let closed = event(1, What::Close { scope: 0, exit });
        let finalized = event(2, What::Final { row: 0, exit, ok });
        self.report.ledger.as_slice() == [acquired, closed, finalized].as_slice()
    }
}

pub fn event(stamp: u64, what: What) -> Event {
    Event {
        stamp,
        by: StreamNo::Inner(0),
        what,
    }
}

/// Each text in order, followed by so many bytes `x` as stand beside it.
pub fn filled(alloc: Global, parts: &[(&str, usize)]) -> Result<Vec<u8>, AllocError> {
    let mut bytes = Vec::new(alloc);
    for (text, count) in parts {
        bytes.extend_from_slice(text.as_bytes())?;
        bytes.extend_from_slice(&vec![in alloc; b'x'; *count]?)?;
    }
    Ok(bytes)
}
