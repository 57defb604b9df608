//! The program: hands the real outside to the top call, and ends with its status.
#![tactic(auto)]

use chunk_core::Word;
use device_port::{FileDepot, OpenGate, StdSink, StdSource, put};
use flume_cli::{Status, flume};
use guarded_files::{Guard, GuardedFiles};
use std::fs::File;
use std::process::ExitCode;
use std::sync::Wait;
use std::thread::Threads;
use std::{env, fs, io};

fn main(rt: HostRuntime) -> ExitCode {
    let Ok(streams) = hold_streams(&rt) else {
        return ExitCode::from(Status::NotWritten.number());
    };
    let status = match read_words(&rt) {
        Ok(words) => run(rt, &rt, &words),
        Err(status) => refuse(&rt, status),
    };
    drop(streams);
    ExitCode::from(status.number())
}

/// Opens the root folder three times, and so fills each standard stream that was closed when the
/// program began: no device can get its descriptor, and a read from it or a write to it fails.
fn hold_streams(rt: &HostRuntime) -> io::Result<[File; 3]> {
    Ok([fs::open(rt, "/")?, fs::open(rt, "/")?, fs::open(rt, "/")?])
}

/// The words behind the program's name. Words that are not UTF-8 mean nothing.
fn read_words(rt: &HostRuntime) -> Result<Vec<Word>, Status> {
    let mut words = Vec::new(rt.alloc());
    let args = env::args(rt).map_err(|error| status_of(&error))?;
    for arg in args.skip(1) {
        let word = Word::of(rt.alloc(), arg.as_str()).map_err(|_| Status::Memory)?;
        words.push(word).map_err(|_| Status::Memory)?;
    }
    Ok(words)
}

fn status_of(error: &io::Error) -> Status {
    match error.kind() {
        io::ErrorKind::OutOfMemory => Status::Memory,
        _ => Status::BadWords,
    }
}

/// The file that failed calls are told to, where the variable `FLUME_LOG` names one. What can't be its path names none.
fn read_log(rt: &HostRuntime) -> Option<Word> {
    let path = env::var(rt, "FLUME_LOG").ok()?;
    match path.is_empty() {
        true => None,
        false => Word::of(rt.alloc(), path.as_str()).ok(),
    }
}

/// Makes the outside and does what the words say.
fn run<R: Threads + Wait + Sync>(rt: HostRuntime, workers: &R, words: &[Word]) -> Status {
    let alloc = rt.alloc();
    let guard = Guard::new(&rt, alloc, read_log(&rt));
    let mut src = StdSource::new(rt.stdin());
    let mut depot = FileDepot::new(GuardedFiles::new(rt, &guard));
    let mut out = StdSink::new(rt.stdout());
    let mut err = StdSink::new(rt.stderr());
    let report = flume(
        workers, alloc, words, &mut src, &mut depot, &mut out, &mut err, &OpenGate,
    );
    report.status
}

/// Tells standard error the line of the status.
fn refuse(rt: &HostRuntime, status: Status) -> Status {
    let _ = put(
        &mut StdSink::new(rt.stderr()),
        status.line().as_str().as_bytes(),
    );
    status
}
