//! The program: cuts what `flume` printed apart, and ends with a status of how that went.
#![tactic(auto)]

use cut_text::{CutEnd, TailEnd, cut};
use device_port::{StdSink, StdSource};
use std::fs::File;
use std::process::ExitCode;
use std::{env, fs, io};

const USAGE: &str = "usage: flume_cut [--quiet] [--ledger FILE] [STREAM] <PRINTED";

/// What the words ask for.
#[derive(Drop)]
struct Asked {
    help: bool,
    quiet: bool,
    stream: Option<u64>,
    ledger: Option<String>,
}

fn main(rt: HostRuntime) -> io::Result<ExitCode> {
    let Some(asked) = read_words(&rt)? else {
        eprintln!(rt; "{USAGE}")?;
        return Ok(ExitCode::from(2));
    };
    let Asked {
        help,
        quiet,
        stream,
        ledger,
    } = asked;
    if help {
        println!(rt; "{USAGE}")?;
        return Ok(ExitCode::SUCCESS);
    }
    let alloc = rt.alloc();
    let mut src = StdSource::new(rt.stdin());
    let mut out = StdSink::new(rt.stdout());
    let end = match ledger {
        Some(path) => {
            let mut told = StdSink::new(fs::create(&rt, path.as_str())?);
            cut(alloc, stream, &mut src, &mut out, &mut told)
        }
        None => {
            let mut told = StdSink::new(rt.stderr());
            cut(alloc, stream, &mut src, &mut out, &mut told)
        }
    };
    if !quiet {
        tell(&rt, end)?;
    }
    Ok(ExitCode::from(status_of(end)))
}

/// What the words behind the program's name ask for, or `None` where they mean nothing.
fn read_words(rt: &HostRuntime) -> io::Result<Option<Asked>> {
    let mut asked = Asked {
        help: false,
        quiet: false,
        stream: None,
        ledger: None,
    };
    let mut wants_path = false;
    for word in env::args(rt)?.skip(1) {
        if wants_path {
            asked.ledger = Some(word);
            wants_path = false;
        } else if word.as_str() == "--help" {
            asked.help = true;
        } else if word.as_str() == "--quiet" {
            asked.quiet = true;
        } else if word.as_str() == "--ledger" && asked.ledger.is_none() {
            wants_path = true;
        } else if let (None, Ok(stream)) = (asked.stream, word.as_str().parse::<u64>()) {
            asked.stream = Some(stream);
        } else {
            return Ok(None);
        }
    }
    Ok(if wants_path { None } else { Some(asked) })
}

/// The status: 0 where all was there, 1 where it was cut, 3 where it is no output of `flume`, 4 where a
/// write failed, 5 at want of memory, and 6 where a read failed.
fn status_of(end: CutEnd) -> u8 {
    match end {
        CutEnd::Tail(TailEnd::Whole) => 0,
        CutEnd::Tail(TailEnd::Cut) | CutEnd::CutFrame => 1,
        CutEnd::BadByte(_) => 3,
        CutEnd::Tail(TailEnd::BadLine(_) | TailEnd::BadCount(_, _)) => 3,
        CutEnd::NotWritten | CutEnd::NotTold => 4,
        CutEnd::Memory | CutEnd::Tail(TailEnd::Memory) => 5,
        CutEnd::Unread | CutEnd::TooLong => 6,
    }
}

/// Tells what kept the text from being cut apart whole, if anything did.
fn tell(rt: &HostRuntime, end: CutEnd) -> io::Result<()> {
    match end {
        CutEnd::Tail(TailEnd::Whole) => Ok(()),
        CutEnd::Tail(TailEnd::Cut) | CutEnd::CutFrame => eprintln!(rt; "flume_cut: cut"),
        CutEnd::BadByte(at) => eprintln!(rt; "flume_cut: no frame goes on at byte {at}"),
        CutEnd::Tail(TailEnd::BadLine(line)) => {
            eprintln!(rt; "flume_cut: line {line} behind the ends is no ledger's")
        }
        CutEnd::Tail(TailEnd::BadCount(said, found)) => {
            eprintln!(rt; "flume_cut: the ledger says {said} events and has {found}")
        }
        CutEnd::NotWritten | CutEnd::NotTold => eprintln!(rt; "flume_cut: a write failed"),
        CutEnd::Memory | CutEnd::Tail(TailEnd::Memory) => {
            eprintln!(rt; "flume_cut: memory was wanting")
        }
        CutEnd::Unread => eprintln!(rt; "flume_cut: a read failed"),
        CutEnd::TooLong => eprintln!(rt; "flume_cut: there is no end"),
    }
}
