//! The program: reads a ledger and writes its picture to standard output.
#![tactic(auto)]

mod picture;

use chunk_core::Line;
use device_port::{Failed, StdSink, StdSource, put};
use ledger_text::{LedgerRefused, read};
use picture::picture_of;
use source_input::{NotRead, read_source};
use std::process::ExitCode;
use std::{env, fs, io};

/// The most bytes that the text may have; one more is read, which tells a longer one.
const MOST: usize = 4_194_304;

fn main(rt: HostRuntime) -> io::Result<ExitCode> {
    let words = env::args(&rt)?;
    if words.len() > 2 {
        return fail(&rt, 2, "usage: ledger_chart [LEDGER] >PICTURE");
    }
    let text = match read_text(&rt, words.skip(1).next()) {
        Ok(text) => text,
        Err(NotRead::Failed) => return fail(&rt, 6, "cannot read the ledger"),
        Err(NotRead::Memory) => return fail(&rt, 5, "out of memory"),
    };
    if text.as_slice().len() > MOST {
        return fail(&rt, 3, "ledger refused size");
    }
    let ledger = match read(rt.alloc(), text.as_slice()) {
        Ok(ledger) => ledger,
        Err(LedgerRefused::BadLine(line)) => {
            eprintln!(rt; "ledger_chart: ledger refused line {line}")?;
            return Ok(ExitCode::from(3));
        }
        Err(LedgerRefused::BadCount(said, found)) => {
            eprintln!(rt; "ledger_chart: ledger refused count {said} {found}")?;
            return Ok(ExitCode::from(3));
        }
        Err(LedgerRefused::Memory) => return fail(&rt, 5, "out of memory"),
    };
    let Ok(picture) = picture_of(rt.alloc(), &ledger) else {
        return fail(&rt, 5, "out of memory");
    };
    let mut out = StdSink::new(rt.stdout());
    match put(&mut out, picture.as_str().as_bytes()) {
        Ok(()) => Ok(ExitCode::SUCCESS),
        Err(Failed) => fail(&rt, 4, "a write failed"),
    }
}

/// The text of a file, or of standard input.
fn read_text(rt: &HostRuntime, path: Option<String>) -> Result<Line, NotRead> {
    let Some(path) = path else {
        return read_source(rt.alloc(), &mut StdSource::new(rt.stdin()), MOST + 1);
    };
    match fs::open(rt, path.as_str()) {
        Ok(file) => read_source(rt.alloc(), &mut StdSource::new(file), MOST + 1),
        Err(_) => Err(NotRead::Failed),
    }
}

fn fail(rt: &HostRuntime, status: u8, why: &str) -> io::Result<ExitCode> {
    eprintln!(rt; "ledger_chart: {why}")?;
    Ok(ExitCode::from(status))
}
