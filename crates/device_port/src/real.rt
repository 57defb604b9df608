//! Standard input, output and error.
ghost use Rattle.std.specs.Prelude.{◌≡◌, ◌+◌, ◌-◌, ◌^◌, ◌<◌, ◌≤◌, length, IfOk, OnOk, OnErr};
ghost use Rattle.std.specs.Io.KnownBytes.{ReadConsumes, WriteAppends};

use crate::{Failed, Sink, Source};
use std::fs::OpenFile;
use std::io::{ErrorKind, Read, Write};

/// One read that isn't interrupted.
pub(crate) fn read_some<R: Read>(reader: &mut R, buf: &mut [u8]) -> Result<usize, Failed>
    ensures count { IfOk result (λ n. n ≤ length buf.new) }
    ensures bytes { ReadConsumes (R.remaining reader.old) (R.remaining reader.new) result buf.new }
{
    for _ in 0..u64::MAX {
        match reader.read(buf) {
            Ok(count) => return Ok(count),
            Err(e) if e.kind() == ErrorKind::Interrupted => {}
            Err(_) => return Err(Failed),
        }
    }
    Err(Failed)
}

/// One write that isn't interrupted. It is a failure to take nothing.
pub(crate) fn write_some<W: Write>(writer: &mut W, bytes: &[u8]) -> Result<usize, Failed>
    ensures count { IfOk result (λ n. (1 ≤ n) × (n ≤ length bytes.now)) }
    ensures bytes { WriteAppends (W.contents writer.old) (W.contents writer.new) result bytes.now }
{
    for _ in 0..u64::MAX {
        match writer.write(bytes) {
            Ok(0) => break,
            Ok(count) => return Ok(count),
            Err(e) if e.kind() == ErrorKind::Interrupted => {}
            Err(_) => break,
        }
    }
    Err(Failed)
}

/// Waits until what was written is safe on its disk. A file that has none, as a pipe or a terminal,
/// isn't a failure.
pub(crate) fn sync_written<F: OpenFile>(file: &F) -> Result<(), Failed> {
    match file.sync_data() {
        Ok(()) => Ok(()),
        Err(e) => match e.kind() {
            ErrorKind::InvalidInput | ErrorKind::ReadOnlyFilesystem | ErrorKind::Unsupported => {
                Ok(())
            }
            _ => Err(Failed),
        },
    }
}

/// A real reader, such as standard input. Each read is one of the reader's own.
#[derive(Drop)]
pub struct StdSource<R> {
    reader: R,
    ended: bool,
    faults: u64,
}

impl<R: Read> StdSource<R> {
    ghost use Rattle.std.specs.Prelude.{None, false};

    pub fn new(reader: R) -> StdSource<R>
        ensures { ⟦<StdSource<R> as Source>⟧.told result ≡ record { left = None; ended = false; faults = 0 } }
    {
        StdSource {
            reader,
            ended: false,
            faults: 0,
        }
    }
}

impl<R: Read> Source for StdSource<R> {
    ghost use Rattle.std.specs.Prelude.{None, nat_eq};

    ghost told = { λ s. record { left = None; ended = s.ended; faults = s.faults } };

    fn read(&mut self, buf: &mut [u8]) -> Result<usize, Failed>
        requires some { 0 < length buf.old }
        requires room { self.old.faults < 2 ^ 64 - 1 }
        ensures count { IfOk result (λ n. n ≤ length buf.new) }
        ensures ok { IfOk result (λ n. (self.new.faults ≡ self.old.faults) × (self.new.ended ≡ nat_eq n 0)) }
        ensures failed { OnErr result ((self.new.faults ≡ self.old.faults + 1) × (self.new.ended ≡ self.old.ended)) }
        ensures read { ReadConsumes (R.remaining self.old.reader) (R.remaining self.new.reader) result buf.new }
    {
        let count = read_some(&mut self.reader, buf);
        match count {
            Ok(count) => self.ended = count == 0,
            Err(_) => self.faults += 1,
        }
        count
    }
}

/// A real writer, such as standard output. Each write is one of the writer's own, so that a
/// failure is told by the write that met it.
#[derive(Drop)]
pub struct StdSink<W> {
    writer: W,
    faults: u64,
}

impl<W: Write> StdSink<W> {
    ghost use Rattle.std.specs.Prelude.{None};

    pub fn new(writer: W) -> StdSink<W>
        ensures { ⟦<StdSink<W> as Sink>⟧.told result ≡ record { written = None; faults = 0 } }
    {
        StdSink { writer, faults: 0 }
    }
}

impl<W: Write> Sink for StdSink<W> {
    ghost use Rattle.std.specs.Prelude.{None};

    ghost told = { λ s. record { written = None; faults = s.faults } };

    fn write(&mut self, bytes: &[u8]) -> Result<usize, Failed>
        requires some { 0 < length bytes.now }
        requires room { self.old.faults < 2 ^ 64 - 1 }
        ensures count { IfOk result (λ n. (1 ≤ n) × (n ≤ length bytes.now)) }
        ensures ok { OnOk result (self.new.faults ≡ self.old.faults) }
        ensures failed { OnErr result (self.new.faults ≡ self.old.faults + 1) }
        ensures written { WriteAppends (W.contents self.old.writer) (W.contents self.new.writer) result bytes.now }
    {
        let count = write_some(&mut self.writer, bytes);
        if count.is_err() {
            self.faults += 1;
        }
        count
    }
}
