//! A real file as a device.
ghost use Rattle.std.specs.Prelude.{◌≡◌, ◌+◌, ◌-◌, ◌^◌, ◌<◌, ◌≤◌, true, length, IfOk, OnOk, OnErr};
ghost use Rattle.std.specs.Io.KnownBytes.{ReadConsumes, WriteAppends};
ghost use Rattle.device_port.specs.Device.{moved};
ghost use Rattle.device_port.specs.Real.{file_told, bytes_in};

use crate::real::{read_some, sync_written, write_some};
use crate::{Device, Failed, Mode};
use chunk_core::{Exit, Word};
use std::fs::{File, OpenFile};
use std::io::{Read, Write};
use std::rt::Files;

/// The file of a device while it is open, and else how far the device has come.
#[derive(Drop)]
enum FileState<F> {
    Unopened,
    Open(F),
    Closed(Exit),
    /// It was closed, and what was written may be lost.
    ClosedBadly(Exit),
}

/// A real file. It is made by a `FileDepot`.
#[derive(Drop)]
pub struct FileDevice<R, F> {
    rt: R,
    number: u64,
    path: Word,
    mode: Mode,
    held: FileState<F>,
    at: u64,
    ended: bool,
    open_faults: u64,
    read_faults: u64,
    write_faults: u64,
}

impl<R, F> FileDevice<R, F> {
    ghost use Rattle.std.specs.Prelude.{None, false};

    /// A device that was never opened.
    pub(crate) fn new(rt: R, number: u64, path: Word, mode: Mode) -> FileDevice<R, F>
        ensures { file_told result ≡ record { number = number; place = record { path = path; mode = mode }; present = None; content = None; at = 0; ended = false; written = None; is_open = false; opens = 0; closes = 0; exit = None; open_faults = 0; read_faults = 0; write_faults = 0; close_faults = 0 } }
    {
        FileDevice {
            rt,
            number,
            path,
            mode,
            held: FileState::Unopened,
            at: 0,
            ended: false,
            open_faults: 0,
            read_faults: 0,
            write_faults: 0,
        }
    }
}

impl<R, F> Device for FileDevice<R, F>
where
    R: Files<File = F>,
    F: Read + Write + OpenFile + Drop,
{
    ghost use Rattle.device_port.specs.Real.{file_told, stage_of};
    ghost use Rattle.device_port.specs.Stage.{open_once_at, no_exit_at, no_open_untold};

    ghost told = { file_told };

    ghost open_once = { λ d. open_once_at (stage_of d.held) };

    ghost no_exit = { λ d. no_exit_at (stage_of d.held) };

    ghost within = { λ d. tt };

    ghost no_open = { λ d. no_open_untold d.mode (stage_of d.held) };

    fn number(&self) -> u64 {
        self.number
    }

    fn is_open(&self) -> bool {
        matches!(self.held, FileState::Open(_))
    }

    /// For writing, the file is created, or emptied where it is there.
    fn open(&mut self) -> Result<(), Failed> {
        let path = self.path.as_str();
        let opened = match self.mode {
            Mode::Read => File::open(&self.rt, path),
            Mode::Write => File::create(&self.rt, path),
        };
        match opened {
            Ok(file) => {
                self.held = FileState::Open(file);
                Ok(())
            }
            Err(_) => {
                self.open_faults += 1;
                Err(Failed)
            }
        }
    }

    /// A read that could pass 2^64 bytes fails.
    fn read(&mut self, buf: &mut [u8]) -> Result<usize, Failed>
        requires open { (file_told self.old).is_open ≡ true }
        requires room { self.old.read_faults < 2 ^ 64 - 1 }
        ensures count { IfOk result (λ n. n ≤ length buf.new) }
        ensures ok { IfOk result (λ n. file_told self.new ≡ moved n (file_told self.old)) }
        ensures failed { OnErr result (file_told self.new ≡ record (file_told self.old) { read_faults = self.old.read_faults + 1 }) }
        ensures read { ReadConsumes (bytes_in F.remaining self.old.held) (bytes_in F.remaining self.new.held) result buf.new }
    {
        let FileState::Open(file) = &mut self.held else {
            unreachable!()
        };
        let count = if buf.len() as u64 <= u64::MAX - self.at {
            read_some(file, buf)
        } else {
            Err(Failed)
        };
        match count {
            Ok(count) => {
                self.at += count as u64;
                self.ended = count == 0;
            }
            Err(_) => self.read_faults += 1,
        }
        count
    }

    fn write(&mut self, bytes: &[u8]) -> Result<usize, Failed>
        requires some { 0 < length bytes.now }
        requires open { (file_told self.old).is_open ≡ true }
        requires room { self.old.write_faults < 2 ^ 64 - 1 }
        ensures count { IfOk result (λ n. (1 ≤ n) × (n ≤ length bytes.now)) }
        ensures ok { OnOk result (file_told self.new ≡ file_told self.old) }
        ensures failed { OnErr result (file_told self.new ≡ record (file_told self.old) { write_faults = self.old.write_faults + 1 }) }
        ensures written { WriteAppends (bytes_in F.contents self.old.held) (bytes_in F.contents self.new.held) result bytes.now }
    {
        let FileState::Open(file) = &mut self.held else {
            unreachable!()
        };
        let count = write_some(file, bytes);
        if count.is_err() {
            self.write_faults += 1;
        }
        count
    }

    /// What was written is made safe before the file is closed, so that a lost write is a failed
    /// close. Closing itself is done by dropping, which tells no error.
    fn close(&mut self, exit: Exit) -> Result<(), Failed> {
        let FileState::Open(file) = std::mem::replace(&mut self.held, FileState::Closed(exit))
        else {
            unreachable!()
        };
        if self.mode == Mode::Write && sync_written(&file).is_err() {
            self.held = FileState::ClosedBadly(exit);
            return Err(Failed);
        }
        Ok(())
    }
}
