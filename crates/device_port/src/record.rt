//! What a device has come to.
ghost use Rattle.std.specs.Prelude.{◌≡◌, ◌≤◌};
ghost use Rattle.device_port.specs.Stage.{times_opened, times_closed, exit_at, close_faults_of, is_open_at};

use crate::Mode;
use chunk_core::{Exit, Word};

/// How far a device has come.
#[derive(Clone, Copy, Debug, PartialEq, Eq)]
pub enum Stage {
    Unopened,
    Open,
    Closed(Exit),
    /// It was closed, and the close failed.
    ClosedBadly(Exit),
}

impl Stage {
    pub fn is_open(self) -> bool
        ensures { result ≡ is_open_at self }
    {
        match self {
            Stage::Open => true,
            _ => false,
        }
    }

    /// How often the device was opened.
    pub fn opens(self) -> u64
        ensures { result ≡ times_opened self }
    {
        match self {
            Stage::Unopened => 0,
            _ => 1,
        }
    }

    /// How often the device was closed.
    pub fn closes(self) -> u64
        ensures { result ≡ times_closed self }
    {
        match self {
            Stage::Unopened | Stage::Open => 0,
            _ => 1,
        }
    }

    /// How what used the device ended, where it was closed.
    pub fn exit(self) -> Option<Exit>
        ensures { result ≡ exit_at self }
    {
        match self {
            Stage::Unopened | Stage::Open => None,
            Stage::Closed(exit) | Stage::ClosedBadly(exit) => Some(exit),
        }
    }

    /// How often closing it failed.
    pub fn close_faults(self) -> u64
        ensures { result ≡ close_faults_of self }
    {
        match self {
            Stage::ClosedBadly(_) => 1,
            _ => 0,
        }
    }
}

/// All that a memory device tells.
#[derive(Drop)]
pub struct Record {
    pub number: u64,
    pub path: Word,
    pub mode: Mode,
    /// Whether the path was there when the device was made.
    pub present: bool,
    /// The bytes of the path when the device was made.
    pub content: Vec<u8>,
    /// How many bytes of the content were read.
    pub at: usize,
    /// Whether the last read that didn't fail gave nothing.
    pub ended: bool,
    pub written: Vec<u8>,
    pub stage: Stage,
    pub open_faults: u64,
    pub read_faults: u64,
    pub write_faults: u64,
    /// How often a write failed since there was no memory for its bytes.
    pub starved: u64,
    ghost few: { starved ≤ write_faults },
}

impl Record {
    ghost use Rattle.device_port.specs.Files.{wrote};
    ghost use Rattle.device_port.specs.Records.{record_told};

    /// How often the device was opened.
    pub fn opens(&self) -> u64
        ensures { result ≡ (record_told self.now).opens }
    {
        self.stage.opens()
    }

    /// How often the device was closed.
    pub fn closes(&self) -> u64
        ensures { result ≡ (record_told self.now).closes }
    {
        self.stage.closes()
    }

    /// How what used the device ended, where it was closed.
    pub fn exit(&self) -> Option<Exit>
        ensures { result ≡ (record_told self.now).exit }
    {
        self.stage.exit()
    }

    /// How often closing the device failed.
    pub fn close_faults(&self) -> u64
        ensures { result ≡ (record_told self.now).close_faults }
    {
        self.stage.close_faults()
    }

    /// Whether the device was opened for writing at this path.
    pub fn wrote(&self, path: &str) -> bool
        ensures { result ≡ wrote path.now self.now }
    {
        self.mode == Mode::Write && self.stage.opens() == 1 && self.path.as_str() == path
    }
}
