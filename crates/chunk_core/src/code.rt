//! Why a stream ended, what a finalizer is told of it, and spans of rows.
ghost use Rattle.std.specs.Prelude.{◌≡◌};
ghost use Rattle.chunk_core.specs.Outcomes.{exit_of};

use std::fmt;

/// What went wrong in a stream.
#[derive(Clone, Copy, Debug, PartialEq, Eq)]
pub enum Code {
    /// A device could not be opened.
    Open,
    /// A device could not be read.
    Read,
    /// A device could not be written.
    Write,
    /// A device gave 2^40 bytes and was to be read again.
    Endless,
    /// Bytes that no continuation can make UTF-8.
    Malformed,
    /// The input ended within a UTF-8 sequence.
    Truncated,
    /// A line of more than 1,048,576 bytes.
    LongLine,
    /// A record with another number of fields than the first.
    Uneven,
    /// Records that are not UTF-8.
    NotUtf8,
    /// A row without the field that was asked for.
    NoField,
    /// More input than a step or a table takes.
    TooLarge,
    /// A line of a list of paths that can't be the path of a stream.
    BadPath,
    /// More lines of a list, or more files of a rotated output, than there may be.
    TooMany,
    /// A fault that a node raises by itself.
    Raised(u16),
}

impl fmt::Display for Code {
    ghost use Rattle.std.specs.Prelude.{Some};
    ghost use Rattle.chunk_core.specs.Texts.{code_text};

    ghost output = { λ c. Some (code_text c) };

    fn fmt<W: fmt::Write>(&self, f: &mut fmt::Formatter<W>) -> fmt::Result {
        match *self {
            Code::Open => f.write_str("open"),
            Code::Read => f.write_str("read"),
            Code::Write => f.write_str("write"),
            Code::Endless => f.write_str("endless"),
            Code::Malformed => f.write_str("malformed"),
            Code::Truncated => f.write_str("truncated"),
            Code::LongLine => f.write_str("longline"),
            Code::Uneven => f.write_str("uneven"),
            Code::NotUtf8 => f.write_str("notutf8"),
            Code::NoField => f.write_str("nofield"),
            Code::TooLarge => f.write_str("toolarge"),
            Code::BadPath => f.write_str("badpath"),
            Code::TooMany => f.write_str("toomany"),
            Code::Raised(c) => write!(f, "raised {c}"),
        }
    }
}

/// How a stream ended.
#[derive(Clone, Copy, Debug, PartialEq, Eq)]
pub enum How {
    /// Its whole output was printed or written.
    Done,
    /// It was stopped from outside.
    Halted,
    /// It failed.
    Fault(Code),
    /// Memory was wanting.
    Memory,
}

impl fmt::Display for How {
    ghost use Rattle.std.specs.Prelude.{Some};
    ghost use Rattle.chunk_core.specs.Texts.{how_text};

    ghost output = { λ how. Some (how_text how) };

    fn fmt<W: fmt::Write>(&self, f: &mut fmt::Formatter<W>) -> fmt::Result {
        match *self {
            How::Done => f.write_str("done"),
            How::Halted => f.write_str("halted"),
            How::Fault(c) => write!(f, "fault {c}"),
            How::Memory => f.write_str("memory"),
        }
    }
}

impl How {
    /// What the finalizers of a stream that ended so are told.
    pub fn exit(self) -> Exit
        ensures { result ≡ exit_of self }
    {
        match self {
            How::Done => Exit::Succeeded,
            How::Fault(_) => Exit::Errored,
            How::Halted | How::Memory => Exit::Canceled,
        }
    }
}

/// How the scope or stream ended whose resource is finalized, as fs2's `ExitCase`.
#[derive(Clone, Copy, Debug, PartialEq, Eq)]
pub enum Exit {
    /// It gave all that it had to give.
    Succeeded,
    /// It ended in a fault.
    Errored,
    /// It was stopped from outside, or memory was wanting.
    Canceled,
}

impl fmt::Display for Exit {
    ghost use Rattle.std.specs.Prelude.{Some};
    ghost use Rattle.chunk_core.specs.Texts.{exit_text};

    ghost output = { λ exit. Some (exit_text exit) };

    fn fmt<W: fmt::Write>(&self, f: &mut fmt::Formatter<W>) -> fmt::Result {
        match *self {
            Exit::Succeeded => f.write_str("succeeded"),
            Exit::Errored => f.write_str("errored"),
            Exit::Canceled => f.write_str("canceled"),
        }
    }
}

/// The rows from `from` to `to - 1`.
#[derive(Clone, Copy, Debug, PartialEq, Eq)]
pub struct Span {
    pub from: u32,
    pub to: u32,
}
