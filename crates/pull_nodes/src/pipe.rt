//! The pipes that a stream may go through.
ghost use Rattle.std.specs.Prelude.{◌≡◌, IfOk};
ghost use Rattle.std.specs.Result.{result_ok};
ghost use Rattle.pull_nodes.specs.PipeKinds.{piped_kind};
ghost use Rattle.pull_nodes.specs.Pipes.{groups_of};

use crate::kind::{Kind, KindFault};
use chunk_core::Line;
use std::alloc::{AllocError, Global};
use std::cmp;

/// A step from elements to elements, as plain data.
#[derive(Drop)]
pub enum Pipe {
    /// Bytes to bytes: the input as far as it is UTF-8. A sequence that isn't whole yet is held
    /// back. Faults `Malformed`, where no continuation makes what follows UTF-8, and `Truncated`,
    /// where the input ends within a sequence.
    Utf8,
    /// Bytes to bytes: each maximal part that isn't UTF-8 becomes U+FFFD, and so does an unfinished
    /// sequence at the end.
    Lossy,
    /// Bytes to lines, which end at LF, CR LF or a bare CR. A rest after the last end is a line
    /// where it isn't empty. Fault `LongLine` at the first 1,048,577 bytes in succession without a
    /// line end.
    Lines,
    /// Bytes to lines: each 16 bytes become 32 lower-case hexadecimal digits, and a rest at the end
    /// a shorter line.
    Hex,
    /// Bytes or lines to the same: a to z become A to Z.
    Upper,
    /// Bytes to rows: the records of the whole input, read at its end as comma-separated values, the
    /// first one as the others. Faults `TooLarge` above 16,777,216 bytes, `NotUtf8`, and `Uneven` at
    /// the first record with another number of fields than the first.
    Csv,
    /// Rows to lines: the field of each row, from 0. Fault `NoField` at the first row without it.
    Field(u32),
    /// Rows to rows: each row and at its end one field more, the value that the table has for its
    /// field, or an empty one. The first number is the table's, the second the field's, from 0.
    /// Fault `NoField` at the first row without it.
    Lookup(u32, u32),
    /// Any kind to the same: all but the first so many elements.
    Drop(u64),
    /// Lines to lines: those that contain the text.
    Filter(Line),
    /// Lines or rows to the same: the first, and those that differ from the one before them.
    Changes,
    /// Lines to lines: each behind its number from 0 and a space. The numbers stay at 2^64 - 1.
    Number,
    /// Any kind to lines: at the end one line, the number of elements, at most 2^64 - 1.
    Count,
    /// Lines to lines: the line stands between each two.
    Intersperse(Line),
    /// Any kind to the same: the elements in groups of so many, or of one where that is 0. A rest
    /// at the end is a shorter group.
    ChunkN(u32),
}

impl Pipe {
    /// A copy of a pipe, with its text in memory of its own.
    pub fn copy_of(alloc: Global, pipe: &Pipe) -> Result<Pipe, AllocError>
        ensures { IfOk result (λ copy. copy ≡ pipe.now) }
    {
        Ok(match pipe {
            Pipe::Utf8 => Pipe::Utf8,
            Pipe::Lossy => Pipe::Lossy,
            Pipe::Lines => Pipe::Lines,
            Pipe::Hex => Pipe::Hex,
            Pipe::Upper => Pipe::Upper,
            Pipe::Csv => Pipe::Csv,
            Pipe::Field(field) => Pipe::Field(*field),
            Pipe::Lookup(table, field) => Pipe::Lookup(*table, *field),
            Pipe::Drop(n) => Pipe::Drop(*n),
            Pipe::Filter(text) => Pipe::Filter(Line::copy_of(alloc, text.as_slice())?),
            Pipe::Changes => Pipe::Changes,
            Pipe::Number => Pipe::Number,
            Pipe::Count => Pipe::Count,
            Pipe::Intersperse(text) => Pipe::Intersperse(Line::copy_of(alloc, text.as_slice())?),
            Pipe::ChunkN(n) => Pipe::ChunkN(*n),
        })
    }

    /// The kind that the pipe gives of a kind, or the fault where it doesn't take it. `Any` fits
    /// every pipe.
    pub fn kind(&self, input: Kind) -> Result<Kind, KindFault>
        ensures { result_ok result ≡ piped_kind self.now input }
    {
        match (self, input) {
            (Pipe::Drop(_) | Pipe::ChunkN(_), kind) => Ok(kind),
            (Pipe::Upper, Kind::Bytes | Kind::Lines | Kind::Any) => Ok(input),
            (Pipe::Changes, Kind::Lines | Kind::Rows | Kind::Any) => Ok(input),
            (Pipe::Utf8 | Pipe::Lossy, Kind::Bytes | Kind::Any) => Ok(Kind::Bytes),
            (Pipe::Lines | Pipe::Hex, Kind::Bytes | Kind::Any) => Ok(Kind::Lines),
            (Pipe::Filter(_) | Pipe::Number | Pipe::Intersperse(_), Kind::Lines | Kind::Any) => {
                Ok(Kind::Lines)
            }
            (Pipe::Csv, Kind::Bytes | Kind::Any) => Ok(Kind::Rows),
            (Pipe::Field(_), Kind::Rows | Kind::Any) => Ok(Kind::Lines),
            (Pipe::Lookup(_, _), Kind::Rows | Kind::Any) => Ok(Kind::Rows),
            (Pipe::Count, _) => Ok(Kind::Lines),
            _ => Err(KindFault),
        }
    }

    /// The size of its groups, where it gives groups.
    pub fn group_size(&self) -> Option<u32>
        ensures { result ≡ groups_of self.now }
    {
        match self {
            Pipe::ChunkN(n) => Some(cmp::max(*n, 1)),
            _ => None,
        }
    }
}
