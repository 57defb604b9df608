//! What pipes are fed: the text as loads of one kind.
ghost use Rattle.std.specs.Prelude.{◌≡◌, IfOk};
ghost use Rattle.chunk_core.specs.Elements.{kind_of};
ghost use Rattle.chunk_core.specs.Elements.LoadKind.{Bytes, Lines, Rows};

use crate::text;
use chunk_core::{Chunk, Line, Load, Row};
use std::alloc::{AllocError, Global};

/// How many bytes are counted for a line.
const LINE: usize = 64;

/// One kind of loads, made of a text.
pub trait Input {
    ghost use Rattle.std.specs.Prelude.{◌≡◌, ◌<◌, IfOk};
    ghost use Rattle.chunk_core.specs.Elements.{LoadKind, kind_of};

    ghost kind: { LoadKind };

    /// The text of one block.
    fn text(alloc: Global) -> Result<Vec<u8>, AllocError>;

    /// A block as one load.
    fn block(alloc: Global, text: &[u8]) -> Result<Load, AllocError>
        ensures { IfOk result (λ load. kind_of load ≡ kind) };

    /// How many elements a load of so many bytes has.
    fn piece(chunk: usize) -> usize
        requires { 0 < chunk }
        ensures { 0 < result };
}

/// The text as it is.
pub struct PlainBytes;

/// The text with bytes that aren't UTF-8.
pub struct BrokenBytes;

/// Comma-separated values.
pub struct RowBytes;

/// The lines of the text.
pub struct TextLines;

/// The words of each line of the text.
pub struct TextRows;

fn bytes_of(alloc: Global, text: &[u8]) -> Result<Load, AllocError>
    ensures { IfOk result (λ load. kind_of load ≡ Bytes) }
{
    let chunk = Chunk::of_vec(alloc, Vec::from_slice(alloc, text)?)?;
    Ok(Load::Bytes(chunk))
}

fn lines_of(alloc: Global, text: &[u8]) -> Result<Load, AllocError>
    ensures { IfOk result (λ load. kind_of load ≡ Lines) }
{
    let mut lines = Vec::new(alloc);
    let mut from = 0;
    for at in 0..text.len() {
        if text[at] == b'\n' {
            lines.push(Line::copy_of(alloc, &text[from..at])?)?;
            from = at + 1;
        }
    }
    Ok(Load::Lines(Chunk::of_vec(alloc, lines)?))
}

fn row_of(alloc: Global, line: &[u8]) -> Result<Row, AllocError> {
    let mut row = Row::new(alloc);
    for word in line.split(|byte| *byte == b' ') {
        row.push(Line::copy_of(alloc, word)?)?;
    }
    Ok(row)
}

fn rows_of(alloc: Global, text: &[u8]) -> Result<Load, AllocError>
    ensures { IfOk result (λ load. kind_of load ≡ Rows) }
{
    let mut rows = Vec::new(alloc);
    for line in text.split(|byte| *byte == b'\n') {
        if !line.is_empty() {
            rows.push(row_of(alloc, line)?)?;
        }
    }
    Ok(Load::Rows(Chunk::of_vec(alloc, rows)?))
}

impl Input for PlainBytes {
    ghost use Rattle.chunk_core.specs.Elements.LoadKind.{Bytes};

    ghost kind = { Bytes };

    fn text(alloc: Global) -> Result<Vec<u8>, AllocError> {
        text::text(alloc)
    }

    fn block(alloc: Global, text: &[u8]) -> Result<Load, AllocError> {
        bytes_of(alloc, text)
    }

    fn piece(chunk: usize) -> usize {
        chunk
    }
}

impl Input for BrokenBytes {
    ghost use Rattle.chunk_core.specs.Elements.LoadKind.{Bytes};

    ghost kind = { Bytes };

    fn text(alloc: Global) -> Result<Vec<u8>, AllocError> {
        text::broken_text(alloc)
    }

    fn block(alloc: Global, text: &[u8]) -> Result<Load, AllocError> {
        bytes_of(alloc, text)
    }

    fn piece(chunk: usize) -> usize {
        chunk
    }
}

impl Input for RowBytes {
    ghost use Rattle.chunk_core.specs.Elements.LoadKind.{Bytes};

    ghost kind = { Bytes };

    fn text(alloc: Global) -> Result<Vec<u8>, AllocError> {
        text::rows_text(alloc)
    }

    fn block(alloc: Global, text: &[u8]) -> Result<Load, AllocError> {
        bytes_of(alloc, text)
    }

    fn piece(chunk: usize) -> usize {
        chunk
    }
}

impl Input for TextLines {
    ghost use Rattle.chunk_core.specs.Elements.LoadKind.{Lines};

    ghost kind = { Lines };

    fn text(alloc: Global) -> Result<Vec<u8>, AllocError> {
        text::text(alloc)
    }

    fn block(alloc: Global, text: &[u8]) -> Result<Load, AllocError> {
        lines_of(alloc, text)
    }

    fn piece(chunk: usize) -> usize {
        chunk.div_ceil(LINE)
    }
}

impl Input for TextRows {
    ghost use Rattle.chunk_core.specs.Elements.LoadKind.{Rows};

    ghost kind = { Rows };

    fn text(alloc: Global) -> Result<Vec<u8>, AllocError> {
        text::text(alloc)
    }

    fn block(alloc: Global, text: &[u8]) -> Result<Load, AllocError> {
        rows_of(alloc, text)
    }

    fn piece(chunk: usize) -> usize {
        chunk.div_ceil(LINE)
    }
}
