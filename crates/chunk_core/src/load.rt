//! What streams are made of, piece by piece, and the text of a piece.
ghost use Rattle.std.specs.Prelude.{◌≡◌, ◌==◌, ◌++◌, ◌∷◌, [], length, take, drop, IfOk, OnOk, OnErr, map};
ghost use Rattle.std.specs.List.{flat_map};
ghost use Rattle.std.specs.Io.KnownBytes.{Appends};
ghost use Rattle.csv.specs.Writing.{default_writer, row_text};
ghost use Rattle.chunk_core.specs.Elements.{Bytes, elements, kind_of, rendering_of};
ghost use Rattle.chunk_core.specs.Writing.{IsBetween, flexible_writer, written};

use crate::chunk::Chunk;
use crate::list::{Line, Row};
use csv::{Error, Writer, WriterBuilder};
use std::alloc::{AllocError, Global};

/// A piece of a stream: elements of one kind.
#[derive(Drop)]
pub enum Load {
    Bytes(Chunk<u8>),
    Lines(Chunk<Line>),
    Rows(Chunk<Row>),
}

impl Load {
    /// A load of no bytes, which takes no memory.
    pub fn empty() -> Load
        ensures none { elements result ≡ [] }
        ensures kind { kind_of result ≡ Bytes }
    {
        Load::Bytes(Chunk::empty())
    }

    /// The number of its elements.
    pub fn len(&self) -> usize
        ensures { result ≡ length (elements self.now) }
    {
        match self {
            Load::Bytes(bytes) => bytes.len(),
            Load::Lines(lines) => lines.len(),
            Load::Rows(rows) => rows.len(),
        }
    }

    pub fn is_empty(&self) -> bool
        ensures { result ≡ (length (elements self.now) == 0) }
    {
        self.len() == 0
    }

    /// Takes off the first `n` elements, or all where there are no more, without a copy.
    pub fn split(&mut self, n: usize) -> Result<Load, AllocError>
        ensures front { IfOk result (λ front. elements front ≡ take n (elements self.old)) }
        ensures rest { OnOk result (elements self.new ≡ drop n (elements self.old)) }
        ensures kind { IfOk result (λ front. kind_of front ≡ kind_of self.old) }
        ensures same { kind_of self.new ≡ kind_of self.old }
        ensures err { OnErr result (elements self.new ≡ elements self.old) }
    {
        match self {
            Load::Bytes(bytes) => Ok(Load::Bytes(bytes.split(n)?)),
            Load::Lines(lines) => Ok(Load::Lines(lines.split(n)?)),
            Load::Rows(rows) => Ok(Load::Rows(rows.split(n)?)),
        }
    }

    /// The same load once more, without a copy of its elements.
    pub fn copy(&self) -> Result<Load, AllocError>
        ensures same { IfOk result (λ load. elements load ≡ elements self.now) }
        ensures kind { IfOk result (λ load. kind_of load ≡ kind_of self.now) }
    {
        match self {
            Load::Bytes(bytes) => Ok(Load::Bytes(bytes.share()?)),
            Load::Lines(lines) => Ok(Load::Lines(lines.share()?)),
            Load::Rows(rows) => Ok(Load::Rows(rows.share()?)),
        }
    }
}

/// The text of a load: bytes as they are, each line with a line feed behind it, each row as
/// comma-separated values with a line feed behind it.
pub fn render(alloc: Global, load: &Load) -> Result<Line, AllocError>
    ensures { IfOk result (λ text. text ≡ rendering_of (elements load.now)) }
{
    match load {
        Load::Bytes(bytes) => Line::copy_of(alloc, bytes.as_slice()),
        Load::Lines(lines) => lines_text(alloc, lines.as_slice()),
        Load::Rows(rows) => rows_text(alloc, rows.as_slice()),
    }
}

fn lines_text(alloc: Global, lines: &[Line]) -> Result<Line, AllocError>
    ensures { IfOk result (λ text. text ≡ flat_map (λ line. line ++ 10 ∷ []) lines.now) }
{
    let mut text = Vec::new(alloc);
    for line in lines {
        text.extend_from_slice(line.as_slice())?;
        text.push(b'\n')?;
    }
    Ok(Line::of_vec(text))
}

fn rows_text(alloc: Global, rows: &[Row]) -> Result<Line, AllocError>
    ensures { IfOk result (λ text. text ≡ flat_map (row_text default_writer) rows.now) }
{
    let mut writer = WriterBuilder::new()
        .flexible(true)
        .from_writer(Vec::new(alloc));
    let mut fields = Vec::new(alloc);
    for row in rows {
        view_fields(&mut fields, row.as_slice())?;
        if put_row(&mut writer, fields.as_slice()).is_err() {
            return Err(AllocError);
        }
    }
    match writer.into_inner() {
        Ok(text) => Ok(Line::of_vec(text)),
        Err(_) => Err(AllocError),
    }
}

/// Views of a row's fields, in place of those of another row.
fn view_fields<'a>(fields: &mut Vec<&'a [u8]>, row: &'a [Line]) -> Result<(), AllocError>
    ensures { OnOk result (map (λ f. f.now) fields.new.items ≡ row.entry.now) }
{
    fields.clear();
    for field in row {
        fields.push(field.as_slice())?;
    }
    Ok(())
}

// Writing to a `Vec` fails only at want of memory.
fn put_row(writer: &mut Writer<Vec<u8>>, fields: &[&[u8]]) -> Result<(), Error>
    requires { IsBetween writer.old }
    ensures between { OnOk result (IsBetween writer.new) }
    ensures text { OnOk result (Appends (written writer.old) (written writer.new) (row_text flexible_writer (map (λ f. f.now) fields.now))) }
{
    writer.write_fields(fields)
}
