//! Inputs in pieces, fed to a pipe, and what came of them.
ghost use Rattle.chunk_core.specs.Feed.{MayFeed};

use chunk_core::{Chunk, Code, Fed, Feed, Line, Load, Row, render};
use std::alloc::{AllocError, Global};

/// Loads of one kind, made of texts.
pub(crate) trait Made {
    ghost use Rattle.std.specs.Prelude.{◌≡◌, IfOk};
    ghost use Rattle.chunk_core.specs.Elements.{LoadKind, kind_of};

    ghost kind: { LoadKind };

    fn load(alloc: Global, texts: &[&[u8]]) -> Result<Load, AllocError>
        ensures { IfOk result (λ load. kind_of load ≡ kind) };
}

/// Each text is a line.
pub(crate) struct AsLines;

/// Each text is a row, with a field for each byte.
pub(crate) struct AsRows;

/// Each byte of the texts is a line.
pub(crate) struct AsLetters;

/// The texts one after another.
pub(crate) struct AsBytes;

fn row_of(alloc: Global, text: &[u8]) -> Result<Row, AllocError> {
    let mut row = Row::new(alloc);
    for byte in text {
        row.push(Line::copy_of(alloc, [*byte].as_slice())?)?;
    }
    Ok(row)
}

impl Made for AsLines {
    ghost use Rattle.chunk_core.specs.Elements.LoadKind.{Lines};

    ghost kind = { Lines };

    fn load(alloc: Global, texts: &[&[u8]]) -> Result<Load, AllocError> {
        let mut lines = Vec::new(alloc);
        for text in texts {
            lines.push(Line::copy_of(alloc, text)?)?;
        }
        Ok(Load::Lines(Chunk::of_vec(alloc, lines)?))
    }
}

impl Made for AsLetters {
    ghost use Rattle.chunk_core.specs.Elements.LoadKind.{Lines};

    ghost kind = { Lines };

    fn load(alloc: Global, texts: &[&[u8]]) -> Result<Load, AllocError> {
        let mut letters = Vec::new(alloc);
        for text in texts {
            for byte in *text {
                letters.push(Line::copy_of(alloc, [*byte].as_slice())?)?;
            }
        }
        Ok(Load::Lines(Chunk::of_vec(alloc, letters)?))
    }
}

impl Made for AsRows {
    ghost use Rattle.chunk_core.specs.Elements.LoadKind.{Rows};

    ghost kind = { Rows };

    fn load(alloc: Global, texts: &[&[u8]]) -> Result<Load, AllocError> {
        let mut rows = Vec::new(alloc);
        for text in texts {
            rows.push(row_of(alloc, text)?)?;
        }
        Ok(Load::Rows(Chunk::of_vec(alloc, rows)?))
    }
}

impl Made for AsBytes {
    ghost use Rattle.chunk_core.specs.Elements.LoadKind.{Bytes};

    ghost kind = { Bytes };

    fn load(alloc: Global, texts: &[&[u8]]) -> Result<Load, AllocError> {
        let mut bytes = Vec::new(alloc);
        for text in texts {
            bytes.extend_from_slice(text)?;
        }
        Ok(Load::Bytes(Chunk::of_vec(alloc, bytes)?))
    }
}

/// A pipe as a test names it. It is made anew for each input of this kind.
pub(crate) trait Recipe<M: Made> {
    ghost use Rattle.std.specs.Prelude.{IfOk};
    ghost use Rattle.chunk_core.specs.Feed.{MayFeed};

    type Pipe: Feed;

    fn pipe(&self, alloc: Global) -> Result<Self::Pipe, AllocError>
        ensures { IfOk result (λ pipe. MayFeed (Self.Pipe.Feed.stands pipe) M.Made.kind) };
}

/// What came of an input: bytes as they are, lines and rows with `|` behind each, fields with `,`;
/// the lengths of the loads that aren't empty; how much of the text came before the end was told; and
/// the fault.
#[derive(Drop)]
pub(crate) struct Told {
    pub(crate) text: Vec<u8>,
    pub(crate) lens: Vec<usize>,
    pub(crate) early: usize,
    pub(crate) fault: Option<Code>,
}

impl Told {
    fn put_lines(&mut self, lines: &[Line], end: u8) -> Result<(), AllocError> {
        for line in lines {
            self.text.extend_from_slice(line.as_slice())?;
            self.text.push(end)?;
        }
        Ok(())
    }

    fn put_rows(&mut self, rows: &[Row]) -> Result<(), AllocError> {
        for row in rows {
            self.put_lines(row.as_slice(), b',')?;
            self.text.push(b'|')?;
        }
        Ok(())
    }

    fn put(&mut self, load: Load) -> Result<(), AllocError> {
        if !load.is_empty() {
            self.lens.push(load.len())?;
        }
        match load {
            Load::Bytes(bytes) => self.text.extend_from_slice(bytes.as_slice()),
            Load::Lines(lines) => self.put_lines(lines.as_slice(), b'|'),
            Load::Rows(rows) => self.put_rows(rows.as_slice()),
        }
    }

    /// The same with the last load and the fault behind it.
    fn with_fault(mut self, load: Load, code: Code) -> Result<Told, AllocError> {
        self.put(load)?;
        self.fault = Some(code);
        Ok(self)
    }
}

/// Feeds the pieces and then the end.
pub(crate) fn answers<M: Made, P: Feed>(
    alloc: Global,
    mut pipe: P,
    pieces: &[&[&[u8]]],
) -> Result<Told, AllocError>
    requires { MayFeed (P.stands pipe) M.kind }
{
    let mut told = Told {
        text: Vec::new(alloc),
        lens: Vec::new(alloc),
        early: 0,
        fault: None,
    };
    for piece in pieces {
        match pipe.feed(alloc, M::load(alloc, piece)?)? {
            Fed::Out(load) => told.put(load)?,
            Fed::End => return Ok(told),
            Fed::Fault(load, code) => return told.with_fault(load, code),
        }
    }
    told.early = told.text.len();
    for _ in 0..4 {
        match pipe.finish(alloc)? {
            Fed::Out(load) => told.put(load)?,
            Fed::End => return Ok(told),
            Fed::Fault(load, code) => return told.with_fault(load, code),
        }
    }
    Ok(told)
}

/// The text of the loads.
fn text_of(alloc: Global, loads: &[Load]) -> Result<Vec<u8>, AllocError> {
    let mut text = Vec::new(alloc);
    for load in loads {
        text.extend_from_slice(render(alloc, load)?.as_slice())?;
    }
    Ok(text)
}

/// Feeds the pieces, holds each second load and lets the others go; whether those that were held are
/// as they were given, and whether there are some.
pub(crate) fn stay<M: Made, P: Feed>(
    alloc: Global,
    mut pipe: P,
    pieces: &[&[&[u8]]],
) -> Result<bool, AllocError>
    requires { MayFeed (P.stands pipe) M.kind }
{
    let mut given = Vec::new(alloc);
    let mut held = Vec::new(alloc);
    let mut holds = true;
    for piece in pieces {
        let Fed::Out(load) = pipe.feed(alloc, M::load(alloc, piece)?)? else {
            return Ok(false);
        };
        if holds {
            given.extend_from_slice(render(alloc, &load)?.as_slice())?;
            held.push(load)?;
        }
        holds = !holds;
    }
    let after = text_of(alloc, held.as_slice())?;
    Ok(!given.is_empty() && after.as_slice() == given.as_slice())
}
