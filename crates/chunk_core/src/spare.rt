//! Memory of loads that nobody needs any longer, to be filled again. A pipe calls `regain` when it is
//! fed, makes its lines, and gives them by `give`. No clause speaks of what is spare: each call
//! answers as one that makes its lines anew.
ghost use Rattle.std.specs.Prelude.{◌≡◌, ◌++◌, ◌∷◌, [], IfOk};

use crate::chunk::Chunk;
use crate::list::{Line, Row};
use crate::refill::Refill;
use std::alloc::{AllocError, Global};

/// A line's memory of more bytes isn't filled again, so that short lines don't hold that of long ones.
const LONGEST_KEPT: usize = 1024;

/// The lines of the load that was given last, once nobody else has it.
#[derive(Drop)]
pub struct Spare {
    last: Refill<Line>,
    lines: Vec<Line>,
}

/// The rows of the load that was given last, once nobody else has it, and their fields.
#[derive(Drop)]
pub struct SpareRows {
    last: Refill<Row>,
    rows: Vec<Row>,
    lines: Vec<Line>,
}

/// An empty vector, with the memory of a spare line where there is one.
#[inline(always)]
fn empty_line(alloc: Global, lines: &mut Vec<Line>) -> Vec<u8>
    ensures { result.items ≡ [] }
{
    match lines.pop() {
        Some(line) => {
            let mut text = line.into_vec();
            if text.capacity() > LONGEST_KEPT {
                return Vec::new(alloc);
            }
            text.clear();
            text
        }
        None => Vec::new(alloc),
    }
}

#[inline(always)]
fn line_of(alloc: Global, lines: &mut Vec<Line>, bytes: &[u8]) -> Result<Line, AllocError>
    ensures { IfOk result (λ line. line ≡ bytes.now) }
{
    let mut text = empty_line(alloc, lines);
    text.extend_from_slice(bytes)?;
    Ok(Line::of_vec(text))
}

impl Spare {
    /// Nothing is spare.
    pub fn new(alloc: Global) -> Spare {
        Spare {
            last: Refill::new(),
            lines: Vec::new(alloc),
        }
    }

    /// Takes the last load's lines back, where nobody else has them.
    pub fn regain(&mut self) {
        if let Some(lines) = self.last.regain() {
            self.lines = lines;
        }
    }

    /// A line of these bytes.
    pub fn line(&mut self, alloc: Global, bytes: &[u8]) -> Result<Line, AllocError>
        ensures { IfOk result (λ line. line ≡ bytes.now) }
    {
        line_of(alloc, &mut self.lines, bytes)
    }

    /// An empty vector for the bytes of a line.
    pub fn empty(&mut self, alloc: Global) -> Vec<u8>
        ensures { result.items ≡ [] }
    {
        empty_line(alloc, &mut self.lines)
    }

    /// The lines as a chunk, of which a share is kept.
    pub fn give(&mut self, alloc: Global, lines: Vec<Line>) -> Result<Chunk<Line>, AllocError>
        ensures { IfOk result (λ chunk. chunk ≡ lines.items) }
    {
        self.last.give(alloc, lines)
    }
}

impl SpareRows {
    /// Nothing is spare.
    pub fn new(alloc: Global) -> SpareRows {
        SpareRows {
            last: Refill::new(),
            rows: Vec::new(alloc),
            lines: Vec::new(alloc),
        }
    }

    /// Takes the last load's rows back, where nobody else has them.
    pub fn regain(&mut self) {
        if let Some(rows) = self.last.regain() {
            self.rows = rows;
        }
    }

    /// A line of these bytes.
    pub fn line(&mut self, alloc: Global, bytes: &[u8]) -> Result<Line, AllocError>
        ensures { IfOk result (λ line. line ≡ bytes.now) }
    {
        line_of(alloc, &mut self.lines, bytes)
    }

    /// An empty vector for the fields of a row; the fields that a spare row had are spare lines then.
    pub fn empty(&mut self, alloc: Global) -> Result<Vec<Line>, AllocError>
        ensures { IfOk result (λ row. row.items ≡ []) }
    {
        match self.rows.pop() {
            Some(row) => {
                let mut row = row.into_vec();
                self.lines.append(&mut row)?;
                Ok(row)
            }
            None => Ok(Vec::new(alloc)),
        }
    }

    /// The rows as a chunk, of which a share is kept.
    pub fn give(&mut self, alloc: Global, rows: Vec<Row>) -> Result<Chunk<Row>, AllocError>
        ensures { IfOk result (λ chunk. chunk ≡ rows.items) }
    {
        self.last.give(alloc, rows)
    }

    /// A row with one more field at its end.
    pub fn longer(&mut self, alloc: Global, row: &[Line], more: &[u8]) -> Result<Row, AllocError>
        ensures { IfOk result (λ longer. longer ≡ row.now ++ more.now ∷ []) }
    {
        let mut fields = self.empty(alloc)?;
        for field in row {
            fields.push(self.line(alloc, field.as_slice())?)?;
        }
        fields.push(self.line(alloc, more)?)?;
        Ok(Row::of_vec(fields))
    }
}
