//! Rows that nobody needs any longer, to be written over. A pipe calls `regain` when it is asked,
//! makes its rows of those that it takes, and gives them by `give`. No clause speaks of what is kept.
ghost use Rattle.std.specs.Prelude.{◌≡◌, ◌+◌, ◌++◌, ◌∷◌, ◌≤◌, [], IfOk, OnOk, length, take};

use chunk_core::{Chunk, Line, Refill, Row};
use std::alloc::{AllocError, Global};
use std::mem;

/// A line's memory of more bytes isn't written over, so that short lines don't hold that of long
/// ones.
const LONGEST_KEPT: usize = 1024;

/// The rows of the load that was given last, once nobody else has it.
#[derive(Drop)]
pub(crate) struct KeptRows {
    last: Refill<Row>,
    rows: Vec<Row>,
}

/// A line of these bytes, in the memory of another.
#[inline(always)]
fn line_over(alloc: Global, old: Line, bytes: &[u8]) -> Result<Line, AllocError>
    ensures { IfOk result (λ line. line ≡ bytes.now) }
{
    let mut text = old.into_vec();
    if text.capacity() > LONGEST_KEPT {
        return Line::copy_of(alloc, bytes);
    }
    text.clear();
    text.extend_from_slice(bytes)?;
    Ok(Line::of_vec(text))
}

/// Puts a line of these bytes at the place, over the one that stands there, or at the end.
#[inline(always)]
pub(crate) fn put(
    alloc: Global,
    fields: &mut Vec<Line>,
    place: usize,
    bytes: &[u8],
) -> Result<(), AllocError>
    requires { place ≤ length fields.old.items }
    ensures front { OnOk result (take (place + 1) fields.new.items ≡ take place fields.old.items ++ bytes.now ∷ []) }
    ensures within { OnOk result (place + 1 ≤ length fields.new.items) }
{
    if place < fields.len() {
        let old = mem::replace(&mut fields[place], Line::new(alloc));
        fields[place] = line_over(alloc, old, bytes)?;
        return Ok(());
    }
    fields.push(Line::copy_of(alloc, bytes)?)?;
    Ok(())
}

impl KeptRows {
    /// Nothing is kept.
    pub(crate) fn new(alloc: Global) -> KeptRows {
        KeptRows {
            last: Refill::new(),
            rows: Vec::new(alloc),
        }
    }

    /// Takes the last load's rows back, where nobody else has them.
    pub(crate) fn regain(&mut self) {
        if let Some(rows) = self.last.regain() {
            self.rows = rows;
        }
    }

    /// The fields of a row that is kept, or none.
    #[inline(always)]
    pub(crate) fn take(&mut self, alloc: Global) -> Vec<Line> {
        match self.rows.pop() {
            Some(row) => row.into_vec(),
            None => Vec::new(alloc),
        }
    }

    /// The rows as a chunk, of which a share is kept.
    pub(crate) fn give(&mut self, alloc: Global, rows: Vec<Row>) -> Result<Chunk<Row>, AllocError>
        ensures { IfOk result (λ chunk. chunk ≡ rows.items) }
    {
        self.last.give(alloc, rows)
    }

    /// A row with one more field at its end.
    pub(crate) fn longer(
        &mut self,
        alloc: Global,
        row: &[Line],
        more: &[u8],
    ) -> Result<Row, AllocError>
        ensures { IfOk result (λ longer. longer ≡ row.now ++ more.now ∷ []) }
    {
        let mut fields = self.take(alloc);
        for (i, field) in row.iter().enumerate() {
            put(alloc, &mut fields, i, field.as_slice())?;
        }
        put(alloc, &mut fields, row.len(), more)?;
        fields.truncate(row.len().saturating_add(1));
        Ok(Row::of_vec(fields))
    }
}
