//! Rows of one length.
ghost use Rattle.std.specs.Prelude.{◌≡◌, ℕ, ◌≤◌, List, Some, IfOk, length};
ghost use Rattle.csv.specs.Records.{fields_of};
ghost use Rattle.pull_nodes.specs.Csv.{records_of};
ghost use Rattle.csv_pipes.specs.Even.{TakesRow, TakesRows, even_part};

use crate::kept::{KeptRows, put};
use crate::records::Records;
use chunk_core::Row;
use csv::ByteRecord;
use std::alloc::{AllocError, Global};
use std::io::Read;
use std::marker::Model;

/// The most rows that stand in a load.
const MOST_ROWS: usize = 1024;

/// What comes next.
#[derive(Clone, Copy)]
pub(crate) enum Found {
    Row,
    End,
    /// A record with another number of fields than the first.
    Uneven,
}

/// The rows that are still to come: the records of a text before the first that has another number
/// of fields than the first of all.
#[derive(Drop)]
pub(crate) struct EvenRows<R: Read> {
    records: Records<R>,
    width: Option<usize>,
}

impl<R: Read> Model for EvenRows<R> {
    ghost use Rattle.std.specs.Prelude.{ℕ, Bool, List};
    ghost use Rattle.csv_pipes.specs.Even.{rest_of};

    ghost Value = { List (List (List ℕ)) × Bool };

    ghost view = { λ a. rest_of a.width a.records };
}

impl<R: Read + Drop> EvenRows<R> {
    /// None was read.
    pub(crate) fn new(alloc: Global, text: R) -> Result<EvenRows<R>, AllocError>
        requires known { (xs : List ℕ) × (R.remaining text ≡ Some xs) }
        ensures { IfOk result (λ rows. (xs : List ℕ) → R.remaining text ≡ Some xs → rows ≡ even_part (records_of xs)) }
    {
        Ok(EvenRows {
            records: Records::new(alloc, text)?,
            width: None,
        })
    }

    /// Takes the next row.
    pub(crate) fn next(&mut self, record: &mut ByteRecord) -> Result<Found, AllocError>
        ensures { IfOk result (λ found. TakesRow found self.old (fields_of record.new) self.new) }
    {
        if !self.records.next(record)? {
            return Ok(Found::End);
        }
        let len = record.len();
        if self.width.unwrap_or(len) != len {
            return Ok(Found::Uneven);
        }
        self.width = Some(len);
        Ok(Found::Row)
    }

    /// Takes the next rows, at most 1,024, and tells what comes behind them; `Row` where so many
    /// were taken and it isn't known.
    pub(crate) fn take_rows(
        &mut self,
        alloc: Global,
        kept: &mut KeptRows,
    ) -> Result<(Vec<Row>, Found), AllocError>
        ensures rows { IfOk result (λ p. TakesRows p.1 self.old p.0.items self.new) }
        ensures few { IfOk result (λ p. length p.0.items ≤ 1024) }
    {
        let mut rows = Vec::new(alloc);
        let mut record = ByteRecord::new(alloc);
        'batch: for _ in 0..MOST_ROWS {
            match self.next(&mut record)? {
                Found::Row => rows.push(row_of(alloc, kept, &record)?)?,
                found => return Ok((rows, found)),
            }
        }
        Ok((rows, Found::Row))
    }
}

/// The fields of a record.
fn row_of(alloc: Global, kept: &mut KeptRows, record: &ByteRecord) -> Result<Row, AllocError>
    ensures { IfOk result (λ row. row ≡ fields_of record.now) }
{
    let mut fields = kept.take(alloc);
    for i in 0..record.len() {
        if let Some(field) = record.get(i) {
            put(alloc, &mut fields, i, field)?;
        }
    }
    fields.truncate(record.len());
    Ok(Row::of_vec(fields))
}
