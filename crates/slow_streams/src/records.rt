//! Records, and tables of them.
use crate::given::{Given, Item};
use crate::utf8::text_front;
use printed_parts::{End, Fault};
use std::alloc::{AllocError, Global};
use std::mem;

/// Where a reader of records is.
#[derive(Clone, Copy, PartialEq, Eq)]
enum Place {
    /// Between records.
    Between,
    /// At the begin of a field.
    Begin,
    Plain,
    Quoted,
    /// Behind a quote in quotes.
    Behind,
}

/// A reader of records, with what it has read.
#[derive(Drop)]
struct Reading {
    rows: Vec<Item>,
    row: Item,
    field: Vec<u8>,
    place: Place,
}

impl Reading {
    fn end_field(&mut self, alloc: Global) -> Result<(), AllocError> {
        self.row
            .push(mem::replace(&mut self.field, Vec::new(alloc)))?;
        self.place = Place::Begin;
        Ok(())
    }

    fn end_row(&mut self, alloc: Global) -> Result<(), AllocError> {
        self.end_field(alloc)?;
        self.rows
            .push(mem::replace(&mut self.row, Vec::new(alloc)))?;
        self.place = Place::Between;
        Ok(())
    }

    fn keep(&mut self, byte: u8, place: Place) -> Result<(), AllocError> {
        self.field.push(byte)?;
        self.place = place;
        Ok(())
    }

    fn take(&mut self, alloc: Global, byte: u8) -> Result<(), AllocError> {
        match (self.place, byte) {
            (Place::Between, b'\r' | b'\n') => {}
            (Place::Between | Place::Begin, b'"') => self.place = Place::Quoted,
            (Place::Quoted, b'"') => self.place = Place::Behind,
            (Place::Quoted, _) | (Place::Behind, b'"') => self.keep(byte, Place::Quoted)?,
            (_, b',') => self.end_field(alloc)?,
            (_, b'\r' | b'\n') => self.end_row(alloc)?,
            _ => self.keep(byte, Place::Plain)?,
        }
        Ok(())
    }
}

/// All records of these bytes.
fn records_of(alloc: Global, bytes: &[u8]) -> Result<Vec<Item>, AllocError> {
    let mut reading = Reading {
        rows: Vec::new(alloc),
        row: Vec::new(alloc),
        field: Vec::new(alloc),
        place: Place::Between,
    };
    for byte in bytes.strip_prefix(b"\xef\xbb\xbf").unwrap_or(bytes) {
        reading.take(alloc, *byte)?;
    }
    if reading.place != Place::Between {
        reading.end_row(alloc)?;
    }
    Ok(reading.rows)
}

/// How many of the rows, from the first on, have as many fields as the first.
fn count_even(rows: &[Item]) -> usize {
    let width = rows.first().map_or(0, |row| row.len());
    rows.iter().take_while(|row| row.len() == width).count()
}

/// The rows of bytes that ended so.
pub(crate) fn rows_of(alloc: Global, given: &Given) -> Result<Given, AllocError> {
    if given.end != End::Done {
        return Ok(Given::nothing(alloc, given.end));
    }
    if text_front(&given.bytes, true).1.is_some() {
        return Ok(Given::nothing(alloc, End::Fault(Fault::NotUtf8)));
    }
    let mut rows = records_of(alloc, &given.bytes)?;
    let even = count_even(&rows);
    let is_uneven = even < rows.len();
    rows.truncate(even);
    let end = if is_uneven {
        End::Fault(Fault::Uneven)
    } else {
        End::Done
    };
    Ok(Given::of_items(alloc, rows, end))
}

/// The records of a table's file, or its fault.
pub fn table_of(alloc: Global, bytes: &[u8]) -> Result<Result<Vec<Item>, Fault>, AllocError> {
    if text_front(bytes, true).1.is_some() {
        return Ok(Err(Fault::NotUtf8));
    }
    let rows = records_of(alloc, bytes)?;
    if rows.first().is_some_and(|row| row.len() < 2) {
        return Ok(Err(Fault::NoField));
    }
    if count_even(&rows) < rows.len() {
        return Ok(Err(Fault::Uneven));
    }
    Ok(Ok(rows))
}

/// What a table says of a key: the value of its first record of that key, or nothing.
pub(crate) fn value_in<'a>(rows: &'a [Item], key: &[u8]) -> &'a [u8] {
    for row in rows {
        if let [first, value, ..] = row.as_slice() {
            if first.as_slice() == key {
                return value;
            }
        }
    }
    b""
}
