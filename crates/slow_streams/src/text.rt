//! The text of what a stream gives.
use crate::given::Given;
use printed_parts::End;
use random_plans::Kind;
use std::alloc::{AllocError, Global};

/// Appends a field as a writer of records has it.
fn put_field(text: &mut Vec<u8>, field: &[u8]) -> Result<(), AllocError> {
    if !field.iter().any(|byte| b",\"\r\n".contains(byte)) {
        return text.extend_from_slice(field);
    }
    text.push(b'"')?;
    for byte in field {
        if *byte == b'"' {
            text.push(b'"')?;
        }
        text.push(*byte)?;
    }
    text.push(b'"')?;
    Ok(())
}

/// Appends a row.
fn put_row(text: &mut Vec<u8>, row: &[Vec<u8>]) -> Result<(), AllocError> {
    if row.len() == 1 && row.iter().all(|field| field.is_empty()) {
        text.extend_from_slice(b"\"\"")?;
    }
    for (place, field) in row.iter().enumerate() {
        if place != 0 {
            text.push(b',')?;
        }
        put_field(text, field)?;
    }
    Ok(())
}

/// Appends a line or a row, and LF.
fn put_item(text: &mut Vec<u8>, kind: Kind, item: &[Vec<u8>]) -> Result<(), AllocError> {
    match (kind, item) {
        (Kind::Rows, _) => put_row(text, item)?,
        (_, [line, ..]) => text.extend_from_slice(line)?,
        (_, []) => {}
    }
    text.push(b'\n')?;
    Ok(())
}

/// What is printed of a stream that gives all of this: its text, the places in it at which elements end, but for those of bytes, which
/// end anywhere, and the end. `body` is how it ended before a text stood in for the rest.
#[derive(Drop)]
pub struct Text {
    pub text: Vec<u8>,
    bytes: usize,
    bounds: Vec<usize>,
    pub end: End,
    pub body: End,
}

impl Text {
    /// The text of what was given.
    pub fn of(alloc: Global, kind: Kind, given: &Given, body: End) -> Result<Text, AllocError> {
        let mut text = Vec::from_slice(alloc, &given.bytes)?;
        let mut bounds = Vec::new(alloc);
        for item in &given.items {
            put_item(&mut text, kind, item)?;
            bounds.push(text.len())?;
        }
        let bytes = given.bytes.len();
        Ok(Text {
            text,
            bytes,
            bounds,
            end: given.end,
            body,
        })
    }

    /// Whether an element ends at this place, or the first one begins.
    fn has_bound(&self, place: usize) -> bool {
        place <= self.bytes || self.bounds.contains(&place)
    }

    /// Whether this may have been printed of it where it ended so.
    pub fn allows(&self, printed: &[u8], end: End) -> bool {
        self.text.starts_with(printed)
            && match end {
                End::Cut => true,
                End::Halted => self.has_bound(printed.len()),
                _ => printed.len() == self.text.len() && end == self.end,
            }
    }

    /// Whether each of these places is one at which an element ends.
    pub fn ends_at(&self, places: &[usize]) -> bool {
        places.iter().all(|place| self.has_bound(*place))
    }
}
