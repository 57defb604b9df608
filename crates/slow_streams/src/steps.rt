//! What each step gives.
use crate::given::{Given, Item, line_of};
use crate::records::{rows_of, value_in};
use crate::utf8::{dump_of, lines_of, mended, text_front};
use printed_parts::{End, Fault};
use random_plans::{Name, Step};
use std::alloc::{AllocError, Global};

/// The rows of the tables.
pub type Tables = Vec<Vec<Item>>;

/// The front of the bytes that is UTF-8, and how that ends.
fn checked(mut given: Given) -> Given {
    let (length, fault) = text_front(&given.bytes, given.end == End::Done);
    given.bytes.truncate(length);
    if let Some(fault) = fault {
        given.end = End::Fault(fault);
    }
    given
}

/// The lines of text in what a file gave.
pub fn lines_in(alloc: Global, given: Given) -> Result<Given, AllocError> {
    let given = checked(given);
    let lines = lines_of(alloc, &given.bytes, given.end == End::Done)?;
    Ok(Given::of_items(alloc, lines, given.end))
}

fn capitals(bytes: &mut [u8]) {
    for byte in bytes {
        *byte = byte.to_ascii_uppercase();
    }
}

fn upper(mut given: Given) -> Given {
    capitals(&mut given.bytes);
    for item in &mut given.items {
        for line in item {
            capitals(line);
        }
    }
    given
}

fn take_first(mut given: Given, number: usize) -> Given {
    if given.count() >= number {
        given.bytes.truncate(number);
        given.items.truncate(number);
        given.end = End::Done;
    }
    given
}

fn drop_first(alloc: Global, given: Given, number: usize) -> Result<Given, AllocError> {
    let bytes = Vec::from_slice(alloc, given.bytes.get(number..).unwrap_or(b""))?;
    let items = given.items.into_iter().skip(number).collect(alloc)?;
    Ok(Given {
        bytes,
        items,
        end: given.end,
    })
}

/// Whether one text is somewhere in the other.
fn is_within(text: &[u8], line: &[u8]) -> bool {
    line.windows(text.len().max(1)).any(|part| part == text)
}

/// Whether the line, or the first field, has this text in it.
fn has_text(item: &[Vec<u8>], text: &str) -> bool {
    item.first()
        .is_some_and(|line| is_within(text.as_bytes(), line))
}

fn filtered(mut given: Given, text: &str) -> Given {
    given.items.retain(|item| has_text(item, text));
    given
}

fn changes(alloc: Global, given: Given) -> Result<Given, AllocError> {
    let mut items: Vec<Item> = Vec::new(alloc);
    for item in given.items {
        if items.last() != Some(&item) {
            items.push(item)?;
        }
    }
    Ok(Given::of_items(alloc, items, given.end))
}

fn numbered(alloc: Global, given: Given) -> Result<Given, AllocError> {
    let mut items = Vec::new(alloc);
    for (number, item) in given.items.iter().enumerate() {
        let mut line = format!(in alloc; "{number} ")?.into_bytes();
        line.extend_from_slice(item.first().map_or(b"", |line| line.as_slice()))?;
        items.push(line_of(alloc, &line)?)?;
    }
    Ok(Given::of_items(alloc, items, given.end))
}

fn counted(alloc: Global, given: &Given) -> Result<Given, AllocError> {
    let mut items = Vec::new(alloc);
    if given.end == End::Done {
        let text = format!(in alloc; "{}", given.count())?;
        items.push(line_of(alloc, text.as_bytes())?)?;
    }
    Ok(Given::of_items(alloc, items, given.end))
}

fn between(alloc: Global, given: Given, text: &str) -> Result<Given, AllocError> {
    let mut items = Vec::new(alloc);
    for (place, item) in given.items.into_iter().enumerate() {
        if place != 0 {
            items.push(line_of(alloc, text.as_bytes())?)?;
        }
        items.push(item)?;
    }
    Ok(Given::of_items(alloc, items, given.end))
}

/// The groups of so many elements, and behind the end of the input the last one.
fn grouped(mut given: Given, number: usize) -> Given {
    if given.end != End::Done {
        let rest = given.count().checked_rem(number).unwrap_or(0);
        let whole = given.count().saturating_sub(rest);
        given.bytes.truncate(whole);
        given.items.truncate(whole);
    }
    given
}

/// The field at a place of each row, or each row with what a table says of that field.
fn each_row(
    alloc: Global,
    given: Given,
    place: usize,
    table: Option<&[Item]>,
) -> Result<Given, AllocError> {
    let mut items = Vec::new(alloc);
    for mut row in given.items {
        let Some(field) = row.get(place) else {
            return Ok(Given::of_items(alloc, items, End::Fault(Fault::NoField)));
        };
        match table {
            None => items.push(line_of(alloc, field)?)?,
            Some(rows) => {
                let value = Vec::from_slice(alloc, value_in(rows, field))?;
                row.push(value)?;
                items.push(row)?;
            }
        }
    }
    Ok(Given::of_items(alloc, items, given.end))
}

/// What a step gives of this.
fn stepped(alloc: Global, step: &Step, given: Given, tables: &Tables) -> Result<Given, AllocError> {
    let (end, is_whole) = (given.end, given.end == End::Done);
    let of_lines = |lines: Vec<Item>| Given::of_items(alloc, lines, end);
    let table: &[Item] = match tables.get(step.table) {
        Some(rows) => rows,
        None => &[],
    };
    match step.name {
        Name::Utf8 => Ok(checked(given)),
        Name::Lossy => Given::of_bytes(alloc, &mended(alloc, &given.bytes, is_whole)?, end),
        Name::Upper => Ok(upper(given)),
        Name::Hex => Ok(of_lines(dump_of(alloc, &given.bytes, is_whole)?)),
        Name::Lines => Ok(of_lines(lines_of(alloc, &given.bytes, is_whole)?)),
        Name::Csv => rows_of(alloc, &given),
        Name::Field => each_row(alloc, given, step.number, None),
        Name::Lookup => each_row(alloc, given, step.number, Some(table)),
        Name::Take => Ok(take_first(given, step.number)),
        Name::Drop => drop_first(alloc, given, step.number),
        Name::Filter => Ok(filtered(given, step.text)),
        Name::Changes => changes(alloc, given),
        Name::Number => numbered(alloc, given),
        Name::Count => counted(alloc, &given),
        Name::Between => between(alloc, given, step.text),
        Name::Chunk => Ok(grouped(given, step.number)),
    }
}

/// What the steps give of this, one behind the other.
pub fn through(
    alloc: Global,
    steps: &[Step],
    given: Given,
    tables: &Tables,
) -> Result<Given, AllocError> {
    let mut given = given;
    for step in steps {
        given = stepped(alloc, step, given, tables)?;
    }
    Ok(given)
}
