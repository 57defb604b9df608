//! The lines of the files.
ghost use Rattle.std.specs.Prelude.{◌≡◌, ◌+◌, ◌%◌, IfOk};
ghost use Rattle.gen_case.specs.Case.{digit, number_line, records_text, row_text, stream_text, table_text};

use crate::Case;
use chunk_core::Line;
use std::alloc::{AllocError, Global};

/// How many records the table has.
const RECORDS: u32 = 1000;

/// The last decimal digit of a number, as a byte of text.
fn digit(number: u32) -> u8
    ensures { result ≡ digit number }
{
    b'0' + (number % 10) as u8
}

/// A number below 1,000 in three digits, and LF.
fn line(number: u32) -> [u8; 4]
    ensures { result ≡ number_line number }
{
    [
        digit(number / 100),
        digit(number / 10),
        digit(number),
        b'\n',
    ]
}

/// The same with a comma and the last digit again before the LF.
fn row(number: u32) -> [u8; 6]
    ensures { result ≡ row_text number }
{
    [
        digit(number / 100),
        digit(number / 10),
        digit(number),
        b',',
        digit(number),
        b'\n',
    ]
}

/// The text of the file of stream k.
pub(crate) fn stream_text(alloc: Global, case: Case, k: u32) -> Result<Line, AllocError>
    ensures { IfOk result (λ text. text ≡ stream_text case k) }
{
    let mut text = Vec::new(alloc);
    for i in 0..case.lines {
        text.extend_from_slice(&line(case.number_on(k, i)))?;
    }
    Ok(Line::of_vec(text))
}

/// The records of the numbers below this one.
#[tactic(auto, unfolding(crate::specs::Case::records_text))]
fn records_text(alloc: Global, end: u32) -> Result<Line, AllocError>
    ensures { IfOk result (λ text. text ≡ records_text end) }
{
    let mut text = Vec::new(alloc);
    for number in 0..end {
        text.extend_from_slice(&row(number))?;
    }
    Ok(Line::of_vec(text))
}

/// The text of the table's file.
pub(crate) fn table_text(alloc: Global) -> Result<Line, AllocError>
    ensures { IfOk result (λ text. text ≡ table_text) }
{
    records_text(alloc, RECORDS)
}
