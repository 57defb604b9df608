//! The text that pipes are run over: lines of some words, the same at each run.
use std::alloc::{AllocError, Global};

/// The words that lines are made of.
static WORDS: [&str; 32] = [
    "stream", "of", "größe", "needle", "and", "the", "chunk", "naïve", "scope", "row", "ledger",
    "東京", "which", "was", "opened", "once", "señor", "closed", "in", "order", "pipes", "give",
    "what", "they", "get", "über", "lines", "by", "a", "window", "on", "vectors",
];

/// How many words a line has.
const WORDS_A_LINE: u32 = 11;

/// How many lines the text has, so that it comes near to 1,048,576 bytes.
const LINES: u32 = 17_452;

/// The text, about a megabyte.
pub fn text(alloc: Global) -> Result<Vec<u8>, AllocError> {
    text_with(alloc, false)
}

/// The same text, where each 64th line begins with a byte that no UTF-8 has.
pub fn broken_text(alloc: Global) -> Result<Vec<u8>, AllocError> {
    text_with(alloc, true)
}

fn text_with(alloc: Global, broken: bool) -> Result<Vec<u8>, AllocError> {
    let mut text = Vec::new(alloc);
    for line in 0..LINES {
        if broken && line % 64 == 0 {
            text.push(b'\xFF')?;
        }
        put_line(&mut text, words_of(line))?;
    }
    Ok(text)
}

/// Whose words a line has: each fourth line is the one before it.
fn words_of(line: u32) -> u32 {
    if line % 4 == 3 { line - 1 } else { line }
}

/// The words of the same lines as comma-separated values, where each eighth line begins with a field
/// in quotes.
pub fn rows_text(alloc: Global) -> Result<Vec<u8>, AllocError> {
    let mut text = Vec::new(alloc);
    for line in 0..LINES {
        let words = words_of(line);
        if line % 8 == 0 {
            text.extend_from_slice(b"\"in, \"\"quotes\"\"\"")?;
        } else {
            text.extend_from_slice(word_of(words, 0).as_bytes())?;
        }
        for place in 1..WORDS_A_LINE {
            text.push(b',')?;
            text.extend_from_slice(word_of(words, place).as_bytes())?;
        }
        text.push(b'\n')?;
    }
    Ok(text)
}

/// A table of the words: a number for each second one.
pub fn table_text(alloc: Global) -> Result<Vec<u8>, AllocError> {
    let mut text = Vec::new(alloc);
    for (number, word) in WORDS.iter().enumerate() {
        if number % 2 == 0 {
            text.extend_from_slice(format!(in alloc; "{word},{number}\n")?.as_bytes())?;
        }
    }
    Ok(text)
}

fn put_line(text: &mut Vec<u8>, line: u32) -> Result<(), AllocError> {
    for place in 0..WORDS_A_LINE {
        if place > 0 {
            text.push(b' ')?;
        }
        text.extend_from_slice(word_of(line, place).as_bytes())?;
    }
    text.push(b'\n')?;
    Ok(())
}

/// The word of a line at a place.
fn word_of(line: u32, place: u32) -> &'static str {
    let number = mixed(line.wrapping_mul(WORDS_A_LINE).wrapping_add(place));
    WORDS[number as usize % 32]
}

/// A number in which each bit depends on each bit of the given one.
fn mixed(number: u32) -> u32 {
    let once = (number ^ (number >> 16)).wrapping_mul(0x7FEB_352D);
    let twice = (once ^ (once >> 15)).wrapping_mul(0x846C_A68B);
    twice ^ (twice >> 16)
}
