//! Contents at random.
use crate::dice::Dice;
use std::alloc::AllocError;

/// What a content is to look like.
#[derive(Clone, Copy, PartialEq, Eq)]
pub enum Flavour {
    Any,
    /// Records of a few fields, mostly as many in each.
    Records,
    /// A few elements, whatever steps it goes through.
    Small,
}

type Letters = &'static [u8; 6];

const IN_LINES: [Letters; 3] = [b"ababab", b"akxybb", b"aERb b"];

const IN_FIELDS: Letters = b"kvz019";

const IN_SMALL: [Letters; 4] = [b"ab\nab\n", b"k\n\nk\n\n", b"a,\na,\n", b"b\r\nb\r\n"];

const LINE_ENDS: [&[u8]; 3] = [b"\n", b"\r\n", b"\r"];

const IN_QUOTES: [&[u8]; 5] = [b",", b"\n", b"\"\"", b"\r\n", b""];

/// Characters of each length.
const GOOD: [&str; 6] = ["a", "Z", "\n", "é", "€", "𝄞"];

/// Bytes that are none.
const BAD: [&[u8]; 8] = [
    b"\xff",
    b"\xe2\x82",
    b"\xf0\x9d",
    b"\xc0\x80",
    b"\xed\xa0\x80",
    b"\xf4\x90\x80\x80",
    b"\x80",
    b"\xe0\x80",
];

const UNITS: [&[u8]; 5] = [b"x", b"ab\n", b"k,v\n", b"0123456789abcdef", b"\xc3\xa9\r"];

/// Up to so many of these letters.
fn letters_of(dice: &mut Dice, letters: Letters, most: usize) -> Result<Vec<u8>, AllocError> {
    let mut bytes = Vec::new(dice.alloc);
    for _ in 0..dice.few(most) {
        bytes.push(dice.pick(letters))?;
    }
    Ok(bytes)
}

/// Lines of a few letters, now and then one twice, and maybe some behind the last line end.
fn text_of(dice: &mut Dice) -> Result<Vec<u8>, AllocError> {
    let letters = dice.pick(&IN_LINES);
    let ends = if dice.chance(3) { 3 } else { 1 };
    let (mut bytes, mut line) = (Vec::new(dice.alloc), Vec::new(dice.alloc));
    for _ in 0..dice.few(24) {
        if !dice.chance(3) {
            line = letters_of(dice, letters, 8)?;
        }
        bytes.extend_from_slice(&line)?;
        bytes.extend_from_slice(LINE_ENDS[dice.below(ends)])?;
    }
    bytes.extend_from_slice(&letters_of(dice, letters, 5)?)?;
    Ok(bytes)
}

/// A field, now and then in quotes, or with a quote where none is expected.
fn field_of(dice: &mut Dice) -> Result<Vec<u8>, AllocError> {
    let is_quoted = dice.chance(6);
    let mut field = Vec::new(dice.alloc);
    if is_quoted || dice.chance(80) {
        field.push(b'"')?;
    }
    field.extend_from_slice(&letters_of(dice, IN_FIELDS, 4)?)?;
    if is_quoted {
        field.extend_from_slice(dice.pick(&IN_QUOTES))?;
    }
    if is_quoted || dice.chance(80) {
        field.push(b'"')?;
    }
    Ok(field)
}

/// A record of so many fields, without its line end.
fn record_of(dice: &mut Dice, width: usize) -> Result<Vec<u8>, AllocError> {
    let mut bytes = Vec::new(dice.alloc);
    for place in 0..width {
        if place != 0 {
            bytes.push(b',')?;
        }
        bytes.extend_from_slice(&field_of(dice)?)?;
    }
    Ok(bytes)
}

/// Records, now and then one of another length or one twice.
fn records_of(dice: &mut Dice) -> Result<Vec<u8>, AllocError> {
    let (width, end) = (dice.few(3), dice.pick(&LINE_ENDS));
    let (mut bytes, mut line) = (Vec::new(dice.alloc), Vec::new(dice.alloc));
    if dice.chance(20) {
        bytes.extend_from_slice(b"\xef\xbb\xbf")?;
    }
    for _ in 0..dice.few(16) {
        let more = if dice.chance(40) { dice.below(3) } else { 1 };
        if !dice.chance(4) {
            line = record_of(dice, width + more)?;
        }
        bytes.extend_from_slice(&line)?;
        bytes.extend_from_slice(end)?;
    }
    if dice.chance(40) {
        bytes.push(0xff)?;
    }
    Ok(bytes)
}

/// Characters of each length, now and then bytes that are none.
fn characters_of(dice: &mut Dice) -> Result<Vec<u8>, AllocError> {
    let mut bytes = Vec::new(dice.alloc);
    for _ in 0..dice.few(60) {
        let part = if dice.chance(30) {
            dice.pick(&BAD)
        } else {
            dice.pick(&GOOD).as_bytes()
        };
        bytes.extend_from_slice(part)?;
    }
    Ok(bytes)
}

/// Many bytes, often as many as some reads give.
fn long_of(dice: &mut Dice) -> Result<Vec<u8>, AllocError> {
    let unit = dice.pick(&UNITS);
    let size = match dice.below(4) {
        0 => dice.between(4_095, 4_097),
        1 => dice.below(9_000),
        _ => dice.below(1_000),
    };
    let mut bytes = Vec::new(dice.alloc);
    for byte in unit.iter().cycle().take(size) {
        bytes.push(*byte)?;
    }
    Ok(bytes)
}

/// Any bytes.
fn bytes_of(dice: &mut Dice) -> Result<Vec<u8>, AllocError> {
    let mut bytes = Vec::new(dice.alloc);
    for _ in 0..dice.few(50) {
        bytes.push(dice.below(256) as u8)?;
    }
    Ok(bytes)
}

/// A content of a flavour.
pub fn content_of(dice: &mut Dice, flavour: Flavour) -> Result<Vec<u8>, AllocError> {
    let letters = dice.pick(&IN_SMALL);
    match (flavour, dice.below(12)) {
        (Flavour::Small, _) => letters_of(dice, letters, 4),
        (Flavour::Records, _) | (_, 0 | 1) => records_of(dice),
        (_, 2..=6) => text_of(dice),
        (_, 7 | 8) => characters_of(dice),
        (_, 9) => long_of(dice),
        (_, 10) => bytes_of(dice),
        _ => Ok(Vec::new(dice.alloc)),
    }
}
