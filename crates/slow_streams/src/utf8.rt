//! What UTF-8 is, lines, and lines of hexadecimal digits.
use crate::given::{Item, line_of};
use printed_parts::Fault;
use std::alloc::{AllocError, Global};

/// What stands at the front of bytes.
#[derive(Clone, Copy)]
enum Front {
    /// A character of so many bytes.
    Whole(usize),
    /// So many bytes that nothing makes UTF-8.
    Bad(usize),
    /// Bytes that may still become a character.
    Short,
}

/// How long a character is that begins with this byte, and between which bytes its second one is.
fn shape_of(first: u8) -> Option<(usize, u8, u8)> {
    match first {
        0xc2..=0xdf => Some((2, 0x80, 0xbf)),
        0xe0 => Some((3, 0xa0, 0xbf)),
        0xed => Some((3, 0x80, 0x9f)),
        0xe1..=0xef => Some((3, 0x80, 0xbf)),
        0xf0 => Some((4, 0x90, 0xbf)),
        0xf1..=0xf3 => Some((4, 0x80, 0xbf)),
        0xf4 => Some((4, 0x80, 0x8f)),
        _ => None,
    }
}

/// What stands at the front of these bytes, the first of which is this.
fn front_of(bytes: &[u8], first: u8) -> Front {
    if first < 0x80 {
        return Front::Whole(1);
    }
    let Some((length, mut least, mut most)) = shape_of(first) else {
        return Front::Bad(1);
    };
    for place in 1..length {
        match bytes.get(place) {
            None => return Front::Short,
            Some(byte) if *byte < least || *byte > most => return Front::Bad(place),
            Some(_) => (least, most) = (0x80, 0xbf),
        }
    }
    Front::Whole(length)
}

/// How long the longest front is that is UTF-8, and the fault behind it, of bytes that are whole or not.
pub(crate) fn text_front(bytes: &[u8], is_whole: bool) -> (usize, Option<Fault>) {
    let mut at: usize = 0;
    for _ in 0..bytes.len() {
        let Some(rest @ [first, ..]) = bytes.get(at..) else {
            break;
        };
        match front_of(rest, *first) {
            Front::Whole(length) => at = at.saturating_add(length),
            Front::Bad(_) => return (at, Some(Fault::Malformed)),
            Front::Short => return (at, is_whole.then_some(Fault::Truncated)),
        }
    }
    (at, None)
}

/// The bytes with each part that is no UTF-8 as U+FFFD. Of a front what may still become a character is left out.
pub(crate) fn mended(alloc: Global, bytes: &[u8], is_whole: bool) -> Result<Vec<u8>, AllocError> {
    let mut text = Vec::new(alloc);
    let mut at: usize = 0;
    for _ in 0..bytes.len() {
        let Some(rest @ [first, ..]) = bytes.get(at..) else {
            break;
        };
        let (length, part): (usize, &[u8]) = match front_of(rest, *first) {
            Front::Whole(length) => (length, rest.get(..length).unwrap_or(rest)),
            Front::Bad(length) => (length, b"\xef\xbf\xbd"),
            Front::Short if is_whole => (rest.len(), b"\xef\xbf\xbd"),
            Front::Short => break,
        };
        text.extend_from_slice(part)?;
        at = at.saturating_add(length);
    }
    Ok(text)
}

/// The lines that ended, and of whole bytes the rest too.
pub fn lines_of(alloc: Global, bytes: &[u8], is_whole: bool) -> Result<Vec<Item>, AllocError> {
    let (mut lines, mut line) = (Vec::new(alloc), Vec::new(alloc));
    let mut before = b'x';
    for byte in bytes {
        match (*byte, before) {
            (b'\n', b'\r') => {}
            (b'\n' | b'\r', _) => {
                lines.push(line_of(alloc, &line)?)?;
                line.clear();
            }
            _ => line.push(*byte)?,
        }
        before = *byte;
    }
    if is_whole && !line.is_empty() {
        lines.push(line_of(alloc, &line)?)?;
    }
    Ok(lines)
}

/// A line of hexadecimal digits for each sixteen bytes, and of whole bytes one for the rest.
pub(crate) fn dump_of(
    alloc: Global,
    bytes: &[u8],
    is_whole: bool,
) -> Result<Vec<Item>, AllocError> {
    let mut lines = Vec::new(alloc);
    for part in bytes.chunks(16) {
        if is_whole || part.len() == 16 {
            let mut line = String::new(alloc);
            for byte in part {
                write!(line, "{byte:02x}")?;
            }
            lines.push(line_of(alloc, line.as_bytes())?)?;
        }
    }
    Ok(lines)
}
