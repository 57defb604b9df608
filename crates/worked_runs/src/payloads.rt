//! The frames at the front of an output.
use std::alloc::{AllocError, Global};
use std::str;

/// The number that the digits write.
fn number(digits: &[u8]) -> Option<usize> {
    let Ok(text) = str::from_utf8(digits) else {
        return None;
    };
    text.parse().ok()
}

/// The text in front of the first byte of that value, and the text behind it.
fn split_once(text: &[u8], byte: u8) -> Option<(&[u8], &[u8])> {
    let at = text.iter().position(|c| *c == byte)?;
    Some((text.get(..at)?, text.get(at.saturating_add(1)..)?))
}

/// The stream, the payload and what stands behind the frame that the text begins with.
fn first_frame(text: &[u8]) -> Option<(usize, &[u8], &[u8])> {
    let (stream, sized) = split_once(text, b' ')?;
    let (size, rest) = split_once(sized, b'\n')?;
    let stream = number(stream)?;
    let size = number(size)?;
    let payload = rest.get(..size)?;
    let back = rest.get(size.saturating_add(1)..)?;
    Some((stream, payload, back))
}

/// The payloads of the frames of each of so many streams, one behind the other.
pub(crate) fn payloads_of(
    alloc: Global,
    out: &[u8],
    streams: usize,
) -> Result<Vec<Vec<u8>>, AllocError> {
    let mut payloads = Vec::new(alloc);
    for _ in 0..streams {
        payloads.push(Vec::new(alloc))?;
    }
    let mut rest = out;
    for _ in 0..out.len() {
        let Some((stream, payload, back)) = first_frame(rest) else {
            break;
        };
        if let Some(text) = payloads.get_mut(stream) {
            text.extend_from_slice(payload)?;
        }
        rest = back;
    }
    Ok(payloads)
}

/// How many frames there are.
pub(crate) fn count_frames(out: &[u8]) -> usize {
    let mut count: usize = 0;
    let mut rest = out;
    for _ in 0..out.len() {
        let Some((_, _, back)) = first_frame(rest) else {
            break;
        };
        count = count.saturating_add(1);
        rest = back;
    }
    count
}
