//! Frames.
use crate::lines::{line_at, number_of};
use std::alloc::{AllocError, Global};

/// A frame: its stream, and where its payload stands.
#[derive(Clone, Copy)]
pub struct Frame {
    pub stream: usize,
    pub from: usize,
    pub to: usize,
}

/// The stream and the length in the head that begins here, and the place behind it.
fn head_at(out: &[u8], at: usize) -> Option<(usize, usize, usize)> {
    let (line, from) = line_at(out, at)?;
    let (stream, length) = line.split_once(' ')?;
    let length = number_of(length)?;
    if length == 0 {
        return None;
    }
    Some((number_of(stream)?, length, from))
}

/// The frame that begins here.
fn frame_at(out: &[u8], at: usize) -> Option<Frame> {
    let (stream, length, from) = head_at(out, at)?;
    let to = from.checked_add(length)?;
    (out.get(to) == Some(&b'\n')).then_some(Frame { stream, from, to })
}

/// The whole frames at the front of an output, and the place behind them.
pub fn frames_of(alloc: Global, out: &[u8]) -> Result<(Vec<Frame>, usize), AllocError> {
    let mut frames = Vec::new(alloc);
    let mut at: usize = 0;
    for _ in 0..out.len() {
        let Some(frame) = frame_at(out, at) else {
            break;
        };
        frames.push(frame)?;
        at = frame.to.saturating_add(1);
    }
    Ok((frames, at))
}

/// The payloads of a stream one behind the other, and the places in that at which they end.
pub fn payloads_of(
    alloc: Global,
    out: &[u8],
    frames: &[Frame],
    stream: usize,
) -> Result<(Vec<u8>, Vec<usize>), AllocError> {
    let (mut text, mut places) = (Vec::new(alloc), Vec::new(alloc));
    for frame in frames {
        if frame.stream == stream {
            text.extend_from_slice(out.get(frame.from..frame.to).unwrap_or(b""))?;
            places.push(text.len())?;
        }
    }
    Ok((text, places))
}

/// What stands behind the whole frames of an output that was cut, where it is the front of a further frame with its head: its stream, and
/// how much of its payload is there.
pub fn partial_frame(rest: &[u8]) -> Option<(usize, &[u8])> {
    let (stream, length, from) = head_at(rest, 0)?;
    let payload = rest.get(from..)?;
    (payload.len() <= length).then_some((stream, payload))
}

/// Appends a frame of stream 0, where its payload isn't empty.
pub fn put_frame(text: &mut Vec<u8>, alloc: Global, payload: &[u8]) -> Result<(), AllocError> {
    if payload.is_empty() {
        return Ok(());
    }
    text.extend_from_slice(format!(in alloc; "0 {}\n", payload.len())?.as_bytes())?;
    text.extend_from_slice(payload)?;
    text.push(b'\n')?;
    Ok(())
}
