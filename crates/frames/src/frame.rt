//! One frame of the output.
ghost use Rattle.std.specs.Prelude.{◌≡◌, ◌≢◌, ◌+◌, ◌-◌, ◌^◌, ◌<◌, ◌≤◌, ◌++◌, [], ◌∷◌, length};
ghost use Rattle.chunk_core.specs.Elements.{elements};
ghost use Rattle.chunk_core.specs.Texts.{frame_text};
ghost use Rattle.device_port.specs.Sink.{Puts};
ghost use Rattle.frames.specs.Frame.{PutsLoad, PutsText, header_text};

use crate::room::{FrameRoom, put_frame_in};
use arrayvec::ArrayVec;
use chunk_core::{Load, render};
use device_port::{Failed, Sink, put};
use itoa::Buffer;
use std::alloc::{AllocError, Global};

/// The longest payload that is written in one call with its header.
pub(crate) const LONGEST_GATHERED: usize = 8000;

/// The longest of them that takes the smaller room, since room is cleared first: a whole read by default.
const LONGEST_SMALL: usize = 4096;

/// Why a load wasn't printed.
#[derive(Clone, Copy, Debug, PartialEq, Eq)]
pub enum NotPut {
    /// A write failed.
    Unwritten,
    /// Memory was wanting, and nothing was written.
    Memory,
}

/// The first line of a frame: the stream's number and the payload's length in bytes.
pub(crate) fn header_of(stream: u32, size: usize) -> ArrayVec<u8, 96>
    ensures text { result.items ≡ header_text stream size }
    ensures fits { length result.items ≤ 96 }
{
    let mut header = ArrayVec::new();
    let mut digits = Buffer::new();
    let _ = header.try_extend_from_slice(digits.format(stream).as_bytes());
    let _ = header.try_extend_from_slice(b" ");
    let _ = header.try_extend_from_slice(digits.format(size).as_bytes());
    let _ = header.try_extend_from_slice(b"\n");
    header
}

/// Writes one frame, without memory: the stream's number, the payload's length, the payload and
/// a line end. A frame of a short payload is one write call.
pub fn put_frame<K: Sink>(out: &mut K, stream: u32, payload: &[u8]) -> Result<(), Failed>
    requires some { 0 < length payload.now }
    requires room { (K.told out.old).faults < 2 ^ 64 - 1 }
    ensures { Puts (K.told out.old) (K.told out.new) (frame_text stream payload.now) result }
{
    let header = header_of(stream, payload.len());
    if payload.len() <= LONGEST_SMALL {
        put_gathered::<K, 4224>(out, header.as_slice(), payload)
    } else if payload.len() <= LONGEST_GATHERED {
        put_gathered::<K, 8192>(out, header.as_slice(), payload)
    } else {
        put_in_parts(out, header.as_slice(), payload)
    }
}

/// Writes a frame as one text, which has room for it.
fn put_gathered<K: Sink, const ROOM: usize>(
    out: &mut K,
    header: &[u8],
    payload: &[u8],
) -> Result<(), Failed>
    requires fits { length header.now + length payload.now < ROOM }
    requires small { ROOM ≤ 8192 }
    requires room { (K.told out.old).faults < 2 ^ 64 - 1 }
    ensures { Puts (K.told out.old) (K.told out.new) (header.now ++ (payload.now ++ 10 ∷ [])) result }
{
    let mut frame = ArrayVec::<u8, ROOM>::new();
    let _ = frame.try_extend_from_slice(header);
    let _ = frame.try_extend_from_slice(payload);
    let _ = frame.try_extend_from_slice(b"\n");
    put(out, frame.as_slice())
}

pub(crate) fn put_in_parts<K: Sink>(
    out: &mut K,
    header: &[u8],
    payload: &[u8],
) -> Result<(), Failed>
    requires room { (K.told out.old).faults < 2 ^ 64 - 1 }
    ensures { Puts (K.told out.old) (K.told out.new) (header.now ++ (payload.now ++ 10 ∷ [])) result }
{
    put(out, header)?;
    put_line(out, payload)
}

fn put_line<K: Sink>(out: &mut K, payload: &[u8]) -> Result<(), Failed>
    requires room { (K.told out.old).faults < 2 ^ 64 - 1 }
    ensures { Puts (K.told out.old) (K.told out.new) (payload.now ++ 10 ∷ []) result }
{
    put(out, payload)?;
    put(out, b"\n")
}

/// Prints a load as one frame. Bytes are written as they are, and take no memory; another load is
/// rendered first.
pub fn put_load<K: Sink>(alloc: Global, out: &mut K, stream: u32, load: &Load) -> Result<(), NotPut>
    requires some { 0 < length (elements load.now) }
    requires room { (K.told out.old).faults < 2 ^ 64 - 1 }
    ensures { PutsLoad (K.told out.old) (K.told out.new) stream load.now result }
{
    put_text_of(alloc, None, out, stream, load)
}

/// Prints a load as `put_load` does, and puts a short frame together in this room.
pub fn put_load_in<K: Sink>(
    alloc: Global,
    room: &mut FrameRoom,
    out: &mut K,
    stream: u32,
    load: &Load,
) -> Result<(), NotPut>
    requires some { 0 < length (elements load.now) }
    requires room { (K.told out.old).faults < 2 ^ 64 - 1 }
    ensures { PutsLoad (K.told out.old) (K.told out.new) stream load.now result }
{
    put_text_of(alloc, Some(room), out, stream, load)
}

fn put_text_of<K: Sink>(
    alloc: Global,
    room: Option<&mut FrameRoom>,
    out: &mut K,
    stream: u32,
    load: &Load,
) -> Result<(), NotPut>
    requires some { 0 < length (elements load.now) }
    requires room { (K.told out.old).faults < 2 ^ 64 - 1 }
    ensures { PutsLoad (K.told out.old) (K.told out.new) stream load.now result }
{
    match load {
        Load::Bytes(bytes) => put_text(room, out, stream, bytes.as_slice()),
        _ => match render(alloc, load) {
            Ok(text) => put_text(room, out, stream, text.as_slice()),
            Err(AllocError) => Err(NotPut::Memory),
        },
    }
}

fn put_text<K: Sink>(
    room: Option<&mut FrameRoom>,
    out: &mut K,
    stream: u32,
    text: &[u8],
) -> Result<(), NotPut>
    requires some { 0 < length text.now }
    requires room { (K.told out.old).faults < 2 ^ 64 - 1 }
    ensures { PutsText (K.told out.old) (K.told out.new) (frame_text stream text.now) result }
{
    let put = match room {
        Some(room) => put_frame_in(room, out, stream, text),
        None => put_frame(out, stream, text),
    };
    match put {
        Ok(()) => Ok(()),
        Err(Failed) => Err(NotPut::Unwritten),
    }
}
