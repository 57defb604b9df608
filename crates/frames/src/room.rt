//! Frames that are put together in room which is kept.
ghost use Rattle.std.specs.Prelude.{◌≡◌, ◌-◌, ◌^◌, ◌<◌, ◌++◌, [], ◌∷◌, length, OnOk};
ghost use Rattle.chunk_core.specs.Texts.{frame_text};
ghost use Rattle.device_port.specs.Sink.{Puts};

use crate::frame::{LONGEST_GATHERED, header_of, put_in_parts};
use device_port::{Failed, Sink, put};
use std::alloc::{AllocError, Global};

/// Room in which frames are put together, one after another.
#[derive(Drop)]
pub struct FrameRoom {
    text: Vec<u8>,
}

impl FrameRoom {
    /// Room for the longest frame that is written in one call.
    pub fn new(alloc: Global) -> Result<FrameRoom, AllocError> {
        let text = Vec::with_capacity(alloc, LONGEST_GATHERED + 97)?;
        Ok(FrameRoom { text })
    }

    /// Puts a header, a payload and a line end together.
    fn gather(&mut self, header: &[u8], payload: &[u8]) -> Result<(), AllocError>
        ensures { OnOk result (self.new.text.items ≡ header.now ++ (payload.now ++ 10 ∷ [])) }
    {
        self.text.clear();
        self.text.extend_from_slice(header)?;
        self.text.extend_from_slice(payload)?;
        self.text.push(b'\n')?;
        Ok(())
    }
}

/// Writes one frame as `put_frame` does, and puts a short one together in this room, so that no room is cleared
/// for it.
pub fn put_frame_in<K: Sink>(
    room: &mut FrameRoom,
    out: &mut K,
    stream: u32,
    payload: &[u8],
) -> Result<(), Failed>
    requires some { 0 < length payload.now }
    requires room { (K.told out.old).faults < 2 ^ 64 - 1 }
    ensures { Puts (K.told out.old) (K.told out.new) (frame_text stream payload.now) result }
{
    let header = header_of(stream, payload.len());
    if payload.len() > LONGEST_GATHERED {
        return put_in_parts(out, header.as_slice(), payload);
    }
    match room.gather(header.as_slice(), payload) {
        Ok(()) => put(out, room.text.as_slice()),
        Err(AllocError) => put_in_parts(out, header.as_slice(), payload),
    }
}
