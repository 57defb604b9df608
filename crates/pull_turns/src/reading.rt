//! One read of a device.
ghost use Rattle.std.specs.Prelude.{◌≡◌, ◌-◌, ◌^◌, ◌<◌, length, min, IfOk, OnErr};
ghost use Rattle.device_port.specs.declared.device.Mode.TheVariants as mode;
ghost use Rattle.pull_turns.specs.Around.{IsHeld};
ghost use Rattle.pull_turns.specs.Moves.{ReadsPiece, ReadsPlace};

use crate::outside::Outside;
use crate::turn::Turn;
use chunk_core::{Chunk, Code, Load, Refill};
use device_port::Failed;
use std::alloc::{AllocError, Global};

/// The most bytes of one device.
const ENDLESS: u64 = 1 << 40;

/// The piece that was read last. Once nobody else has it, the next read fills its memory again. No
/// clause speaks of it: each read answers as one that makes its piece anew.
#[derive(Drop)]
pub(crate) struct SparePiece {
    last: Refill<u8>,
}

impl SparePiece {
    /// Nothing is spare.
    pub(crate) fn new() -> SparePiece {
        SparePiece {
            last: Refill::new(),
        }
    }

    /// So many bytes to read into, whatever they are.
    fn buffer(&mut self, alloc: Global, size: usize) -> Result<Vec<u8>, AllocError>
        ensures { IfOk result (λ bytes. length bytes.items ≡ size) }
    {
        let mut bytes = match self.last.regain() {
            Some(bytes) => bytes,
            None => Vec::new(alloc),
        };
        bytes.resize(size, 0)?;
        Ok(bytes)
    }

    /// The bytes as a chunk, of which a share is kept.
    fn give(&mut self, alloc: Global, bytes: Vec<u8>) -> Result<Chunk<u8>, AllocError>
        ensures { IfOk result (λ chunk. chunk ≡ bytes.items) }
    {
        self.last.give(alloc, bytes)
    }
}

/// Reads a piece of at most `chunk` bytes: asks for so many, or for what is left below the limit.
pub(crate) fn read_piece<G: Outside>(
    alloc: Global,
    outside: &mut G,
    desk: &mut G::Desk,
    place: u32,
    given: &mut u64,
    chunk: u32,
    spare: &mut SparePiece,
) -> Result<Turn, AllocError>
    requires fits { G.fits outside.old desk.old }
    requires held { IsHeld (G.seen outside.old) place }
    requires mode { ((G.seen outside.old).told place).place.mode ≡ mode.Read }
    requires room { ((G.seen outside.old).told place).read_faults < 2 ^ 64 - 1 }
    requires at { ((G.seen outside.old).told place).at ≡ given.old }
    requires chunk { 0 < chunk }
    ensures piece { IfOk result (λ t. ReadsPiece (G.seen outside.old) (G.seen outside.new) chunk place given.old given.new t) }
    ensures place { OnErr result (ReadsPlace (G.seen outside.old) (G.seen outside.new) place) }
    ensures well { OnErr result (((G.seen outside.new).told place).read_faults ≡ ((G.seen outside.old).told place).read_faults) }
    ensures fits { G.fits outside.new desk.new }
    ensures since { G.since outside.old desk.old outside.new desk.new }
{
    if *given >= ENDLESS {
        return Ok(Turn::Fault(Code::Endless));
    }
    let mut bytes = spare.buffer(alloc, room(*given, chunk))?;
    match outside.read(desk, place, &mut bytes) {
        Ok(0) => Ok(Turn::Done),
        Ok(count) => {
            bytes.truncate(count);
            *given += count as u64;
            Ok(Turn::Chunk(Load::Bytes(spare.give(alloc, bytes)?)))
        }
        Err(Failed) => Ok(Turn::Fault(Code::Read)),
    }
}

/// How many bytes are asked for: a whole piece, or what is left below the limit.
fn room(given: u64, chunk: u32) -> usize
    requires limit { given < 2 ^ 40 }
    requires chunk { 0 < chunk }
    ensures { result ≡ min chunk (2 ^ 40 - given) }
{
    let left = ENDLESS - given;
    if left < chunk as u64 {
        left as usize
    } else {
        chunk as usize
    }
}
