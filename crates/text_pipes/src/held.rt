//! What pipes hold back of bytes.
ghost use Rattle.std.specs.Prelude.{◌≡◌, ◌++◌, [], IfOk};

use chunk_core::Chunk;
use std::alloc::{AllocError, Global};
use std::mem;

/// The held bytes and then a load's, without a copy where none are held. None are held afterwards.
pub(crate) fn take_held(
    alloc: Global,
    held: &mut Vec<u8>,
    bytes: Chunk<u8>,
) -> Result<Chunk<u8>, AllocError>
    ensures all { IfOk result (λ all. all ≡ held.old.items ++ bytes) }
    ensures none { held.new.items ≡ [] }
{
    if held.is_empty() {
        return Ok(bytes);
    }
    let mut all = mem::replace(held, Vec::new(alloc));
    all.extend_from_slice(bytes.as_slice())?;
    Chunk::of_vec(alloc, all)
}
