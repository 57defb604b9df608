//! Loads as the text that is printed of them.
ghost use Rattle.std.specs.Prelude.{◌≡◌, IfOk};
ghost use Rattle.chunk_core.specs.Elements.{elements, rendering_of};
ghost use Rattle.stream_jobs.specs.Messages.{IsTextOf};

use chunk_core::{Chunk, Load, render};
use std::alloc::{AllocError, Global};

/// The text of a load, which takes memory.
fn text_of(alloc: Global, load: &Load) -> Result<Chunk<u8>, AllocError>
    ensures { IfOk result (λ text. text ≡ rendering_of (elements load.now)) }
{
    let text = render(alloc, load)?;
    Chunk::of_vec(alloc, text.into_vec())
}

/// The load as the text that is printed of it. Where there is no memory for that it is the load itself,
/// of which the same is printed.
pub(crate) fn rendered(alloc: Global, load: Load) -> Load
    ensures { IsTextOf load result }
{
    match load {
        Load::Bytes(bytes) => Load::Bytes(bytes),
        load => match text_of(alloc, &load) {
            Ok(text) => Load::Bytes(text),
            Err(AllocError) => load,
        },
    }
}
