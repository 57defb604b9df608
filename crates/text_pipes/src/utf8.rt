//! Bytes as far as they are UTF-8.
ghost use Rattle.std.specs.Prelude.{◌≤◌, length};

use crate::held::take_held;
use crate::loads::into_bytes;
use chunk_core::{Chunk, Code, Fed, Feed, Load};
use std::alloc::{AllocError, Global};

/// `Utf8`: the bytes of a sequence that isn't whole yet.
#[derive(Drop)]
pub struct Utf8Pipe {
    held: Vec<u8>,
    ghost short: { length held.items ≤ 3 },
}

impl Utf8Pipe {
    ghost use Rattle.std.specs.Prelude.{[], IfOk};
    ghost use Rattle.chunk_core.specs.Feed.{Meaning};
    ghost use Rattle.pull_nodes.specs.Pipes.{IsMeaningOf};
    ghost use Rattle.pull_nodes.specs.declared.pipe.Pipe.TheVariants as pipe;
    ghost use Rattle.text_pipes.specs.Utf8State.{StandsFor};

    /// No byte was read.
    pub fn new(alloc: Global) -> Result<Utf8Pipe, AllocError>
        ensures { IfOk result (λ q. (m : Meaning) → IsMeaningOf pipe.Utf8 m → StandsFor q m []) }
    {
        Ok(Utf8Pipe {
            held: Vec::new(alloc),
        })
    }
}

impl Feed for Utf8Pipe {
    ghost use Rattle.std.proofs.Common.{ap};
    ghost use Rattle.pull_nodes.specs.declared.pipe.Pipe.TheVariants as pipe;
    ghost use Rattle.pull_nodes.proofs.Meanings.{sound_from};
    ghost use Rattle.text_pipes.specs.Utf8State.{StandsFor, fault_where};

    ghost stands = { StandsFor };

    // the first answer behind the input is the last
    ghost comes = { λ _ _ _ _. ⊥ };

    ghost sound = { λ q m xs h. sound_from pipe.Utf8 m h.0 xs (ap fault_where h.1.fine) };

    fn feed(&mut self, alloc: Global, load: Load) -> Result<Fed, AllocError> {
        let mut bytes = take_held(alloc, &mut self.held, into_bytes(load))?;
        match simdutf8::compat::from_utf8(bytes.as_slice()) {
            Ok(_) => Ok(Fed::Out(Load::Bytes(bytes))),
            Err(error) => {
                let front = Load::Bytes(bytes.split(error.valid_up_to())?);
                if error.error_len().is_some() {
                    return Ok(Fed::Fault(front, Code::Malformed));
                }
                self.held = Vec::from_slice(alloc, bytes.as_slice())?;
                Ok(Fed::Out(front))
            }
        }
    }

    fn finish(&mut self, alloc: Global) -> Result<Fed, AllocError> {
        if self.held.is_empty() {
            return Ok(Fed::End);
        }
        let none = Load::Bytes(Chunk::of_vec(alloc, Vec::new(alloc))?);
        Ok(Fed::Fault(none, Code::Truncated))
    }
}
