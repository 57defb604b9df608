//! Letters as capitals.
ghost use Rattle.std.specs.Prelude.{◌≡◌, ◌≢◌, [], IfOk, map};
ghost use Rattle.std.specs.Char.{to_ascii_uppercase};
ghost use Rattle.chunk_core.specs.Elements.{elements, kind_of};
ghost use Rattle.chunk_core.specs.Elements.LoadKind.{Rows};
ghost use Rattle.chunk_core.specs.Feed.{Meaning};
ghost use Rattle.pull_nodes.specs.Pipes.{IsMeaningOf};
ghost use Rattle.pull_nodes.specs.Upper.{uppercase_of};
ghost use Rattle.pull_nodes.specs.declared.pipe.Pipe.TheVariants as pipe;
ghost use Rattle.text_pipes.specs.UpperState.{StandsFor};

use chunk_core::{Chunk, Fed, Feed, Line, Load, Spare};
use std::alloc::{AllocError, Global};

/// `Upper`, which keeps nothing of what it is fed.
#[derive(Drop)]
pub struct UpperPipe {
    spare: Spare,
}

/// In place where nobody else has the bytes. Kept apart, so that the loop over bytes has the registers
/// to itself.
#[inline(never)]
fn upper_bytes(alloc: Global, bytes: Chunk<u8>) -> Result<Chunk<u8>, AllocError>
    ensures { IfOk result (λ upper. upper ≡ map to_ascii_uppercase bytes) }
{
    match bytes.into_vec() {
        Ok(mut own) => {
            own.as_mut_slice().make_ascii_uppercase();
            Chunk::of_vec(alloc, own)
        }
        Err(shared) => {
            let upper = shared.as_slice().to_ascii_uppercase(alloc)?;
            Chunk::of_vec(alloc, upper)
        }
    }
}

fn upper_line(alloc: Global, spare: &mut Spare, line: &Line) -> Result<Line, AllocError>
    ensures { IfOk result (λ upper. upper ≡ map to_ascii_uppercase line.now) }
{
    let mut text = spare.empty(alloc);
    text.extend_from_slice(line.as_slice())?;
    text.as_mut_slice().make_ascii_uppercase();
    Ok(Line::of_vec(text))
}

fn upper_lines(alloc: Global, spare: &mut Spare, lines: &[Line]) -> Result<Chunk<Line>, AllocError>
    ensures { IfOk result (λ upper. upper ≡ map (map to_ascii_uppercase) lines.now) }
{
    let mut upper = Vec::with_capacity(alloc, lines.len())?;
    for line in lines {
        upper.push(upper_line(alloc, spare, line)?)?;
    }
    spare.give(alloc, upper)
}

impl UpperPipe {
    /// Nothing was read.
    pub fn new(alloc: Global) -> Result<UpperPipe, AllocError>
        ensures { IfOk result (λ q. (m : Meaning) → IsMeaningOf pipe.Upper m → StandsFor q m []) }
    {
        Ok(UpperPipe {
            spare: Spare::new(alloc),
        })
    }

    fn take(&mut self, alloc: Global, load: Load) -> Result<Load, AllocError>
        requires { kind_of load ≢ Rows }
        ensures list { IfOk result (λ upper. elements upper ≡ map uppercase_of (elements load)) }
        ensures kind { IfOk result (λ upper. kind_of upper ≡ kind_of load) }
    {
        match load {
            Load::Bytes(bytes) => Ok(Load::Bytes(upper_bytes(alloc, bytes)?)),
            Load::Lines(lines) => {
                self.spare.regain();
                let upper = upper_lines(alloc, &mut self.spare, lines.as_slice())?;
                Ok(Load::Lines(upper))
            }
            Load::Rows(_) => unreachable!(),
        }
    }
}

impl Feed for UpperPipe {
    ghost use Rattle.std.specs.Prelude.{refl};
    ghost use Rattle.pull_nodes.specs.declared.pipe.Pipe.TheVariants as pipe;
    ghost use Rattle.pull_nodes.proofs.Meanings.{sound_from};
    ghost use Rattle.text_pipes.specs.UpperState.{StandsFor, Comes};

    ghost stands = { StandsFor };

    ghost comes = { Comes };

    ghost sound = { λ q m xs h. sound_from pipe.Upper m h xs refl };

    fn feed(&mut self, alloc: Global, load: Load) -> Result<Fed, AllocError> {
        Ok(Fed::Out(self.take(alloc, load)?))
    }

    fn finish(&mut self, _alloc: Global) -> Result<Fed, AllocError> {
        Ok(Fed::End)
    }
}
