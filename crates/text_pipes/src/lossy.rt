//! Bytes read as UTF-8, whatever they are.
ghost use Rattle.std.specs.Prelude.{◌≡◌, ◌+◌, ◌++◌, ◌≤◌, length, take, drop, IfOk, OnOk};
ghost use Rattle.std.specs.Str.Lossy.{utf8_lossy};
ghost use Rattle.pull_nodes.specs.Utf8.{is_unfinished, finished_front, unfinished_rest};

use crate::held::take_held;
use crate::loads::into_bytes;
use chunk_core::{Chunk, Fed, Feed, Load};
use std::alloc::{AllocError, Global};

/// The most bytes of a sequence that isn't whole.
const LONGEST: usize = 3;

/// So many bytes are read at once where a load has faults: those without one are copied as a whole.
const PART: usize = 512;

/// `Lossy`: the bytes of a sequence that isn't whole yet.
#[derive(Drop)]
pub struct LossyPipe {
    held: Vec<u8>,
    ghost short: { length held.items ≤ 3 },
}

/// Whether the bytes begin a sequence and end within it.
fn ends_within(bytes: &[u8]) -> bool
    ensures { result ≡ is_unfinished bytes.now }
{
    match simdutf8::compat::from_utf8(bytes) {
        Ok(_) => false,
        Err(error) => error.valid_up_to() == 0 && error.error_len().is_none(),
    }
}

/// The number of bytes before a sequence at the end that isn't whole.
fn finished_len(bytes: &[u8]) -> usize
    ensures front { take result bytes.now ≡ finished_front bytes.now }
    ensures rest { drop result bytes.now ≡ unfinished_rest bytes.now }
    ensures short { length bytes.now ≤ result + 3 }
    ensures within { result ≤ length bytes.now }
{
    let mut at = bytes.len().saturating_sub(LONGEST);
    'tails: while at < bytes.len() {
        if ends_within(&bytes[at..]) {
            return at;
        }
        at += 1;
    }
    at
}

/// Appends the bytes as text.
fn push_part(alloc: Global, text: &mut Vec<u8>, part: &[u8]) -> Result<(), AllocError>
    ensures { OnOk result (text.new.items ≡ text.old.items ++ utf8_lossy part.now) }
{
    if simdutf8::is_utf8(part) {
        text.extend_from_slice(part)?;
        return Ok(());
    }
    let read = String::from_utf8_lossy(alloc, part)?;
    text.extend_from_slice(read.as_bytes())
}

/// The same in parts, each cut where no sequence goes on.
fn push_lossy(alloc: Global, text: &mut Vec<u8>, bytes: &[u8]) -> Result<(), AllocError>
    ensures { OnOk result (text.new.items ≡ text.old.items ++ utf8_lossy bytes.now) }
{
    let mut left = bytes;
    'parts: while left.len() > PART {
        let (window, _) = left.split_at(PART);
        let (part, more) = left.split_at(finished_len(window));
        push_part(alloc, text, part)?;
        left = more;
    }
    push_part(alloc, text, left)?;
    Ok(())
}

/// The bytes as text, without a copy where they are UTF-8.
fn read_lossy(alloc: Global, bytes: Chunk<u8>) -> Result<Chunk<u8>, AllocError>
    ensures { IfOk result (λ text. text ≡ utf8_lossy bytes) }
{
    if simdutf8::is_utf8(bytes.as_slice()) {
        return Ok(bytes);
    }
    let mut text = Vec::with_capacity(alloc, bytes.len().saturating_add(PART))?;
    push_lossy(alloc, &mut text, bytes.as_slice())?;
    Chunk::of_vec(alloc, text)
}

impl LossyPipe {
    ghost use Rattle.std.specs.Prelude.{[], IfOk};
    ghost use Rattle.chunk_core.specs.Feed.{Meaning};
    ghost use Rattle.pull_nodes.specs.Pipes.{IsMeaningOf};
    ghost use Rattle.pull_nodes.specs.declared.pipe.Pipe.TheVariants as pipe;
    ghost use Rattle.text_pipes.specs.LossyState.{StandsFor};

    /// No byte was read.
    pub fn new(alloc: Global) -> Result<LossyPipe, AllocError>
        ensures { IfOk result (λ q. (m : Meaning) → IsMeaningOf pipe.Lossy m → StandsFor q m []) }
    {
        Ok(LossyPipe {
            held: Vec::new(alloc),
        })
    }
}

impl Feed for LossyPipe {
    ghost use Rattle.std.specs.Prelude.{refl};
    ghost use Rattle.pull_nodes.specs.declared.pipe.Pipe.TheVariants as pipe;
    ghost use Rattle.pull_nodes.proofs.Meanings.{sound_from};
    ghost use Rattle.text_pipes.specs.LossyState.{StandsFor, Comes};

    ghost stands = { StandsFor };

    ghost comes = { Comes };

    ghost sound = { λ q m xs h. sound_from pipe.Lossy m h.0 xs refl };

    fn feed(&mut self, alloc: Global, load: Load) -> Result<Fed, AllocError> {
        let mut bytes = take_held(alloc, &mut self.held, into_bytes(load))?;
        let front = bytes.split(finished_len(bytes.as_slice()))?;
        self.held = Vec::from_slice(alloc, bytes.as_slice())?;
        Ok(Fed::Out(Load::Bytes(read_lossy(alloc, front)?)))
    }

    fn finish(&mut self, alloc: Global) -> Result<Fed, AllocError> {
        if self.held.is_empty() {
            return Ok(Fed::End);
        }
        self.held.clear();
        let mark = Vec::from_slice(alloc, "\u{FFFD}".as_bytes())?;
        Ok(Fed::Out(Load::Bytes(Chunk::of_vec(alloc, mark)?)))
    }
}
