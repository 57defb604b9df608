//! What a pipe gives of bytes, as text.
ghost use Rattle.std.specs.Prelude.{◌≡◌, [], IfOk, List};
ghost use Rattle.chunk_core.specs.Elements.{Element, elements, rendering_of};
ghost use Rattle.chunk_core.specs.Elements.LoadKind.{Bytes};
ghost use Rattle.chunk_core.specs.Feed.{Meaning};
ghost use Rattle.eval_work.specs.Texts.{AppendsAnswer, FeedsText, FinishesText, MayPourText, PoursText};

use chunk_core::{Chunk, Code, Fed, Feed, Load, render};
use load_texts::push_text;
use std::alloc::{AllocError, Global};

/// The most bytes that a pipe is fed at once. It makes lines of the next ones in the memory of those before.
const PIECE: usize = 1024;

/// What a pipe answered, beside a load.
#[derive(Clone, Copy, Debug, PartialEq, Eq)]
pub(crate) enum Came {
    /// A load alone.
    More,
    /// The end.
    End,
    /// A fault behind the load.
    Fault(Code),
}

/// The text of what came, and the fault that came behind it, or none.
#[derive(Drop)]
pub(crate) struct PouredText {
    pub(crate) text: Vec<u8>,
    pub(crate) fault: Option<Code>,
}

/// The text of a load, which isn't copied where it is bytes.
pub(crate) fn into_bytes(alloc: Global, load: Load) -> Result<Chunk<u8>, AllocError>
    ensures { IfOk result (λ bytes. bytes ≡ rendering_of (elements load)) }
{
    match load {
        Load::Bytes(bytes) => Ok(bytes),
        load => Chunk::of_vec(alloc, render(alloc, &load)?.into_vec()),
    }
}

/// Appends the text of the load that a pipe answered, where it answered one.
fn push_answer(alloc: Global, text: &mut Vec<u8>, answer: Fed) -> Result<Came, AllocError>
    ensures { IfOk result (AppendsAnswer text.old.items text.new.items answer) }
{
    match answer {
        Fed::Out(out) => {
            push_text(alloc, text, &out)?;
            Ok(Came::More)
        }
        Fed::End => Ok(Came::End),
        Fed::Fault(out, code) => {
            push_text(alloc, text, &out)?;
            Ok(Came::Fault(code))
        }
    }
}

/// Feeds bytes to a pipe that was fed nothing, piece by piece, up to a fault.
fn feed_text<F: Feed>(
    alloc: Global,
    pipe: &mut F,
    bytes: Chunk<u8>,
) -> Result<PouredText, AllocError>
    requires { MayPourText (F.stands pipe.old) }
    ensures { IfOk result (λ p. (m : Meaning) → F.stands pipe.old m [] → m.takes ≡ Bytes → FeedsText m bytes p.text.items p.fault (F.stands pipe.new m)) }
{
    let mut text = Vec::with_capacity(alloc, bytes.len())?;
    let mut left = bytes;
    'pieces: while !left.is_empty() {
        let piece = left.split(PIECE)?;
        let answer = pipe.feed(alloc, Load::Bytes(piece))?;
        match push_answer(alloc, &mut text, answer)? {
            Came::More => {}
            Came::End => unreachable!(),
            Came::Fault(code) => {
                return Ok(PouredText {
                    text,
                    fault: Some(code),
                });
            }
        }
    }
    Ok(PouredText { text, fault: None })
}

/// Tells that the input has ended, and appends the text of what is still to come.
fn finish_text<F: Feed>(
    alloc: Global,
    pipe: &mut F,
    mut text: Vec<u8>,
) -> Result<PouredText, AllocError>
    requires { (m : Meaning) × (xs : List Element) × F.stands pipe.old m xs }
    ensures { IfOk result (λ p. (m : Meaning) (xs : List Element) → F.stands pipe.old m xs → FinishesText m xs text.items p.text.items p.fault) }
{
    'answers: loop {
        let answer = pipe.finish(alloc)?;
        match push_answer(alloc, &mut text, answer)? {
            Came::More => {}
            Came::End => return Ok(PouredText { text, fault: None }),
            Came::Fault(code) => {
                return Ok(PouredText {
                    text,
                    fault: Some(code),
                });
            }
        }
    }
}

/// Puts bytes through a pipe that was fed nothing, as a whole input: the text of what came, and the fault or none.
pub(crate) fn pour_text<F: Feed>(
    alloc: Global,
    mut pipe: F,
    bytes: Chunk<u8>,
) -> Result<PouredText, AllocError>
    requires { MayPourText (F.stands pipe) }
    ensures { IfOk result (λ p. (m : Meaning) → F.stands pipe m [] → m.takes ≡ Bytes → PoursText m bytes p.text.items p.fault) }
{
    let fed = feed_text(alloc, &mut pipe, bytes)?;
    if fed.fault.is_some() {
        return Ok(fed);
    }
    finish_text(alloc, &mut pipe, fed.text)
}
