//! What is said of the loads that a pipe gives.
ghost use Rattle.std.specs.Prelude.{◌≡◌, IfOk};
ghost use Rattle.chunk_core.specs.Elements.{elements, rendering_of};
ghost use Rattle.chunk_core.specs.declared.load.Load.TheVariants as the_load;
ghost use Rattle.tee_branches.specs.Messages.{IsNews};
ghost use Rattle.tee_branches.specs.Moves.{IsMoved};

use crate::stage::Stage;
use channel_bounded::{Body, Msg};
use chunk_core::{Chunk, How, Load, render};
use std::alloc::{AllocError, Global};

/// How far a branch is behind a step, and what is to be said of it.
pub(crate) struct Moved<F> {
    pub(crate) stage: Stage<F>,
    pub(crate) message: Option<Msg>,
}

/// The load as the text that is printed of it.
fn rendered(alloc: Global, load: Load) -> Result<Load, AllocError>
    ensures { IfOk result (λ text. text ≡ the_load.Bytes (rendering_of (elements load))) }
{
    match load {
        Load::Bytes(bytes) => Ok(Load::Bytes(bytes)),
        load => {
            let text = render(alloc, &load)?;
            Ok(Load::Bytes(Chunk::of_vec(alloc, text.into_vec())?))
        }
    }
}

/// The message with the text of a load, or none where the load is empty.
fn news_of(alloc: Global, number: u32, load: Load) -> Result<Option<Msg>, AllocError>
    ensures { IfOk result (λ message. IsNews number (elements load) message) }
{
    let len = load.len();
    if len == 0 {
        return Ok(None);
    }
    let text = rendered(alloc, load)?;
    Ok(Some(Msg {
        stream: number,
        body: Body::Load(text),
    }))
}

/// The stage, with what is to be said of the load that came; or its end for want of memory.
pub(crate) fn with_news<F: Drop>(
    alloc: Global,
    number: u32,
    load: Load,
    stage: Stage<F>,
) -> Moved<F>
    ensures { IsMoved number (elements load) stage result }
{
    match news_of(alloc, number, load) {
        Ok(message) => Moved { stage, message },
        Err(AllocError) => Moved {
            stage: Stage::Ending(How::Memory),
            message: None,
        },
    }
}
