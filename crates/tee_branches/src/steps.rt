//! What a branch does with its pipe.
ghost use Rattle.std.specs.Prelude.{◌≡◌, List, None, [], ◌∷◌, ◌++◌, IfSome};
ghost use Rattle.chunk_core.specs.Elements.{kind_of};
ghost use Rattle.chunk_core.specs.Elements.LoadKind.{Bytes};
ghost use Rattle.chunk_core.specs.Feed.{MayFeed, MayFinish, Meaning};
ghost use Rattle.chunk_core.specs.declared.code.How.TheVariants as how;
ghost use Rattle.channel_bounded.specs.declared.message.Body.{Body};
ghost use Rattle.channel_bounded.specs.declared.message.Body.TheVariants as body;
ghost use Rattle.channel_bounded.specs.declared.message.Msg.{Msg};
ghost use Rattle.interrupt_ctx.specs.declared.view.View.{View};
ghost use Rattle.tee_texts.specs.Texts.{IsTextOf};
ghost use Rattle.tee_branches.specs.Messages.{held};
ghost use Rattle.tee_branches.specs.Stands.{IsFed, Stands};
ghost use Rattle.tee_branches.specs.declared.stage.Stage.TheVariants as stage;

use crate::news::{Moved, with_news};
use crate::stage::Stage;
use chunk_core::{Fed, Feed, How, Load};
use std::alloc::{AllocError, Global};

/// It ends for want of memory.
fn wanting<F>() -> Moved<F>
    ensures stage { result.stage ≡ stage.Ending how.Memory }
    ensures message { result.message ≡ None }
{
    Moved {
        stage: Stage::Ending(How::Memory),
        message: None,
    }
}

/// Feeds a load to the pipe. What comes out is to be said.
pub(crate) fn fed<F: Feed>(alloc: Global, number: u32, pipe: F, load: Load) -> Moved<F>
    requires can { MayFeed (F.stands pipe) Bytes }
    requires kind { kind_of load ≡ Bytes }
    ensures stands { (m : Meaning) (v : View) (got : List Body) (said : List Msg) → IsFed F.stands F.comes number m pipe got said → Stands F.stands F.comes number m v result.stage (got ++ body.Load load ∷ []) (said ++ held result.message) }
    ensures message { IfSome result.message (IsTextOf number) }
{
    let mut pipe = pipe;
    match pipe.feed(alloc, load) {
        Ok(Fed::Out(out)) => with_news(alloc, number, out, Stage::Feeding(pipe)),
        Ok(Fed::Fault(out, code)) => {
            with_news(alloc, number, out, Stage::Ending(How::Fault(code)))
        }
        Ok(Fed::End) => unreachable!(),
        Err(AllocError) => wanting(),
    }
}

/// Tells the pipe the end, or asks it for what is still to come. What comes out is to be said.
pub(crate) fn finished<F: Feed>(alloc: Global, number: u32, pipe: F) -> Moved<F>
    requires can { MayFinish (F.stands pipe) (F.comes pipe) }
    ensures stands { (m : Meaning) (v : View) (got : List Body) (said : List Msg) → Stands F.stands F.comes number m v (stage.Finishing pipe) got said → Stands F.stands F.comes number m v result.stage got (said ++ held result.message) }
    ensures message { IfSome result.message (IsTextOf number) }
{
    let mut pipe = pipe;
    match pipe.finish(alloc) {
        Ok(Fed::Out(out)) => with_news(alloc, number, out, Stage::Finishing(pipe)),
        Ok(Fed::Fault(out, code)) => {
            with_news(alloc, number, out, Stage::Ending(How::Fault(code)))
        }
        Ok(Fed::End) => Moved {
            stage: Stage::Ending(How::Done),
            message: None,
        },
        Err(AllocError) => wanting(),
    }
}
