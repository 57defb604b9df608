//! One step of a branch.
ghost use Rattle.std.specs.Prelude.{◌≡◌, ◌++◌, [], true, List, None, Some, IfSome};
ghost use Rattle.std.specs.Bool.{OnFalse};
ghost use Rattle.channel_bounded.specs.Ends.{ReceiverSees};
ghost use Rattle.channel_bounded.specs.declared.message.Body.TheVariants as the_body;
ghost use Rattle.channel_bounded.specs.declared.message.Msg.{Msg as AMsg};
ghost use Rattle.interrupt_ctx.specs.declared.view.View.{View};
ghost use Rattle.chunk_core.specs.Elements.LoadKind.{Bytes};
ghost use Rattle.chunk_core.specs.Feed.{MayFeed, Meaning};
ghost use Rattle.topic_hub.specs.Subscribers.{IsAtQueue, SubscriberSeen, receiver_of, received};
ghost use Rattle.tee_branches.specs.Branches.{MayReceiveAll};
ghost use Rattle.tee_texts.specs.Texts.{IsTextOf, end_message};
ghost use Rattle.tee_branches.specs.Messages.{held};
ghost use Rattle.tee_branches.specs.Moves.{CanStep, stage_behind};
ghost use Rattle.tee_branches.specs.Stands.{Stands};
ghost use Rattle.tee_branches.specs.Turns.{ReceivesOne};
ghost use Rattle.tee_branches.specs.declared.stage.Stage.TheVariants as stage;

use crate::news::Moved;
use crate::stage::Stage;
use crate::steps::{fed, finished};
use channel_bounded::{Body, May, Msg};
use chunk_core::{Feed, How};
use std::alloc::Global;
use std::sync::Wait;
use topic_hub::{Subscriber, TopicHub};

/// How far a branch is behind a step, what is to be said of it, and whether anything came.
pub(crate) struct Came<F> {
    pub(crate) stage: Stage<F>,
    pub(crate) message: Option<Msg>,
    pub(crate) came: bool,
}

fn having<F>(moved: Moved<F>) -> Came<F>
    ensures { result ≡ record { stage = moved.stage; message = moved.message; came = true } }
{
    let Moved { stage, message } = moved;
    Came {
        stage,
        message,
        came: true,
    }
}

/// How far a branch is behind the end of its topic: its pipe is to be told a whole one; behind any other it
/// ends as halted.
fn behind<F: Drop>(pipe: F, how: How) -> Stage<F>
    ensures { result ≡ stage_behind pipe how }
{
    match how {
        How::Done => Stage::Finishing(pipe),
        How::Fault(_) | How::Halted | How::Memory => Stage::Ending(How::Halted),
    }
}

/// The message that branch `number` ended so.
pub(crate) fn end_of(number: u32, how: How) -> Msg
    ensures { result ≡ end_message number how }
{
    Msg {
        stream: number,
        body: Body::End(how),
    }
}

/// Receives what comes next, and feeds it to the pipe.
fn receive<F: Feed, A: May, R: Wait>(
    rt: &R,
    alloc: Global,
    number: u32,
    source: &mut Subscriber,
    topic: &TopicHub<A>,
    pipe: F,
) -> Came<F>
    requires can { MayFeed (F.stands pipe) Bytes }
    requires at { IsAtQueue topic.now source.old }
    requires may { MayReceiveAll A.may source.old }
    ensures stands { (m : Meaning) (v : View) (said : List AMsg) → Stands F.stands F.comes number m v (stage.Feeding pipe) (received source.old) said → Stands F.stands F.comes number m v result.stage (received source.new) (said ++ held result.message) }
    ensures source { ReceivesOne source.old source.new }
    ensures message { IfSome result.message (IsTextOf number) }
    ensures empty { OnFalse result.came ((source.new ≡ source.old) × (result.message ≡ None) × ReceiverSees A.may (receiver_of source.old) []) }
{
    match source.next(rt, topic) {
        None => Came {
            stage: Stage::Feeding(pipe),
            message: None,
            came: false,
        },
        Some(Body::Load(load)) => having(fed(alloc, number, pipe, load)),
        Some(Body::End(how)) => Came {
            stage: behind(pipe, how),
            message: None,
            came: true,
        },
    }
}

/// Goes one step on: receives, asks the pipe for what it still gives, or says the end.
pub(crate) fn step<F: Feed, A: May, R: Wait>(
    rt: &R,
    alloc: Global,
    number: u32,
    source: &mut Subscriber,
    topic: &TopicHub<A>,
    stage: Stage<F>,
) -> Came<F>
    requires can { CanStep F.stands F.comes stage }
    requires at { IsAtQueue topic.now source.old }
    requires may { MayReceiveAll A.may source.old }
    ensures stands { (m : Meaning) (v : View) (said : List AMsg) → Stands F.stands F.comes number m v stage (received source.old) said → Stands F.stands F.comes number m v result.stage (received source.new) (said ++ held result.message) }
    ensures source { ReceivesOne source.old source.new }
    ensures message { IfSome result.message (IsTextOf number) }
    ensures empty { OnFalse result.came ((source.new ≡ source.old) × (result.message ≡ None) × ReceiverSees A.may (receiver_of source.old) []) }
{
    match stage {
        Stage::Feeding(pipe) => receive(rt, alloc, number, source, topic, pipe),
        Stage::Finishing(pipe) => having(finished(alloc, number, pipe)),
        Stage::Ending(how) => Came {
            stage: Stage::Over(how),
            message: Some(end_of(number, how)),
            came: true,
        },
        Stage::Over(_) => unreachable!(),
    }
}
