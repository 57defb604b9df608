//! What a dealer receives of a hand.
ghost use Rattle.std.specs.Prelude.{◌≡◌, ◌++◌, ◌∷◌, [], List, None, Some, IfNone, IfSome, option_to_list};
ghost use Rattle.channel_bounded.specs.Ends.{HubSeen, MayReceive, ReceiverSeen, ReceiverSees, SenderSeen};
ghost use Rattle.channel_bounded.specs.declared.message.Body.{Body};
ghost use Rattle.channel_bounded.specs.declared.message.Body.TheVariants as told;
ghost use Rattle.par_eval.specs.Inboxes.{Gets, GetsEnd, IsInbox, IsSameInbox, MayReceiveOn, ReceivedThen, TakesNext, results_got};
ghost use Rattle.par_eval.specs.Messages.{bodies, the_stream};

use crate::lanes::Paired;
use crate::work::Worked;
use channel_bounded::{Body, Hub, May, Msg, Receiver, Sender};
use chunk_core::{How, Load};
use std::marker::Model;
use std::sync::Wait;

/// The end of a hand's results, and the load of a result whose end is still to come. Contracts see the end.
#[derive(Drop)]
pub(crate) struct Inbox {
    receiver: Receiver,
    half: Option<Load>,
}

impl Model for Inbox {
    ghost use Rattle.channel_bounded.specs.Ends.{ReceiverSeen};

    ghost Value = { ReceiverSeen };

    ghost use Rattle.par_eval.specs.Inboxes.{IsInbox};

    ghost view = { λ i. i.receiver };

    ghost invariant = { λ i. IsInbox i.receiver i.half };
}

/// The load of the next result.
fn next_load<A: May, R: Wait>(rt: &R, hub: &Hub<Paired<A>>, receiver: &mut Receiver) -> Option<Load>
    requires at { receiver.old.hub ≡ hub.now.id }
    requires whole { ReceivedThen receiver.old [] }
    requires may { MayReceive A.may receiver.old }
    ensures some { IfSome result (λ out. Gets receiver.old receiver.new (told.Load out)) }
    ensures none { IfNone result ((receiver.new ≡ receiver.old) × ReceiverSees A.may receiver.old []) }
{
    match receiver.try_recv(rt, hub) {
        None => None,
        Some(m) => {
            let Msg { stream: _, body } = m;
            match body {
                Body::Load(out) => Some(out),
                Body::End(_) => unreachable!(),
            }
        }
    }
}

/// The end of a result whose load has come.
fn next_end<A: May, R: Wait>(
    rt: &R,
    hub: &Hub<Paired<A>>,
    receiver: &mut Receiver,
    out: &Load,
) -> Option<How>
    requires at { receiver.old.hub ≡ hub.now.id }
    requires half { ReceivedThen receiver.old (told.Load out.now ∷ []) }
    requires may { MayReceive A.may receiver.old }
    ensures some { IfSome result (λ how. Gets receiver.old receiver.new (told.End how)) }
    ensures none { IfNone result ((receiver.new ≡ receiver.old) × ReceiverSees A.may receiver.old []) }
{
    match receiver.try_recv(rt, hub) {
        None => None,
        Some(m) => {
            let Msg { stream: _, body } = m;
            match body {
                Body::End(how) => Some(how),
                Body::Load(_) => unreachable!(),
            }
        }
    }
}

/// The result of which this load has come, unless its end is still to come.
fn finish<A: May, R: Wait>(
    rt: &R,
    hub: &Hub<Paired<A>>,
    receiver: &mut Receiver,
    half: &mut Option<Load>,
    out: Load,
) -> Option<Worked>
    requires at { receiver.old.hub ≡ hub.now.id }
    requires half { ReceivedThen receiver.old (told.Load out ∷ []) }
    requires none { half.old ≡ None }
    requires may { MayReceive A.may receiver.old }
    ensures { GetsEnd A.may receiver.old receiver.new out half.new result }
{
    match next_end::<A, R>(rt, hub, receiver, &out) {
        Some(how) => Some(Worked { out, how }),
        None => {
            *half = Some(out);
            None
        }
    }
}

/// The next result, of which nothing has come.
fn begin<A: May, R: Wait>(
    rt: &R,
    hub: &Hub<Paired<A>>,
    receiver: &mut Receiver,
    half: &mut Option<Load>,
) -> Option<Worked>
    requires at { receiver.old.hub ≡ hub.now.id }
    requires whole { ReceivedThen receiver.old [] }
    requires none { half.old ≡ None }
    requires may { MayReceiveOn A.may receiver.old }
    ensures { TakesNext A.may receiver.old receiver.new half.new result }
{
    match next_load::<A, R>(rt, hub, receiver) {
        None => None,
        Some(out) => finish::<A, R>(rt, hub, receiver, half, out),
    }
}

/// The next result.
fn take_next<A: May, R: Wait>(
    rt: &R,
    hub: &Hub<Paired<A>>,
    receiver: &mut Receiver,
    half: &mut Option<Load>,
) -> Option<Worked>
    requires at { receiver.old.hub ≡ hub.now.id }
    requires inbox { IsInbox receiver.old half.old }
    requires may { MayReceiveOn A.may receiver.old }
    ensures { TakesNext A.may receiver.old receiver.new half.new result }
{
    match half.take() {
        Some(out) => finish::<A, R>(rt, hub, receiver, half, out),
        None => begin::<A, R>(rt, hub, receiver, half),
    }
}

impl Inbox {
    pub(crate) fn new(receiver: Receiver) -> Inbox
        requires { (receiver.got ≡ []) × (receiver.made ≡ 0 ∷ []) }
        ensures { result ≡ receiver }
    {
        Inbox {
            receiver,
            half: None,
        }
    }

    /// The next result, where it has come whole.
    pub(crate) fn take<A: May, R: Wait>(&mut self, rt: &R, hub: &Hub<Paired<A>>) -> Option<Worked>
        requires at { self.old.hub ≡ hub.now.id }
        requires may { MayReceiveOn A.may self.old }
        ensures some { IfSome result (λ w. results_got self.new ≡ results_got self.old ++ w ∷ []) }
        ensures none { IfNone result (results_got self.new ≡ results_got self.old) }
        ensures empty { IfNone result (ReceiverSees A.may self.new []) }
        ensures same { IsSameInbox self.old self.new }
    {
        take_next::<A, R>(rt, hub, &mut self.receiver, &mut self.half)
    }

    /// Takes the sender of the results in.
    pub(crate) fn join<A: May>(&mut self, hub: &Hub<Paired<A>>, sender: Sender)
        requires at { (self.old.hub ≡ hub.now.id) × (sender.hub ≡ hub.now.id) }
        requires stream { sender.stream ≡ the_stream }
        ensures becomes { self.new ≡ record self.old { closed = self.old.closed ++ (sender.stream, sender.sent) ∷ [] } }
        ensures whole { (queued : List Body) × (bodies self.old.got ++ queued ≡ bodies sender.sent) }
    {
        self.receiver.join(hub, sender);
    }
}
