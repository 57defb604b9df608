//! The collector's end of the channel.
ghost use Rattle.std.specs.Prelude.{◌≡◌, ℕ, [], ◌++◌, ◌∷◌, List, IfSome, IfNone};
ghost use Rattle.chunk_core.specs.Lists.{IsAmong};
ghost use Rattle.channel_bounded.specs.declared.message.Msg.{Msg};
ghost use Rattle.channel_bounded.specs.Ends.{HubSeen, SenderSeen, ReceiverSeen, seen_receiver, IsReceiving, MayReceive, ReceiverSees};
ghost use Rattle.channel_bounded.specs.Streams.{IsWhole};

use crate::hub::Hub;
use crate::message::Msg;
use crate::rule::{Closes, Gets, May, Numbered, Opens, View};
use crate::sender::Sender;
use crossbeam_queue::Pass;
use std::marker::{Brand, Model};
use std::sync::Wait;

/// The collector's end. Contracts see its hub, what it got, the streams that have or had a sender,
/// and what each joined sender sent.
#[derive(Drop)]
pub struct Receiver {
    pub(crate) pass: Pass<Msg, View>,
}

impl Model for Receiver {
    ghost use Rattle.channel_bounded.specs.Ends.{ReceiverSeen, seen_receiver, IsReceiving};

    ghost Value = { ReceiverSeen };

    ghost view = { λ receiver. seen_receiver receiver.pass };

    ghost invariant = { λ receiver. IsReceiving receiver.pass };
}

impl Receiver {
    // `split` for a number that contracts know beforehand.
    fn split_at<A: May, N: Numbered>(&mut self, hub: &Hub<A>, stream: u32) -> Sender
        requires fits { self.old.hub ≡ hub.now.id }
        requires number { stream ≡ N.number }
        requires fresh { ¬ IsAmong stream self.old.made }
        ensures receiver { self.new ≡ record self.old { made = self.old.made ++ stream ∷ [] } }
        ensures sender { result ≡ record { hub = hub.now.id; stream = stream; sent = [] } }
    {
        let pass = hub.queue.another::<Opens<N>>(&mut self.pass);
        Sender {
            pass,
            number: stream,
        }
    }

    /// Makes the sender of a stream, of which there is but one.
    pub fn split<A: May>(&mut self, hub: &Hub<A>, stream: u32) -> Sender
        requires fits { self.old.hub ≡ hub.now.id }
        requires fresh { ¬ IsAmong stream self.old.made }
        ensures receiver { self.new ≡ record self.old { made = self.old.made ++ stream ∷ [] } }
        ensures sender { result ≡ record { hub = hub.now.id; stream = stream; sent = [] } }
    {
        self.split_at::<A, Brand>(hub, stream)
    }

    /// The next message. `None` only where the queue was empty at one moment of the call.
    pub fn try_recv<A: May, R: Wait>(&mut self, rt: &R, hub: &Hub<A>) -> Option<Msg>
        requires fits { self.old.hub ≡ hub.now.id }
        requires may { MayReceive A.may self.old }
        ensures got { IfSome result (λ m. self.new ≡ record self.old { got = self.old.got ++ m ∷ [] }) }
        ensures first { IfSome result (λ m. (rest : List Msg) × ReceiverSees A.may self.old (m ∷ rest)) }
        ensures same { IfNone result (self.new ≡ self.old) }
        ensures empty { IfNone result (ReceiverSees A.may self.old []) }
    {
        hub.queue.pop_as::<Gets<A>, R>(rt, &mut self.pass)
    }

    /// Takes a sender in, which closes it: no more comes of it than what is queued then.
    pub fn join<A: May>(&mut self, hub: &Hub<A>, sender: Sender)
        requires fits { (self.old.hub ≡ hub.now.id) × (sender.hub ≡ hub.now.id) }
        ensures receiver { self.new ≡ record self.old { closed = self.old.closed ++ (sender.stream, sender.sent) ∷ [] } }
        ensures whole { (queued : List Msg) × IsWhole sender.stream sender.sent self.old.got queued × ReceiverSees A.may self.new queued }
    {
        let Sender { pass, number: _ } = sender;
        hub.queue.absorb::<Closes>(&mut self.pass, pass);
        hub.queue.learn_as::<Gets<A>>(&mut self.pass);
    }
}
