//! A subscriber's own end.
ghost use Rattle.std.specs.Prelude.{◌≡◌, ◌++◌, ◌∷◌, [], List, IfSome, IfNone};
ghost use Rattle.channel_bounded.specs.declared.message.Msg.{Msg};
ghost use Rattle.channel_bounded.specs.Ends.{HubSeen, MayReceive, ReceiverSees};
ghost use Rattle.topic_hub.specs.Subscribers.{IsAtQueue, SubscriberSeen, receiver_of, received, with_got};

use crate::hub::TopicHub;
use channel_bounded::{Body, May, Msg, Receiver};
use std::marker::Model;
use std::sync::Wait;

/// The end of one subscriber. Contracts see its number, its queue and all that it got.
#[derive(Drop)]
pub struct Subscriber {
    pub(crate) number: u32,
    pub(crate) receiver: Receiver,
}

impl Model for Subscriber {
    ghost use Rattle.topic_hub.specs.Subscribers.{IsAlone, SubscriberSeen, seen_subscriber};

    ghost Value = { SubscriberSeen };

    ghost view = { λ s. seen_subscriber s.number s.receiver };

    ghost invariant = { λ s. IsAlone s.number s.receiver };
}

impl Subscriber {
    /// Its number among the subscribers of its topic, from 0 in the order in which they subscribed.
    pub fn number(&self) -> u32
        ensures { result ≡ self.now.number }
    {
        self.number
    }

    /// What comes next: a load that was published, or the end. `None` only where its queue was empty at
    /// one moment of the call.
    pub fn next<A: May, R: Wait>(&mut self, rt: &R, hub: &TopicHub<A>) -> Option<Body>
        requires at { IsAtQueue hub.now self.old }
        requires may { MayReceive A.may (receiver_of self.old) }
        ensures got { IfSome result (λ body. self.new ≡ with_got self.old body) }
        ensures first { IfSome result (λ body. (rest : List Msg) × ReceiverSees A.may (receiver_of self.old) (record { stream = self.old.number; body = body } ∷ rest)) }
        ensures same { IfNone result (self.new ≡ self.old) }
        ensures empty { IfNone result (ReceiverSees A.may (receiver_of self.old) []) }
    {
        let queue = &hub.queues[self.number as usize];
        let message = self.receiver.try_recv(rt, queue)?;
        let Msg { stream: _, body } = message;
        Some(body)
    }
}
