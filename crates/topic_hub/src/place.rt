//! What the publisher has for one possible subscriber.
ghost use Rattle.std.specs.Prelude.{◌≡◌, OnOk, OnErr};
ghost use Rattle.chunk_core.specs.Elements.{Element};
ghost use Rattle.channel_bounded.specs.Ends.{HubSeen};
ghost use Rattle.channel_bounded.specs.declared.message.Body.TheVariants as body;
ghost use Rattle.topic_hub.specs.Places.{MayPushPlace, Pushes, IsSender, published, withdrawn};

use crate::publisher::Pushed;
use channel_bounded::{Body, Full, Hub, May, Msg, Receiver, Sender};
use chunk_core::Load;
use std::alloc::AllocError;
use std::sync::Wait;

/// A subscription, as the publisher has it.
#[derive(Drop)]
pub struct Seat {
    pub(crate) sender: Sender,
    pub(crate) pending: Option<Body>,
}

/// A possible subscriber: not yet there, there, or settled with.
#[derive(Drop)]
pub enum Place {
    Free(Receiver),
    Taken(Seat),
    Settled,
}

impl Place {
    /// Publishes to the subscriber that is here, of which nothing is pending.
    pub(crate) fn publish(&mut self, body: Body)
        ensures { self.new ≡ published body self.old }
    {
        if let Place::Taken(seat) = self {
            seat.pending = Some(body);
        }
    }

    /// Publishes a copy of the load.
    pub(crate) fn publish_copy(&mut self, load: &Load) -> Result<(), AllocError>
        ensures ok { OnOk result (self.new ≡ published (body.Load load.now) self.old) }
        ensures err { OnErr result (self.new ≡ self.old) }
    {
        if let Place::Taken(seat) = self {
            seat.pending = Some(Body::Load(load.copy()?));
        }
        Ok(())
    }

    /// Takes back what is pending.
    pub(crate) fn withdraw(&mut self)
        ensures { self.new ≡ withdrawn self.old }
    {
        if let Place::Taken(seat) = self {
            seat.pending = None;
        }
    }

    /// Sends what is pending.
    pub(crate) fn push<A: May, R: Wait>(&mut self, rt: &R, hub: &Hub<A>) -> Pushed
        requires sender { IsSender hub.now self.old }
        requires may { MayPushPlace A.may hub.now self.old }
        ensures pushes { Pushes A.may hub.now self.old self.new result }
    {
        let Place::Taken(seat) = self else {
            return Pushed::All;
        };
        let Some(body) = seat.pending.take() else {
            return Pushed::All;
        };
        let stream = seat.sender.stream();
        match seat.sender.try_send(rt, hub, Msg { stream, body }) {
            Ok(()) => Pushed::All,
            Err(Full(message)) => {
                seat.pending = Some(message.body);
                Pushed::Waiting(stream)
            }
        }
    }
}
