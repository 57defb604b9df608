//! What a hand has to send.
ghost use Rattle.std.specs.Prelude.{◌≡◌, ◌≢◌, ◌++◌, ◌∷◌, [], None, Some, option_to_list};
ghost use Rattle.channel_bounded.specs.Ends.{HubSeen, MaySend, SenderSeen};
ghost use Rattle.channel_bounded.specs.declared.message.Msg.{Msg};
ghost use Rattle.par_eval.specs.Hands.{OutboxSends, waiting_in};
ghost use Rattle.par_eval.specs.Lanes.{FoundFull};
ghost use Rattle.par_eval.specs.Messages.{paired, the_stream};
ghost use Rattle.par_eval.specs.declared.turns.HandTurn.TheVariants as turn;

use crate::lanes::Paired;
use crate::turns::HandTurn;
use channel_bounded::{Body, Full, Hub, May, Msg, Sender};
use std::sync::Wait;

/// The end of a hand's results, and what it has to send before it goes on.
#[derive(Drop)]
pub(crate) struct Outbox {
    pub(crate) sender: Sender,
    pub(crate) first: Option<Body>,
    pub(crate) second: Option<Body>,
}

impl Outbox {
    pub(crate) fn into_sender(self) -> Sender
        ensures { result ≡ self.sender }
    {
        let Outbox {
            sender,
            first: _,
            second: _,
        } = self;
        sender
    }

    /// Sends this, which was the first to be sent.
    pub(crate) fn send<A: May, R: Wait>(
        &mut self,
        rt: &R,
        hub: &Hub<Paired<A>>,
        body: Body,
    ) -> HandTurn
        requires at { self.old.sender.hub ≡ hub.now.id }
        requires stream { self.old.sender.stream ≡ the_stream }
        requires none { self.old.first ≡ None }
        requires may { MaySend (paired A.may) hub.now.capacity self.old.sender (record { stream = the_stream; body = body }) }
        ensures sends { OutboxSends (paired A.may) hub.now.capacity body self.old self.new result }
    {
        match self.sender.try_send(rt, hub, Msg { stream: 0, body }) {
            Ok(()) => {
                self.first = self.second.take();
                HandTurn::More
            }
            Err(Full(m)) => {
                let Msg { stream: _, body } = m;
                self.first = Some(body);
                HandTurn::Blocked
            }
        }
    }
}
