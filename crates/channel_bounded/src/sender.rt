//! A stream's end of the channel.
ghost use Rattle.std.specs.Prelude.{◌≡◌, ℕ, [], ◌++◌, ◌∷◌, length, List, OnOk, OnErr, IfErr};
ghost use Rattle.channel_bounded.specs.declared.message.Msg.{Msg};
ghost use Rattle.channel_bounded.specs.Ends.{HubSeen, SenderSeen, seen_sender, IsSending, MaySend, SenderSees};

use crate::hub::Hub;
use crate::message::{Full, Msg};
use crate::rule::{May, Sends, View};
use crossbeam_queue::Pass;
use std::marker::Model;
use std::sync::Wait;

/// The end of one stream. Contracts see its hub, its stream and all that it has sent.
#[derive(Drop)]
pub struct Sender {
    pub(crate) pass: Pass<Msg, View>,
    pub(crate) number: u32,
}

impl Model for Sender {
    ghost use Rattle.channel_bounded.specs.Ends.{SenderSeen, seen_sender, IsSending};

    ghost Value = { SenderSeen };

    ghost view = { λ sender. seen_sender sender.pass };

    ghost invariant = { λ sender. IsSending sender.pass sender.number };
}

impl Sender {
    /// The stream of which this is the end.
    pub fn stream(&self) -> u32
        ensures { result ≡ self.now.stream }
    {
        self.number
    }

    /// Sends a message of this stream. `Full` gives it back, only where the queue held `capacity`
    /// messages at one moment of the call.
    pub fn try_send<A: May, R: Wait>(&mut self, rt: &R, hub: &Hub<A>, m: Msg) -> Result<(), Full>
        requires fits { self.old.hub ≡ hub.now.id }
        requires stream { m.stream ≡ self.old.stream }
        requires may { MaySend A.may hub.now.capacity self.old m }
        ensures sent { OnOk result (self.new ≡ record self.old { sent = self.old.sent ++ m ∷ [] }) }
        ensures back { IfErr result (λ full. full.0 ≡ m) }
        ensures unsent { OnErr result (self.new ≡ self.old) }
        ensures full { OnErr result ((queued : List Msg) × (length queued ≡ hub.now.capacity) × SenderSees A.may self.old queued) }
    {
        match hub.queue.push_as::<Sends<A>, R>(rt, &mut self.pass, m) {
            Ok(()) => Ok(()),
            Err(m) => Err(Full(m)),
        }
    }
}
