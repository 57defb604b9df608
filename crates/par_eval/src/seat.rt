//! A dealer's side of one hand.
ghost use Rattle.std.specs.Prelude.{◌≡◌, ◌++◌, ◌∷◌, [], List, None, Some, IfErr, IfNone, IfSome, OnErr, OnOk};
ghost use Rattle.channel_bounded.specs.Ends.{HubSeen, MaySend, ReceiverSeen, ReceiverSees, SenderSeen};
ghost use Rattle.channel_bounded.specs.declared.message.Body.{Body};
ghost use Rattle.channel_bounded.specs.declared.message.Msg.{Msg};
ghost use Rattle.par_eval.specs.Dealers.{IsSettled, LaneSeen, LaneTakes, collects, message, posted};
ghost use Rattle.par_eval.specs.Hands.{HandSeen};
ghost use Rattle.par_eval.specs.Inboxes.{MayReceiveOn};
ghost use Rattle.par_eval.specs.Lanes.{FoundFull, IsSized, LaneHubs};
ghost use Rattle.par_eval.specs.Messages.{bodies, the_stream};
ghost use Rattle.par_eval.specs.Sides.{IsSide, hand_of, sender_of};

use crate::hand::Hand;
use crate::inbox::Inbox;
use crate::lanes::Lane;
use crate::work::Worked;
use channel_bounded::{Body, Full, Hub, May, Msg, Receiver, Sender};
use std::marker::Model;
use std::mem;
use std::snapshot::Snapshot;
use std::sync::Wait;

/// The sender of a hand's tasks, or what it and the hand were when the hand was collected.
#[derive(Drop)]
pub(crate) enum Side {
    Open(Sender),
    Closed(Snapshot<Sender>, Snapshot<Hand>),
}

/// A dealer's ends of the two queues of a hand.
#[derive(Drop)]
pub(crate) struct Seat {
    side: Side,
    inbox: Inbox,
}

impl Model for Seat {
    ghost use Rattle.par_eval.specs.Dealers.{LaneSeen};

    ghost Value = { LaneSeen };

    ghost use Rattle.par_eval.specs.Sides.{IsSide, hand_of, sender_of};

    ghost view = { λ s. record { tasks = sender_of s.side; results = s.inbox; collected = hand_of s.side } };

    ghost invariant = { λ s. IsSide s.side };
}

/// What the sender is.
fn sent_of(side: &Side) -> Snapshot<Sender>
    requires { hand_of side.now ≡ None }
    ensures { result.value ≡ sender_of side.now }
{
    match side {
        Side::Open(sender) => Snapshot::of(sender),
        Side::Closed(_, _) => unreachable!(),
    }
}

/// Takes the sender in at the hand's end of its tasks.
fn join_tasks<A: May>(hub: &Hub<A>, side: Side, mut tasks: Receiver)
    requires at { ((sender_of side).hub ≡ hub.now.id) × (tasks.hub ≡ hub.now.id) }
    requires made { tasks.made ≡ the_stream ∷ [] }
    requires open { hand_of side ≡ None }
    requires stream { IsSide side }
    ensures { (queued : List Body) × (bodies tasks.got ++ queued ≡ bodies (sender_of side).sent) }
{
    match side {
        Side::Open(sender) => tasks.join(hub, sender),
        Side::Closed(_, _) => unreachable!(),
    }
}

impl Seat {
    pub(crate) fn new(sender: Sender, inbox: Inbox) -> Seat
        requires { sender.stream ≡ the_stream }
        ensures { result ≡ record { tasks = sender; results = inbox; collected = None } }
    {
        Seat {
            side: Side::Open(sender),
            inbox,
        }
    }

    /// Sends a message to the hand.
    pub(crate) fn post<A: May, R: Wait>(
        &mut self,
        rt: &R,
        lane: &Lane<A>,
        body: Body,
    ) -> Result<(), Full>
        requires at { self.old.tasks.hub ≡ lane.now.tasks.id }
        requires open { self.old.collected ≡ None }
        requires may { MaySend A.may 1 self.old.tasks (message body) }
        ensures sent { OnOk result (self.new ≡ posted self.old body) }
        ensures back { IfErr result (λ full. full.0 ≡ message body) }
        ensures unsent { OnErr result (self.new ≡ self.old) }
        ensures full { OnErr result (FoundFull A.may 1 self.old.tasks) }
    {
        match &mut self.side {
            Side::Open(sender) => sender.try_send(rt, lane.tasks(), Msg { stream: 0, body }),
            Side::Closed(_, _) => unreachable!(),
        }
    }

    /// The next result of the hand, where it has come whole.
    pub(crate) fn take<A: May, R: Wait>(&mut self, rt: &R, lane: &Lane<A>) -> Option<Worked>
        requires at { self.old.results.hub ≡ lane.now.results.id }
        requires may { MayReceiveOn A.may self.old.results }
        ensures some { IfSome result (λ w. LaneTakes (w ∷ []) self.old self.new) }
        ensures none { IfNone result (LaneTakes [] self.old self.new) }
        ensures empty { IfNone result (ReceiverSees A.may self.new.results []) }
    {
        self.inbox.take::<A, R>(rt, lane.results())
    }

    /// Takes the hand in.
    pub(crate) fn collect<A: May>(&mut self, lane: &Lane<A>, hand: Hand)
        requires at { (self.old.tasks.hub ≡ lane.now.tasks.id) × (self.old.results.hub ≡ lane.now.results.id) }
        requires hand { (hand.tasks.hub ≡ lane.now.tasks.id) × (hand.results.hub ≡ lane.now.results.id) }
        requires open { self.old.collected ≡ None }
        ensures becomes { self.new ≡ collects self.old hand }
        ensures settled { IsSettled self.new hand }
    {
        let sent = sent_of(&self.side);
        let kept = Snapshot::of(&hand);
        let (tasks, results) = hand.into_ends();
        let side = mem::replace(&mut self.side, Side::Closed(sent, kept));
        join_tasks(lane.tasks(), side, tasks);
        self.inbox.join(lane.results(), results);
    }
}
