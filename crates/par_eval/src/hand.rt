//! A hand.
ghost use Rattle.std.specs.Prelude.{◌≡◌, ◌++◌, ◌∷◌, [], None, Some, false, true};
ghost use Rattle.channel_bounded.specs.Ends.{MayReceive, ReceiverSeen, SenderSeen};
ghost use Rattle.par_eval.specs.Hands.{Answers, HandSeen, IsHandAt, IsSameHand, MaySendNext, Turns};
ghost use Rattle.par_eval.specs.Lanes.{LaneHubs};
ghost use Rattle.par_eval.specs.Messages.{the_stream};

use crate::lanes::Lanes;
use crate::outbox::Outbox;
use crate::turns::HandTurn;
use crate::work::{Work, Worked, result_for};
use channel_bounded::{Body, May, Msg, Receiver, Sender};
use std::alloc::Global;
use std::marker::Model;
use std::sync::Wait;

/// A hand, which works on the loads of its queue in turn. It may go to a thread of its own. Contracts see
/// its ends of its two queues, what it has to send before it goes on, and whether it received its end.
#[derive(Drop)]
pub struct Hand {
    number: u32,
    tasks: Receiver,
    outbox: Outbox,
    over: bool,
}

impl Model for Hand {
    ghost use Rattle.par_eval.specs.Hands.{HandSeen};

    ghost Value = { HandSeen };

    ghost use Rattle.par_eval.specs.Hands.{IsHand, waiting_in};

    ghost view = { λ h. record { number = h.number; tasks = h.tasks; results = h.outbox.sender; waiting = waiting_in h.outbox; over = h.over } };

    ghost invariant = { λ h. IsHand h.number h.tasks h.outbox };
}

impl Hand {
    pub(crate) fn new(number: u32, tasks: Receiver, sender: Sender) -> Hand
        requires tasks { (tasks.got ≡ []) × (tasks.made ≡ 0 ∷ []) }
        requires sender { (sender.stream ≡ 0) × (sender.sent ≡ []) }
        ensures { result ≡ record { number = number; tasks = tasks; results = sender; waiting = []; over = false } }
    {
        Hand {
            number,
            tasks,
            outbox: Outbox {
                sender,
                first: None,
                second: None,
            },
            over: false,
        }
    }

    /// Its ends of its two queues.
    pub(crate) fn into_ends(self) -> (Receiver, Sender)
        ensures tasks { result.0 ≡ self.tasks }
        ensures results { result.1 ≡ self.results }
        ensures made { result.0.made ≡ the_stream ∷ [] }
        ensures stream { result.1.stream ≡ the_stream }
    {
        let Hand {
            number: _,
            tasks,
            outbox,
            over: _,
        } = self;
        (tasks, outbox.into_sender())
    }

    /// Which hand it is, from 0.
    pub fn number(&self) -> u32
        ensures { result ≡ self.now.number }
    {
        self.number
    }

    /// Whether it received its end.
    pub fn is_over(&self) -> bool
        ensures { result ≡ self.now.over }
    {
        self.over
    }

    /// Sends what it has to send first, or, where it has nothing to send, receives the next message and works
    /// on its load. Where memory is wanting in the work the result is empty, with `How::Memory`.
    pub fn turn<W: Work, A: May, R: Wait>(
        &mut self,
        rt: &R,
        alloc: Global,
        lanes: &Lanes<A>,
        work: &W,
    ) -> HandTurn
        requires over { self.old.over ≡ false }
        requires at { IsHandAt lanes.now self.old }
        requires may_send { MaySendNext A.may self.old }
        requires may_receive { MayReceive A.may self.old.tasks }
        ensures turns { Turns (W.result_of work.now) A.may self.old self.new result }
        ensures same { IsSameHand self.old self.new }
        ensures answers { Answers (W.result_of work.now) self.old → Answers (W.result_of work.now) self.new }
    {
        let lane = lanes.lane(self.number);
        if let Some(body) = self.outbox.first.take() {
            return self.outbox.send::<A, R>(rt, lane.results(), body);
        }
        match self.tasks.try_recv(rt, lane.tasks()) {
            None => HandTurn::Empty,
            Some(m) => {
                let Msg { stream: _, body } = m;
                match body {
                    Body::End(_) => {
                        self.over = true;
                        HandTurn::Over
                    }
                    Body::Load(load) => {
                        let Worked { out, how } = result_for(work, alloc, load);
                        self.outbox.first = Some(Body::Load(out));
                        self.outbox.second = Some(Body::End(how));
                        HandTurn::More
                    }
                }
            }
        }
    }
}
