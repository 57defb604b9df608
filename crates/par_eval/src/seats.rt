//! A dealer's sides of all hands.
ghost use Rattle.std.specs.Prelude.{◌≡◌, ◌<◌, ◌≤◌, ◌∷◌, [], ℕ, IfErr, IfNone, IfSome, OnErr, OnOk, length};
ghost use Rattle.channel_bounded.specs.declared.message.Msg.{Msg};
ghost use Rattle.par_eval.specs.Dealers.{CollectsAt, FoundEmptyAt, FoundFullAt, IsDealerAt, IsOpenAt, LaneSeen, MayPost, MayTakeAt, PostsAt, SendsEnds, TakesAt, message, the_end};
ghost use Rattle.par_eval.specs.Hands.{HandSeen, IsHandAt};
ghost use Rattle.par_eval.specs.Lanes.{LaneHubs};

use crate::hand::Hand;
use crate::lanes::Lanes;
use crate::seat::Seat;
use crate::work::Worked;
use channel_bounded::{Body, Full, May};
use chunk_core::How;
use std::marker::Model;
use std::sync::Wait;

/// Sends a message to a hand.
pub(crate) fn post<A: May, R: Wait>(
    rt: &R,
    lanes: &Lanes<A>,
    seats: &mut [Seat],
    number: u32,
    body: Body,
) -> Result<(), Full>
    requires within { number < length seats.old }
    requires at { IsDealerAt lanes.now seats.old }
    requires open { IsOpenAt seats.old number }
    requires may { MayPost A.may seats.old number body }
    ensures sent { OnOk result (PostsAt body number seats.old seats.new) }
    ensures back { IfErr result (λ full. full.0 ≡ message body) }
    ensures unsent { OnErr result (seats.new ≡ seats.old) }
    ensures full { OnErr result (FoundFullAt A.may seats.old number) }
{
    let lane = lanes.lane(number);
    let seat = &mut seats[number as usize];
    seat.post(rt, lane, body)
}

/// The next result of a hand, where it has come whole.
pub(crate) fn take<A: May, R: Wait>(
    rt: &R,
    lanes: &Lanes<A>,
    seats: &mut [Seat],
    number: u32,
) -> Option<Worked>
    requires within { number < length seats.old }
    requires at { IsDealerAt lanes.now seats.old }
    requires may { MayTakeAt A.may seats.old number }
    ensures some { IfSome result (λ w. TakesAt (w ∷ []) number seats.old seats.new) }
    ensures none { IfNone result (TakesAt [] number seats.old seats.new) }
    ensures empty { IfNone result (FoundEmptyAt A.may seats.new number) }
{
    let lane = lanes.lane(number);
    let seat = &mut seats[number as usize];
    seat.take(rt, lane)
}

/// Takes a hand in.
pub(crate) fn collect<A: May>(lanes: &Lanes<A>, seats: &mut [Seat], hand: Hand)
    requires at { IsDealerAt lanes.now seats.old }
    requires hand { IsHandAt lanes.now hand }
    requires open { IsOpenAt seats.old hand.number }
    ensures { CollectsAt hand seats.old seats.new }
{
    let number = hand.number();
    let lane = lanes.lane(number);
    let seat = &mut seats[number as usize];
    seat.collect(lane, hand);
}

/// Sends their end to all hands from this number on, until a queue is full: how many hands have theirs.
pub(crate) fn send_ends<A: May, R: Wait>(
    rt: &R,
    lanes: &Lanes<A>,
    seats: &mut [Seat],
    from: u32,
) -> (u32, Result<(), Full>)
    requires few { length seats.old ≤ 64 }
    requires from { from ≤ length seats.old }
    requires at { IsDealerAt lanes.now seats.old }
    requires open { (h : ℕ) → IsOpenAt seats.old h }
    requires may { (h : ℕ) → MayPost A.may seats.old h the_end }
    ensures sends { SendsEnds from result.0 seats.old seats.new }
    ensures within { result.0 ≤ length seats.old }
    ensures all { OnOk result.1 (result.0 ≡ length seats.old) }
    ensures full { OnErr result.1 (FoundFullAt A.may seats.old result.0) }
    ensures missing { OnErr result.1 (result.0 < length seats.old) }
    ensures from { from ≤ result.0 }
{
    let jobs = seats.len() as u32;
    for number in from..jobs {
        match post(rt, lanes, seats, number, Body::End(How::Done)) {
            Ok(()) => {}
            Err(full) => return (number, Err(full)),
        }
    }
    (jobs, Ok(()))
}

/// A dealer's sides of all hands. Contracts see their list.
#[derive(Drop)]
pub(crate) struct Seats {
    items: Vec<Seat>,
}

impl Model for Seats {
    ghost use Rattle.std.specs.Prelude.{List};
    ghost use Rattle.par_eval.specs.Dealers.{LaneSeen};

    ghost Value = { List LaneSeen };

    ghost view = { λ s. s.items.items };
}

impl Seats {
    pub(crate) fn new(items: Vec<Seat>) -> Seats
        ensures { result ≡ items.items }
    {
        Seats { items }
    }

    pub(crate) fn len(&self) -> usize
        ensures { result ≡ length self.now }
    {
        self.items.as_slice().len()
    }

    /// `post` for one of these.
    pub(crate) fn post<A: May, R: Wait>(
        &mut self,
        rt: &R,
        lanes: &Lanes<A>,
        number: u32,
        body: Body,
    ) -> Result<(), Full>
        requires within { number < length self.old }
        requires at { IsDealerAt lanes.now self.old }
        requires open { IsOpenAt self.old number }
        requires may { MayPost A.may self.old number body }
        ensures sent { OnOk result (PostsAt body number self.old self.new) }
        ensures back { IfErr result (λ full. full.0 ≡ message body) }
        ensures unsent { OnErr result (self.new ≡ self.old) }
        ensures full { OnErr result (FoundFullAt A.may self.old number) }
    {
        post(rt, lanes, self.items.as_mut_slice(), number, body)
    }

    /// `take` for one of these.
    pub(crate) fn take<A: May, R: Wait>(
        &mut self,
        rt: &R,
        lanes: &Lanes<A>,
        number: u32,
    ) -> Option<Worked>
        requires within { number < length self.old }
        requires at { IsDealerAt lanes.now self.old }
        requires may { MayTakeAt A.may self.old number }
        ensures some { IfSome result (λ w. TakesAt (w ∷ []) number self.old self.new) }
        ensures none { IfNone result (TakesAt [] number self.old self.new) }
        ensures empty { IfNone result (FoundEmptyAt A.may self.new number) }
    {
        take(rt, lanes, self.items.as_mut_slice(), number)
    }

    /// `collect` for one of these.
    pub(crate) fn collect<A: May>(&mut self, lanes: &Lanes<A>, hand: Hand)
        requires at { IsDealerAt lanes.now self.old }
        requires hand { IsHandAt lanes.now hand }
        requires open { IsOpenAt self.old hand.number }
        ensures { CollectsAt hand self.old self.new }
    {
        collect(lanes, self.items.as_mut_slice(), hand);
    }

    /// `send_ends` for these.
    pub(crate) fn send_ends<A: May, R: Wait>(
        &mut self,
        rt: &R,
        lanes: &Lanes<A>,
        from: u32,
    ) -> (u32, Result<(), Full>)
        requires few { length self.old ≤ 64 }
        requires from { from ≤ length self.old }
        requires at { IsDealerAt lanes.now self.old }
        requires open { (h : ℕ) → IsOpenAt self.old h }
        requires may { (h : ℕ) → MayPost A.may self.old h the_end }
        ensures sends { SendsEnds from result.0 self.old self.new }
        ensures within { result.0 ≤ length self.old }
        ensures all { OnOk result.1 (result.0 ≡ length self.old) }
        ensures full { OnErr result.1 (FoundFullAt A.may self.old result.0) }
        ensures missing { OnErr result.1 (result.0 < length self.old) }
    {
        send_ends(rt, lanes, self.items.as_mut_slice(), from)
    }
}
