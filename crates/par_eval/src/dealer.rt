//! The dealer.
ghost use Rattle.std.specs.Prelude.{◌≡◌, ◌+◌, ◌%◌, ◌<◌, ◌≤◌, ℕ, ◌∷◌, [], List, None, Some, IfErr, IfNone, IfOk, IfSome, OnErr, OnOk, length, map, true};
ghost use Rattle.channel_bounded.specs.declared.message.Body.TheVariants as told;
ghost use Rattle.channel_bounded.specs.declared.message.Msg.{Msg};
ghost use Rattle.par_eval.specs.Dealers.{AllAnswer, AreInOrder, CollectsAt, DealerSeen, FoundEmptyAt, FoundFullAt, IsDealerAt, IsDealt, IsOpenAt, IsTaken, IsTeam, LaneSeen, MayPost, MayTakeAt, Puts, SendsEnds, Takes, dealt, ends_sent, message, taken, the_end};
ghost use Rattle.par_eval.specs.Hands.{HandSeen, IsHandAt};
ghost use Rattle.par_eval.specs.Lanes.{LaneHubs};
ghost use Rattle.par_eval.specs.Messages.{Meaning};

use crate::hand::Hand;
use crate::lanes::Lanes;
use crate::seats::Seats;
use crate::team::{Team, hire_all};
use crate::work::Worked;
use channel_bounded::{Body, Full, May};
use chunk_core::{List, Load};
use std::alloc::{AllocError, Global};
use std::marker::Model;
use std::sync::Wait;

/// Deals loads to hands in turn, and takes their results back in the same turn. Contracts see its ends of
/// each hand's queues, how many groups are out, and whether it is to end.
#[derive(Drop)]
pub struct Dealer {
    seats: Seats,
    putting: u32,
    taking: u32,
    out: u32,
    ended: Option<u32>,
}

impl Model for Dealer {
    ghost use Rattle.par_eval.specs.Dealers.{DealerSeen, IsDealer};

    ghost Value = { DealerSeen };

    ghost view = { λ d. record { lanes = d.seats; out = d.out; ended = d.ended } };

    ghost invariant = { λ d. IsDealer d.seats d.putting d.taking d.out d.ended };
}

/// The hand whose turn comes after that of this one.
fn next_hand(hand: u32, jobs: usize) -> u32
    requires { (hand < jobs) × (jobs ≤ 64) }
    ensures goes { hand + 1 < jobs → result ≡ hand + 1 }
    ensures wraps { hand + 1 ≡ jobs → result ≡ 0 }
{
    if hand as usize + 1 == jobs {
        0
    } else {
        hand + 1
    }
}

impl Dealer {
    /// So many hands, each with queues of its own.
    pub fn new<A: May>(
        alloc: Global,
        jobs: u32,
    ) -> Result<(Lanes<A>, Dealer, List<Hand>), AllocError>
        requires jobs { (0 < jobs) × (jobs ≤ 64) }
        requires may { A.may [] [] }
        ensures team { IfOk result (λ made. IsTeam jobs made.0 made.1.lanes made.2) }
        ensures out { IfOk result (λ made. made.1.out ≡ 0) }
        ensures ended { IfOk result (λ made. made.1.ended ≡ None) }
    {
        let Team {
            lanes,
            seats,
            hands,
        } = hire_all::<A>(alloc, jobs)?;
        let dealer = Dealer {
            seats: Seats::new(seats),
            putting: 0,
            taking: 0,
            out: 0,
            ended: None,
        };
        Ok((Lanes { lanes }, dealer, List::of_vec(hands)))
    }

    /// How many groups were dealt whose results weren't taken.
    pub fn out(&self) -> u32
        ensures out { result ≡ self.now.out }
        ensures counts { taken self.now.lanes + result ≡ dealt self.now.lanes }
    {
        self.out
    }

    /// Deals a load to the hand whose turn it is. `Full` gives it back.
    pub fn put<A: May, R: Wait>(&mut self, rt: &R, lanes: &Lanes<A>, load: Load) -> Result<(), Full>
        requires room { self.old.out < length self.old.lanes }
        requires open { self.old.ended ≡ None }
        requires at { IsDealerAt lanes.now self.old.lanes }
        requires may { MayPost A.may self.old.lanes (dealt self.old.lanes % length self.old.lanes) (told.Load load) }
        ensures puts { OnOk result (Puts load self.old self.new) }
        ensures dealt { OnOk result (IsDealt self.new.lanes (dealt self.old.lanes) load) }
        ensures back { IfErr result (λ full. full.0 ≡ message (told.Load load)) }
        ensures unsent { OnErr result (self.new ≡ self.old) }
        ensures full { OnErr result (FoundFullAt A.may self.old.lanes (dealt self.old.lanes % length self.old.lanes)) }
        ensures at { IsDealerAt lanes.now self.new.lanes }
    {
        let jobs = self.seats.len();
        match self.seats.post(rt, lanes, self.putting, Body::Load(load)) {
            Err(full) => Err(full),
            Ok(()) => {
                self.putting = next_hand(self.putting, jobs);
                self.out += 1;
                Ok(())
            }
        }
    }

    /// The result of the next group, where it has come whole.
    pub fn take<A: May, R: Wait>(&mut self, rt: &R, lanes: &Lanes<A>) -> Option<Worked>
        requires out { 0 < self.old.out }
        requires at { IsDealerAt lanes.now self.old.lanes }
        requires may { MayTakeAt A.may self.old.lanes (taken self.old.lanes % length self.old.lanes) }
        ensures some { IfSome result (λ w. Takes (w ∷ []) self.old self.new) }
        ensures taken { IfSome result (λ w. IsTaken self.new.lanes (taken self.old.lanes) w) }
        ensures none { IfNone result (Takes [] self.old self.new) }
        ensures empty { IfNone result (FoundEmptyAt A.may self.new.lanes (taken self.old.lanes % length self.old.lanes)) }
        ensures at { IsDealerAt lanes.now self.new.lanes }
    {
        let jobs = self.seats.len();
        match self.seats.take(rt, lanes, self.taking) {
            None => None,
            Some(worked) => {
                self.taking = next_hand(self.taking, jobs);
                self.out -= 1;
                Some(worked)
            }
        }
    }

    /// Sends their end to the hands. After `Full` it is to be called again, and sends what is missing.
    pub fn end<A: May, R: Wait>(&mut self, rt: &R, lanes: &Lanes<A>) -> Result<(), Full>
        requires out { self.old.out ≡ 0 }
        requires missing { ends_sent self.old.ended < length self.old.lanes }
        requires at { IsDealerAt lanes.now self.old.lanes }
        requires may { (h : ℕ) → MayPost A.may self.old.lanes h the_end }
        ensures sends { SendsEnds (ends_sent self.old.ended) (ends_sent self.new.ended) self.old.lanes self.new.lanes }
        ensures ended { OnOk result (self.new.ended ≡ Some (length self.new.lanes)) }
        ensures missing { OnErr result (ends_sent self.new.ended < length self.new.lanes) }
        ensures full { OnErr result (FoundFullAt A.may self.old.lanes (ends_sent self.new.ended)) }
        ensures out { self.new.out ≡ 0 }
        ensures at { IsDealerAt lanes.now self.new.lanes }
    {
        let from = self.ended.unwrap_or(0);
        let (sent, outcome) = self.seats.send_ends(rt, lanes, from);
        self.ended = Some(sent);
        outcome
    }

    /// Takes a hand in.
    pub fn collect<A: May>(&mut self, lanes: &Lanes<A>, hand: Hand)
        requires over { hand.over ≡ true }
        requires ended { self.old.ended ≡ Some (length self.old.lanes) }
        requires at { IsDealerAt lanes.now self.old.lanes }
        requires hand { IsHandAt lanes.now hand }
        requires open { IsOpenAt self.old.lanes hand.number }
        ensures collects { CollectsAt hand self.old.lanes self.new.lanes }
        ensures same { (self.new.out ≡ self.old.out) × (self.new.ended ≡ self.old.ended) }
        ensures in_order { (f : Meaning) → AllAnswer f self.new.lanes → AreInOrder f self.new.lanes }
        ensures at { IsDealerAt lanes.now self.new.lanes }
    {
        self.seats.collect(lanes, hand);
    }
}
