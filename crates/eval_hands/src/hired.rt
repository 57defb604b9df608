//! A hand that is here or with a thread.
ghost use Rattle.std.specs.Prelude.{◌≡◌, true};
ghost use Rattle.par_eval.specs.Hands.{HandSeen, IsHandAt};
ghost use Rattle.eval_hands.specs.Hiring.{IsHired};
ghost use Rattle.eval_hands.specs.Returns.{Returns};

use crate::away::{AsHired, run_hand, turn_once};
use crate::place::Place;
use device_port::Gate;
use par_eval::{Hand, Work};
use std::sync::Wait;
use std::thread::{PromisedHandle, Threads};

/// A hand that is here, or with a thread.
#[derive(Drop)]
pub enum Hired<W: Work> {
    Here(Hand),
    Away(PromisedHandle<Hand, AsHired<W>>),
}

/// Gives a hand a turn, unless it is over.
fn step<R: Wait, G: Gate, W: Work>(place: &Place<'_, R, G, W>, hand: &mut Hand)
    requires at { IsHandAt place.now.lanes.now hand.old }
    ensures { Returns (W.result_of place.now.work.now) hand.old hand.new }
{
    if !hand.is_over() {
        turn_once(place, hand);
    }
}

impl<W: Work> Hired<W> {
    /// Gives a hand that is here a turn, unless it is over.
    pub fn turn<R: Wait, G: Gate>(&mut self, place: &Place<'_, R, G, W>)
        requires at { (first : HandSeen) × IsHired W.result_of place.now.work.now first self.old × IsHandAt place.now.lanes.now first }
        ensures hired { (first : HandSeen) → IsHired W.result_of place.now.work.now first self.old → IsHired W.result_of place.now.work.now first self.new }
    {
        match self {
            Hired::Here(hand) => step(place, hand),
            Hired::Away(_) => {}
        }
    }

    /// The hand, once it is over: its thread is joined, or it makes turns here.
    pub fn settle<R: Threads + Wait, G: Gate>(self, place: &Place<'_, R, G, W>) -> Hand
        requires at { (first : HandSeen) × IsHired W.result_of place.now.work.now first self × IsHandAt place.now.lanes.now first }
        ensures returns { (first : HandSeen) → IsHired W.result_of place.now.work.now first self → Returns (W.result_of place.now.work.now) first result }
        ensures over { result.over ≡ true }
    {
        match self {
            Hired::Here(hand) => run_hand(place, hand),
            Hired::Away(handle) => run_hand(place, handle.join(place.rt)),
        }
    }
}
