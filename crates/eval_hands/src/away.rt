//! What a thread does with a hand.
ghost use Rattle.std.specs.Prelude.{◌≡◌, false, true};
ghost use Rattle.par_eval.specs.Hands.{IsHandAt};
ghost use Rattle.eval_hands.specs.Returns.{Returns};

use crate::bell::Watch;
use crate::place::Place;
use device_port::Gate;
use par_eval::{Hand, HandTurn, Work};
use std::snapshot::Snapshot;
use std::sync::Wait;
use std::sync::atomic::Ordering::SeqCst;
use std::thread::Promise;

/// A thread gives back the hand that it was given, which did this work.
#[derive(Drop)]
pub struct AsHired<W: Work>(Snapshot<Hand>, Snapshot<W>);

impl<W: Work> AsHired<W> {
    /// The promise for this hand and work.
    pub(crate) fn of(hand: &Hand, work: &W) -> AsHired<W>
        ensures hand { result.0.value ≡ hand.now }
        ensures work { result.1.value ≡ work.now }
    {
        AsHired(Snapshot::of(hand), Snapshot::of(work))
    }
}

impl<W: Work> Promise<Hand> for AsHired<W> {
    ghost use Rattle.eval_hands.specs.Returns.{Returns};

    ghost kept_by = { λ p hand. Returns (W.result_of p.1.value) p.0.value hand };
}

/// Gives a hand one turn, behind the gate.
pub(crate) fn turn_once<R: Wait, G: Gate, W: Work>(
    place: &Place<'_, R, G, W>,
    hand: &mut Hand,
) -> HandTurn
    requires over { hand.old.over ≡ false }
    requires at { IsHandAt place.now.lanes.now hand.old }
    ensures { Returns (W.result_of place.now.work.now) hand.old hand.new }
{
    place.gate.pass(hand.number());
    hand.turn(place.rt, place.alloc, place.lanes, place.work)
}

/// Gives a hand turns until it is over. Where it finds nothing to do it waits before it tries again.
#[tactic(auto, using(crate::proofs::Backs::returns_same, crate::proofs::Backs::returns_then, crate::proofs::Backs::hand_stays))]
pub(crate) fn run_hand<R: Wait, G: Gate, W: Work>(place: &Place<'_, R, G, W>, hand: Hand) -> Hand
    requires at { IsHandAt place.now.lanes.now hand }
    ensures returns { Returns (W.result_of place.now.work.now) hand result }
    ensures over { result.over ≡ true }
{
    let mut hand = hand;
    let mut watch = Watch::new();
    'turns: for _ in place.rt.forever() {
        if hand.is_over() {
            return hand;
        }
        match turn_once(place, &mut hand) {
            HandTurn::Empty | HandTurn::Blocked => {
                watch.wait_for_caller(place.rt, place.bells, hand.number());
            }
            HandTurn::More | HandTurn::Over => {
                place.bells.ring_caller(hand.number());
                watch.reset();
            }
        }
    }
    unreachable!()
}

/// Gives a hand turns until it is over, unless it is refused: then it comes back as it is.
#[tactic(auto, using(crate::proofs::Backs::returns_same))]
pub(crate) fn run_unless<R: Wait, G: Gate, W: Work>(
    place: &Place<'_, R, G, W>,
    hand: Hand,
    work: Snapshot<W>,
) -> Hand
    requires at { IsHandAt place.now.lanes.now hand }
    requires work { work.value ≡ place.now.work.now }
    ensures { Returns (W.result_of work.value) hand result }
{
    let _ = work;
    if place.refused.load(SeqCst) == u64::from(hand.number()) + 1 {
        return hand;
    }
    run_hand(place, hand)
}
