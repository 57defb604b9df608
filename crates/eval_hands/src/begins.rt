//! How a hand gets a thread.
ghost use Rattle.std.specs.Prelude.{◌≡◌};
ghost use Rattle.par_eval.specs.Hands.{IsHandAt};
ghost use Rattle.eval_hands.specs.Hiring.{IsHired};
ghost use Rattle.eval_hands.specs.Returns.{Returns};

use crate::away::{AsHired, run_unless};
use crate::hired::Hired;
use crate::place::Place;
use device_port::Gate;
use par_eval::{Hand, Work};
use std::snapshot::Snapshot;
use std::sync::Wait;
use std::sync::atomic::Ordering::SeqCst;
use std::thread::Scope;

/// Begins a thread for a hand. Where no thread can be started the hand stays here.
pub fn begin<'s, E, W: Work + Send + Sync + 's, R: Wait + Sync + 's, G: Gate + Sync + 's>(
    scope: &Scope<'s, E>,
    place: &'s Place<'s, R, G, W>,
    hand: Hand,
) -> Hired<W>
    requires at { IsHandAt place.now.lanes.now hand }
    ensures { IsHired W.result_of place.now.work.now hand result }
{
    let number = hand.number();
    let promise = AsHired::of(&hand, place.work);
    let work = Snapshot::of(place.work);
    let started = scope.spawn_with(
        promise,
        move || -> Hand
            requires { IsHandAt place.now.lanes.now hand × (work.value ≡ place.now.work.now) }
            ensures { Returns (W.result_of work.value) hand result }
        { run_unless(place, hand, work) },
    );
    match started {
        Ok(handle) => Hired::Away(handle),
        Err(back) => {
            place.refused.store(u64::from(number) + 1, SeqCst);
            let hand = (back.value)();
            place.refused.store(0, SeqCst);
            Hired::Here(hand)
        }
    }
}

/// Begins a thread for a hand, but for one that is alone: nothing could go on beside it but the reading, and it would be
/// waited for after each load, so it makes its turns here.
#[tactic(auto, using(crate::proofs::Backs::returns_same))]
pub(crate) fn hire<'s, E, W: Work + Send + Sync + 's, R: Wait + Sync + 's, G: Gate + Sync + 's>(
    scope: &Scope<'s, E>,
    place: &'s Place<'s, R, G, W>,
    hand: Hand,
    alone: bool,
) -> Hired<W>
    requires at { IsHandAt place.now.lanes.now hand }
    ensures { IsHired W.result_of place.now.work.now hand result }
{
    if alone {
        return Hired::Here(hand);
    }
    begin(scope, place, hand)
}
