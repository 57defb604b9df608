//! All hands of a run and their dealer, of which loads are dealt and results taken in order.
ghost use Rattle.std.specs.Prelude.{◌≡◌, ◌+◌, ◌<◌, ◌≤◌, ◌++◌, ◌∷◌, [], None, Some, ℕ, List, length, vec_capacity};
ghost use Rattle.chunk_core.specs.Totals.{IsAt};
ghost use Rattle.chunk_core.specs.declared.load.Load.{Load};
ghost use Rattle.channel_bounded.specs.declared.message.Body.TheVariants as told;
ghost use Rattle.par_eval.specs.Dealers.{AreInOrder, IsDealerAt, IsTeam, ends_sent, message};
ghost use Rattle.par_eval.specs.Messages.{AreResults};
ghost use Rattle.par_eval.specs.declared.work.Worked.{Worked};
ghost use Rattle.eval_hands.specs.Crews.{AreAllAt, AreHired, AreUncollected, HasDealt, IsCrew};

use crate::begins::hire;
use crate::bell::Watch;
use crate::hired::Hired;
use crate::place::Place;
use channel_bounded::{Body, Full, Msg};
use chunk_core::{List, Load};
use device_port::Gate;
use par_eval::{Dealer, Hand, Work, Worked};
use std::sync::Wait;
use std::thread::{Scope, Threads};

/// The dealer of a run, and its hands, by their numbers.
#[derive(Drop)]
pub struct Crew<W: Work> {
    pub(crate) dealer: Dealer,
    pub(crate) hands: Vec<Hired<W>>,
}

/// Begins a thread for each hand, but for one that is alone.
fn begin_all<'s, E, W: Work + Send + Sync + 's, R: Wait + Sync + 's, G: Gate + Sync + 's>(
    scope: &Scope<'s, E>,
    place: &'s Place<'s, R, G, W>,
    hands: List<Hand>,
    room: Vec<Hired<W>>,
) -> Vec<Hired<W>>
    requires at { AreAllAt place.now.lanes.now hands }
    requires empty { room.items ≡ [] }
    requires capacity { length hands ≤ vec_capacity room }
    ensures { AreHired W.result_of place.now.work.now place.now.lanes.now result.items }
{
    let alone = hands.len() == 1;
    let mut hired = room;
    for hand in hands.into_vec() {
        hired.push_reserved(hire(scope, place, hand, alone));
    }
    hired
}

/// Gives each hand that is here a turn, unless it is over.
fn turn_all<R: Wait, G: Gate, W: Work>(place: &Place<'_, R, G, W>, hands: &mut Vec<Hired<W>>)
    requires hired { AreHired W.result_of place.now.work.now place.now.lanes.now hands.old.items }
    ensures { AreHired W.result_of place.now.work.now place.now.lanes.now hands.new.items }
{
    for i in 0..hands.len() {
        hands[i].turn(place);
    }
}

/// The load of a message that found no room.
fn load_back(full: Full) -> Load
    requires { (load : Load) × (full.0 ≡ message (told.Load load)) }
    ensures { (load : Load) → full.0 ≡ message (told.Load load) → result ≡ load }
{
    let Full(Msg { stream: _, body }) = full;
    match body {
        Body::Load(load) => load,
        Body::End(_) => unreachable!(),
    }
}

/// The message of an end that found no room is given up: the dealer makes it again.
fn give_up(_full: Full) {}

/// Sends the hands their ends.
fn end_all<R: Wait, G: Gate, W: Work>(
    place: &Place<'_, R, G, W>,
    dealer: &mut Dealer,
    hands: &mut Vec<Hired<W>>,
)
    requires at { IsDealerAt place.now.lanes.now dealer.old.lanes }
    requires out { dealer.old.out ≡ 0 }
    requires missing { ends_sent dealer.old.ended < length dealer.old.lanes }
    requires hired { AreHired W.result_of place.now.work.now place.now.lanes.now hands.old.items }
    requires open { AreUncollected dealer.old.lanes }
    ensures at { IsDealerAt place.now.lanes.now dealer.new.lanes }
    ensures ended { dealer.new.ended ≡ Some (length dealer.new.lanes) }
    ensures dealt { (ds : List Load) (ws : List Worked) → HasDealt dealer.old.lanes ds ws → HasDealt dealer.new.lanes ds ws }
    ensures open { AreUncollected dealer.new.lanes }
    ensures hired { AreHired W.result_of place.now.work.now place.now.lanes.now hands.new.items }
{
    let mut watch = Watch::new();
    'tries: for _ in place.rt.forever() {
        match dealer.end(place.rt, place.lanes) {
            Ok(()) => {
                place.bells.ring_all();
                return;
            }
            Err(full) => {
                give_up(full);
                turn_all(place, hands);
                watch.wait_for_hands(place.rt, place.bells);
            }
        }
    }
    unreachable!()
}

/// Takes all hands in, once they are over.
fn collect_all<R: Threads + Wait, G: Gate, W: Work>(
    place: &Place<'_, R, G, W>,
    dealer: &mut Dealer,
    mut hands: Vec<Hired<W>>,
)
    requires at { IsDealerAt place.now.lanes.now dealer.old.lanes }
    requires some { 0 < length dealer.old.lanes }
    requires ended { dealer.old.ended ≡ Some (length dealer.old.lanes) }
    requires open { AreUncollected dealer.old.lanes }
    requires hired { AreHired W.result_of place.now.work.now place.now.lanes.now hands.items }
    ensures dealt { (ds : List Load) (ws : List Worked) → HasDealt dealer.old.lanes ds ws → HasDealt dealer.new.lanes ds ws }
    ensures in_order { AreInOrder (W.result_of place.now.work.now) dealer.new.lanes }
{
    while let Some(hired) = hands.pop() {
        let hand = hired.settle(place);
        dealer.collect(place.lanes, hand);
    }
}

impl<W: Work> Crew<W> {
    /// A crew of new hands, each of which has a thread where there are several and one can be started. The room is for the hands.
    pub fn begin<'s, E, R: Wait + Sync + 's, G: Gate + Sync + 's>(
        scope: &Scope<'s, E>,
        place: &'s Place<'s, R, G, W>,
        dealer: Dealer,
        hands: List<Hand>,
        room: Vec<Hired<W>>,
    ) -> Crew<W>
    where
        W: Send + Sync + 's,
        requires team { (jobs : ℕ) × IsTeam jobs place.now.lanes.now dealer.lanes hands × (0 < jobs) }
        requires new { (dealer.out ≡ 0) × (dealer.ended ≡ None) }
        requires empty { room.items ≡ [] }
        requires capacity { length hands ≤ vec_capacity room }
        ensures { IsCrew W.result_of place.now.work.now place.now.lanes.now result [] [] }
    {
        let hands = begin_all(scope, place, hands, room);
        Crew { dealer, hands }
    }

    /// How many loads were dealt whose results weren't taken.
    pub fn out<R, G>(&self, place: &Place<'_, R, G, W>) -> u32
        ensures { (ds : List Load) (ws : List Worked) → IsCrew W.result_of place.now.work.now place.now.lanes.now self.now ds ws → length ws + result ≡ length ds }
    {
        let _place = place;
        self.dealer.out()
    }

    /// Deals a load, where fewer are out than there are hands.
    pub fn put<R: Wait, G: Gate>(&mut self, place: &Place<'_, R, G, W>, load: Load)
        requires crew { (ds : List Load) × (ws : List Worked) × IsCrew W.result_of place.now.work.now place.now.lanes.now self.old ds ws × (length ds < length ws + length place.now.lanes.now) }
        ensures { (ds : List Load) (ws : List Worked) → IsCrew W.result_of place.now.work.now place.now.lanes.now self.old ds ws → IsCrew W.result_of place.now.work.now place.now.lanes.now self.new (ds ++ load ∷ []) ws }
    {
        let mut load = load;
        let mut watch = Watch::new();
        'tries: for _ in place.rt.forever() {
            match self.dealer.put(place.rt, place.lanes, load) {
                Ok(()) => {
                    place.bells.ring_next();
                    return;
                }
                Err(full) => {
                    load = load_back(full);
                    turn_all(place, &mut self.hands);
                    watch.wait_for_hands(place.rt, place.bells);
                }
            }
        }
        unreachable!()
    }

    /// The result of the load that comes next in the order of the dealing, where one is out.
    pub fn take<R: Wait, G: Gate>(&mut self, place: &Place<'_, R, G, W>) -> Worked
        requires crew { (ds : List Load) × (ws : List Worked) × IsCrew W.result_of place.now.work.now place.now.lanes.now self.old ds ws × (length ws < length ds) }
        ensures { (ds : List Load) (ws : List Worked) → IsCrew W.result_of place.now.work.now place.now.lanes.now self.old ds ws → IsCrew W.result_of place.now.work.now place.now.lanes.now self.new ds (ws ++ result ∷ []) }
    {
        let mut watch = Watch::new();
        'tries: for _ in place.rt.forever() {
            match self.dealer.take(place.rt, place.lanes) {
                Some(worked) => {
                    place.bells.count_taken();
                    return worked;
                }
                None => {
                    turn_all(place, &mut self.hands);
                    watch.wait_for_hands(place.rt, place.bells);
                }
            }
        }
        unreachable!()
    }

    /// Ends and joins all hands, once all results were taken: they are, in order, what comes of the loads.
    pub fn finish<R: Threads + Wait, G: Gate>(self, place: &Place<'_, R, G, W>)
        requires crew { (ds : List Load) × (ws : List Worked) × IsCrew W.result_of place.now.work.now place.now.lanes.now self ds ws × (length ws ≡ length ds) }
        ensures { (ds : List Load) (ws : List Worked) → IsCrew W.result_of place.now.work.now place.now.lanes.now self ds ws → length ws ≡ length ds → AreResults (W.result_of place.now.work.now) ds ws }
    {
        let Crew {
            mut dealer,
            mut hands,
        } = self;
        end_all(place, &mut dealer, &mut hands);
        collect_all(place, &mut dealer, hands);
    }
}
