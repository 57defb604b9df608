//! New lanes, each with a hand.
ghost use Rattle.std.specs.Prelude.{◌≡◌, ◌<◌, [], IfOk};
ghost use Rattle.par_eval.specs.Dealers.{IsTeam, LaneSeen, new_hand, new_lane};
ghost use Rattle.par_eval.specs.Hands.{HandSeen};
ghost use Rattle.par_eval.specs.Lanes.{LaneHubs};

use crate::hand::Hand;
use crate::inbox::Inbox;
use crate::lanes::{Lane, NewLane};
use crate::seat::Seat;
use channel_bounded::May;
use std::alloc::{AllocError, Global};

/// The queues of a hand, the dealer's side of them, and the hand.
#[derive(Drop)]
struct Member<A: May> {
    lane: Lane<A>,
    seat: Seat,
    hand: Hand,
}

/// All queues, the dealer's sides of them, and all hands.
#[derive(Drop)]
pub(crate) struct Team<A: May> {
    pub(crate) lanes: Vec<Lane<A>>,
    pub(crate) seats: Vec<Seat>,
    pub(crate) hands: Vec<Hand>,
}

fn hire<A: May>(alloc: Global, number: u32) -> Result<Member<A>, AllocError>
    requires may { A.may [] [] }
    ensures seat { IfOk result (λ new. new.seat ≡ new_lane new.lane) }
    ensures hand { IfOk result (λ new. new.hand ≡ new_hand number new.lane) }
{
    let NewLane {
        lane,
        mut tasks,
        mut results,
    } = Lane::<A>::new(alloc)?;
    let to_hand = tasks.split(lane.tasks(), 0);
    let from_hand = results.split(lane.results(), 0);
    let seat = Seat::new(to_hand, Inbox::new(results));
    let hand = Hand::new(number, tasks, from_hand);
    Ok(Member { lane, seat, hand })
}

/// So many hands, with their queues.
pub(crate) fn hire_all<A: May>(alloc: Global, jobs: u32) -> Result<Team<A>, AllocError>
    requires may { A.may [] [] }
    ensures { IfOk result (λ team. IsTeam jobs team.lanes.items team.seats.items team.hands.items) }
{
    let mut lanes = Vec::new(alloc);
    let mut seats = Vec::new(alloc);
    let mut hands = Vec::new(alloc);
    for number in 0..jobs {
        let Member { lane, seat, hand } = hire::<A>(alloc, number)?;
        lanes.push(lane)?;
        seats.push(seat)?;
        hands.push(hand)?;
    }
    Ok(Team {
        lanes,
        seats,
        hands,
    })
}
