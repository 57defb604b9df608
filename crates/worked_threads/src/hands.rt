//! Hands: one, two and four of them, each on a thread of its own, do the same work in the same order.
ghost use Rattle.std.specs.Prelude.{◌≡◌, ◌+◌, ◌<◌, ◌≤◌, ℕ, None, false, length, IfOk, IfSome};
ghost use Rattle.std.specs.Thread.{IsSync};
ghost use Rattle.chunk_core.specs.Totals.{IsAt};
ghost use Rattle.par_eval.specs.Dealers.{DealerSeen, IsDealerAt, ends_sent};
ghost use Rattle.par_eval.specs.Hands.{HandSeen, IsHandAt};

use crate::asserts::same;
use channel_bounded::{Body, Full, Msg};
use chunk_core::{Chunk, How, Line, Load, render};
use crossbeam_utils::Backoff;
use par_eval::{Dealer, Hand, HandTurn, PlainLanes, Work, Worked};
use std::alloc::{AllocError, Global};
use std::sync::Wait;
use std::test::Fail;
use std::thread;
use std::thread::Threads;

const LOADS: u32 = 5_000;

/// Gives the text of each load, in bytes: that of a line has a line feed behind it.
struct Rendering;

impl Work for Rendering {
    ghost use Rattle.std.specs.Prelude.{map};
    ghost use Rattle.chunk_core.specs.Elements.{Byte, rendering_of};
    ghost use Rattle.chunk_core.specs.declared.code.How.TheVariants as how;

    ghost result_of = { λ work elements. (map Byte (rendering_of elements), how.Done) };

    fn work(&self, alloc: Global, load: Load) -> Result<Worked, AllocError> {
        let text = render(alloc, &load)?;
        let out = Load::Bytes(Chunk::of_vec(alloc, text.into_vec())?);
        Ok(Worked {
            out,
            how: How::Done,
        })
    }
}

/// A line of a number, as four bytes.
fn numbered(alloc: Global, number: u32) -> Result<Load, AllocError> {
    let mut lines = Vec::new(alloc);
    lines.push(Line::copy_of(alloc, &number.to_le_bytes())?)?;
    Ok(Load::Lines(Chunk::of_vec(alloc, lines)?))
}

/// Whether it is the text of the line of this number.
fn is_text_of(worked: &Worked, number: u32) -> bool {
    let Load::Bytes(text) = &worked.out else {
        return false;
    };
    let [a, b, c, d] = number.to_le_bytes();
    let whole: &[u8] = &[a, b, c, d, b'\n'];
    worked.how == How::Done && text.as_slice() == whole
}

/// Deals a load, and waits where the queue of its hand is full.
fn put<R: Wait>(rt: &R, lanes: &PlainLanes, dealer: &mut Dealer, load: Load)
    requires at { IsDealerAt lanes.now dealer.old.lanes }
    requires open { dealer.old.ended ≡ None }
    requires room { dealer.old.out < length dealer.old.lanes }
    ensures at { IsDealerAt lanes.now dealer.new.lanes }
    ensures open { dealer.new.ended ≡ None }
    ensures out { dealer.new.out ≡ dealer.old.out + 1 }
{
    let backoff = Backoff::new();
    let mut load = load;
    'tries: for _ in rt.forever() {
        match dealer.put(rt, lanes, load) {
            Ok(()) => return,
            Err(Full(Msg { stream: _, body })) => match body {
                Body::Load(back) => load = back,
                Body::End(_) => unreachable!(),
            },
        }
        backoff.snooze();
    }
    unreachable!()
}

/// Takes the next result, and waits until it has come.
fn take<R: Wait>(rt: &R, lanes: &PlainLanes, dealer: &mut Dealer) -> Worked
    requires at { IsDealerAt lanes.now dealer.old.lanes }
    requires out { 0 < dealer.old.out }
    ensures at { IsDealerAt lanes.now dealer.new.lanes }
    ensures open { dealer.new.ended ≡ dealer.old.ended }
    ensures out { dealer.new.out + 1 ≡ dealer.old.out }
{
    let backoff = Backoff::new();
    'tries: for _ in rt.forever() {
        if let Some(worked) = dealer.take(rt, lanes) {
            return worked;
        }
        backoff.snooze();
    }
    unreachable!()
}

/// Takes the next result. How many were in order, of which `next` were so before.
fn take_next<R: Wait>(rt: &R, lanes: &PlainLanes, dealer: &mut Dealer, next: u32) -> u32
    requires at { IsDealerAt lanes.now dealer.old.lanes }
    requires out { 0 < dealer.old.out }
    ensures at { IsDealerAt lanes.now dealer.new.lanes }
    ensures open { dealer.new.ended ≡ dealer.old.ended }
    ensures out { dealer.new.out + 1 ≡ dealer.old.out }
{
    let worked = take(rt, lanes, dealer);
    if is_text_of(&worked, next) {
        next.saturating_add(1)
    } else {
        next
    }
}

/// Deals all loads, and takes results where as many groups are out as there are hands.
fn deal_loads<R: Wait>(
    rt: &R,
    alloc: Global,
    lanes: &PlainLanes,
    dealer: &mut Dealer,
    jobs: u32,
    next: &mut u32,
) -> Result<(), AllocError>
    requires at { IsDealerAt lanes.now dealer.old.lanes }
    requires open { dealer.old.ended ≡ None }
    requires room { dealer.old.out ≤ jobs }
    requires jobs { (0 < jobs) × (jobs ≡ length lanes.now) }
    ensures at { IsDealerAt lanes.now dealer.new.lanes }
    ensures open { dealer.new.ended ≡ None }
{
    for number in 0..LOADS {
        let load = numbered(alloc, number)?;
        if dealer.out() == jobs {
            *next = take_next(rt, lanes, dealer, *next);
        }
        put(rt, lanes, dealer, load);
    }
    Ok(())
}

/// Takes the results of all groups that are out.
fn take_rest<R: Wait>(rt: &R, lanes: &PlainLanes, dealer: &mut Dealer, next: u32) -> u32
    requires at { IsDealerAt lanes.now dealer.old.lanes }
    ensures at { IsDealerAt lanes.now dealer.new.lanes }
    ensures open { dealer.new.ended ≡ dealer.old.ended }
    ensures out { dealer.new.out ≡ 0 }
{
    let mut next = next;
    'rest: while dealer.out() > 0 {
        next = take_next(rt, lanes, dealer, next);
    }
    next
}

/// Sends all hands their end.
fn end_all<R: Wait>(rt: &R, lanes: &PlainLanes, dealer: &mut Dealer)
    requires at { IsDealerAt lanes.now dealer.old.lanes }
    requires out { dealer.old.out ≡ 0 }
    requires missing { ends_sent dealer.old.ended < length dealer.old.lanes }
{
    let backoff = Backoff::new();
    'tries: for _ in rt.forever() {
        if dealer.end(rt, lanes).is_ok() {
            return;
        }
        backoff.snooze();
    }
    unreachable!()
}

/// Deals all loads and takes all results: how many came in order. Where memory is wanting the end comes early.
fn deal_all<R: Wait>(
    rt: &R,
    alloc: Global,
    lanes: &PlainLanes,
    mut dealer: Dealer,
    jobs: u32,
) -> u32
    requires at { IsDealerAt lanes.now dealer.lanes }
    requires new { (dealer.out ≡ 0) × (dealer.ended ≡ None) }
    requires jobs { (0 < jobs) × (jobs ≡ length lanes.now) }
{
    let mut next = 0;
    let _ = deal_loads(rt, alloc, lanes, &mut dealer, jobs, &mut next);
    let next = take_rest(rt, lanes, &mut dealer, next);
    end_all(rt, lanes, &mut dealer);
    next
}

/// Works, where there is a hand, until it has received its end.
fn work<R: Wait>(rt: &R, alloc: Global, lanes: &PlainLanes, hand: Option<Hand>)
    requires hand { IfSome hand (λ h. IsHandAt lanes.now h × (h.over ≡ false)) }
{
    let Some(mut hand) = hand else {
        return;
    };
    let backoff = Backoff::new();
    'turns: for _ in rt.forever() {
        match hand.turn(rt, alloc, lanes, &Rendering) {
            HandTurn::Over => return,
            HandTurn::More => backoff.reset(),
            HandTurn::Empty | HandTurn::Blocked => backoff.snooze(),
        }
    }
    unreachable!()
}

/// Two hands, each on a thread of its own.
fn work_two<R: Threads + Wait + Sync>(
    rt: &R,
    alloc: Global,
    lanes: &PlainLanes,
    first: Option<Hand>,
    second: Option<Hand>,
)
    requires first { IfSome first (λ hand. IsHandAt lanes.now hand × (hand.over ≡ false)) }
    requires second { IfSome second (λ hand. IsHandAt lanes.now hand × (hand.over ≡ false)) }
{
    thread::join(
        rt,
        move ||
            requires { IfSome first (λ hand. IsHandAt lanes.now hand × (hand.over ≡ false)) }
        { work(rt, alloc, lanes, first) },
        move ||
            requires { IfSome second (λ hand. IsHandAt lanes.now hand × (hand.over ≡ false)) }
        { work(rt, alloc, lanes, second) },
    );
}

/// Takes off the last hand, where there is one.
fn last_of(lanes: &PlainLanes, hands: &mut Vec<Hand>) -> Option<Hand>
    requires each { (i : ℕ) (hand : HandSeen) → IsAt hands.old.items i hand → IsHandAt lanes.now hand × (hand.over ≡ false) }
    ensures last { IfSome result (λ hand. IsHandAt lanes.now hand × (hand.over ≡ false)) }
    ensures each { (i : ℕ) (hand : HandSeen) → IsAt hands.new.items i hand → IsHandAt lanes.now hand × (hand.over ≡ false) }
{
    hands.pop()
}

/// Four hands at most, each on a thread of its own.
fn work_four<R: Threads + Wait + Sync>(
    rt: &R,
    alloc: Global,
    lanes: &PlainLanes,
    mut hands: Vec<Hand>,
)
    requires each { (i : ℕ) (hand : HandSeen) → IsAt hands.items i hand → IsHandAt lanes.now hand × (hand.over ≡ false) }
{
    let first = last_of(lanes, &mut hands);
    let second = last_of(lanes, &mut hands);
    let third = last_of(lanes, &mut hands);
    let fourth = last_of(lanes, &mut hands);
    thread::join(
        rt,
        move ||
            requires { IfSome first (λ hand. IsHandAt lanes.now hand × (hand.over ≡ false)) × IfSome second (λ hand. IsHandAt lanes.now hand × (hand.over ≡ false)) × IsSync R.row }
        { work_two(rt, alloc, lanes, first, second) },
        move ||
            requires { IfSome third (λ hand. IsHandAt lanes.now hand × (hand.over ≡ false)) × IfSome fourth (λ hand. IsHandAt lanes.now hand × (hand.over ≡ false)) × IsSync R.row }
        { work_two(rt, alloc, lanes, third, fourth) },
    );
}

/// So many hands that stand at their lanes, and their dealer.
fn hire(alloc: Global, jobs: u32) -> Result<(PlainLanes, Dealer, Vec<Hand>), AllocError>
    requires { (0 < jobs) × (jobs ≤ 4) }
    ensures at { IfOk result (λ team. IsDealerAt team.0 team.1.lanes) }
    ensures new { IfOk result (λ team. (team.1.out ≡ 0) × (team.1.ended ≡ None)) }
    ensures jobs { IfOk result (λ team. jobs ≡ length team.0) }
    ensures each { IfOk result (λ team. (i : ℕ) (hand : HandSeen) → IsAt team.2.items i hand → IsHandAt team.0 hand × (hand.over ≡ false)) }
{
    let (lanes, dealer, hands) = Dealer::new(alloc, jobs)?;
    Ok((lanes, dealer, hands.into_vec()))
}

/// The work of so many hands: how many results came in order.
fn run<R: Threads + Wait + Sync>(rt: &R, alloc: Global, jobs: u32) -> Result<u32, AllocError>
    requires { (0 < jobs) × (jobs ≤ 4) }
{
    let (lanes, dealer, hands) = hire(alloc, jobs)?;
    let lanes = &lanes;
    let ((), in_order) = thread::join(
        rt,
        move ||
            requires each { (i : ℕ) (hand : HandSeen) → IsAt hands.items i hand → IsHandAt lanes.now hand × (hand.over ≡ false) }
            requires sync { IsSync R.row }
        { work_four(rt, alloc, lanes, hands) },
        move || -> u32
            requires at { IsDealerAt lanes.now dealer.lanes }
            requires new { (dealer.out ≡ 0) × (dealer.ended ≡ None) }
            requires jobs { (0 < jobs) × (jobs ≡ length lanes.now) }
        { deal_all(rt, alloc, lanes, dealer, jobs) },
    );
    Ok(in_order)
}

#[test]
fn one_two_and_four_hands(rt: HostRuntime) -> Result<(), Fail> {
    same(&rt, run(&rt, rt.alloc(), 1)?, LOADS);
    same(&rt, run(&rt, rt.alloc(), 2)?, LOADS);
    same(&rt, run(&rt, rt.alloc(), 4)?, LOADS);
    Ok(())
}
