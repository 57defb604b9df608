//! Topics: the calls in turn, and a publisher and two subscribers on three threads.
ghost use Rattle.std.specs.Prelude.{◌≡◌, false};
ghost use Rattle.std.specs.Thread.{IsSync};
ghost use Rattle.topic_hub.specs.Subscribers.{IsAtQueue};
ghost use Rattle.topic_hub.specs.Topics.{IsOf, KeepsTopic, NothingPending, PublisherSeen};

use crate::asserts::same;
use channel_bounded::Body;
use chunk_core::{Chunk, How, Load};
use std::alloc::{AllocError, Global};
use std::sync::Wait;
use std::test::Fail;
use std::thread;
use std::thread::Threads;
use topic_hub::{OfferRefused, PlainTopic, Publisher, Pushed, Subscriber, topic};

const LOADS: u32 = 5_000;

/// A load with a number, as four bytes.
fn numbered(alloc: Global, number: u32) -> Result<Load, AllocError> {
    let bytes = Chunk::of_vec(alloc, number.to_le_bytes().to_vec(alloc)?)?;
    Ok(Load::Bytes(bytes))
}

fn number_of(load: &Load) -> Option<u32> {
    let Load::Bytes(bytes) = load else {
        return None;
    };
    let bytes = bytes.as_slice();
    if bytes.len() != 4 {
        return None;
    }
    Some(u32::from_le_bytes([bytes[0], bytes[1], bytes[2], bytes[3]]))
}

/// Pushes until nothing is pending.
fn push_all<R: Wait>(rt: &R, hub: &PlainTopic, publisher: &mut Publisher)
    requires topic { IsOf hub.now publisher.old }
    ensures none { NothingPending publisher.new }
    ensures topic { IsOf hub.now publisher.new }
    ensures keeps { KeepsTopic publisher.old publisher.new }
    ensures ended { publisher.new.ended ≡ publisher.old.ended }
{
    'pushes: for _ in rt.forever() {
        if let Pushed::All = publisher.push(rt, hub) {
            return;
        }
        thread::yield_now();
    }
    unreachable!()
}

/// Publishes the loads with the numbers below `count`.
fn publish_numbers<R: Wait>(
    rt: &R,
    alloc: Global,
    hub: &PlainTopic,
    publisher: &mut Publisher,
    count: u32,
) -> Result<(), OfferRefused>
    requires topic { IsOf hub.now publisher.old }
    requires none { NothingPending publisher.old }
    requires open { publisher.old.ended ≡ false }
    ensures topic { IsOf hub.now publisher.new }
    ensures none { NothingPending publisher.new }
    ensures open { publisher.new.ended ≡ false }
{
    for number in 0..count {
        let Ok(load) = numbered(alloc, number) else {
            return Err(OfferRefused::Memory);
        };
        publisher.offer(&load)?;
        push_all(rt, hub, publisher);
    }
    Ok(())
}

/// Publishes all loads and the end. Where memory is wanting the end comes early.
fn publish_all<R: Wait>(
    rt: &R,
    alloc: Global,
    hub: &PlainTopic,
    mut publisher: Publisher,
) -> Publisher
    requires topic { IsOf hub.now publisher }
    requires none { NothingPending publisher }
    requires open { publisher.ended ≡ false }
{
    let _ = publish_numbers(rt, alloc, hub, &mut publisher, LOADS);
    publisher.end(How::Done);
    push_all(rt, hub, &mut publisher);
    publisher
}

/// How many loads came with this one, or the largest number where one of them was not the next.
fn one_more(came: u32, load: &Load) -> u32 {
    if number_of(load) == Some(came) {
        came.saturating_add(1)
    } else {
        u32::MAX
    }
}

/// Receives until the end. How many loads came, or the largest number where one was not the next.
fn receive_all<R: Wait>(rt: &R, hub: &PlainTopic, mut subscriber: Subscriber) -> (Subscriber, u32)
    requires at { IsAtQueue hub.now subscriber }
{
    let mut came = 0;
    'receipts: for _ in rt.forever() {
        match subscriber.next(rt, hub) {
            Some(Body::Load(load)) => came = one_more(came, &load),
            Some(Body::End(_)) => return (subscriber, came),
            None => thread::yield_now(),
        }
    }
    unreachable!()
}

/// Two subscribers, each on a thread of its own.
fn receive_two<R: Threads + Wait + Sync>(
    rt: &R,
    hub: &PlainTopic,
    first: Subscriber,
    second: Subscriber,
) -> ((Subscriber, u32), (Subscriber, u32))
    requires first { IsAtQueue hub.now first }
    requires second { IsAtQueue hub.now second }
{
    thread::join(
        rt,
        move || -> (Subscriber, u32)
            requires { IsAtQueue hub.now first }
        { receive_all(rt, hub, first) },
        move || -> (Subscriber, u32)
            requires { IsAtQueue hub.now second }
        { receive_all(rt, hub, second) },
    )
}

/// A publisher and two subscribers, each on a thread of its own. How many loads came to each, as `receive_all` says.
fn run_three<R: Threads + Wait + Sync>(
    rt: &R,
    alloc: Global,
    hub: &PlainTopic,
    publisher: Publisher,
    first: Subscriber,
    second: Subscriber,
) -> (u32, u32)
    requires topic { IsOf hub.now publisher }
    requires none { NothingPending publisher }
    requires open { publisher.ended ≡ false }
    requires first { IsAtQueue hub.now first }
    requires second { IsAtQueue hub.now second }
{
    let (_publisher, ((_first, one), (_second, two))) = thread::join(
        rt,
        move || -> Publisher
            requires { IsOf hub.now publisher × NothingPending publisher × (publisher.ended ≡ false) }
        { publish_all(rt, alloc, hub, publisher) },
        move || -> ((Subscriber, u32), (Subscriber, u32))
            requires { IsAtQueue hub.now first × IsAtQueue hub.now second × IsSync R.row }
        { receive_two(rt, hub, first, second) },
    );
    (one, two)
}

#[test]
fn three_threads(rt: HostRuntime) -> Result<(), Fail> {
    let (hub, mut publisher): (PlainTopic, Publisher) = topic(rt.alloc(), 2, 4)?;
    let Some(first) = publisher.subscribe(&hub) else {
        return Err(Fail::from("there was no place"));
    };
    let Some(second) = publisher.subscribe(&hub) else {
        return Err(Fail::from("there was no place"));
    };
    let came = run_three(&rt, rt.alloc(), &hub, publisher, first, second);
    same(&rt, came, (LOADS, LOADS));
    Ok(())
}
