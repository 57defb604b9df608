//! Channels: each call once with ample memory, and four senders on threads of their own.
ghost use Rattle.std.specs.Prelude.{◌≡◌, ℕ, ◌++◌, ◌∷◌, [], List, IsTrue, IfOk};
ghost use Rattle.std.specs.Thread.{IsSync};
ghost use Rattle.chunk_core.specs.Lists.{IsAmong};
ghost use Rattle.channel_bounded.specs.declared.message.Msg.{Msg};
ghost use Rattle.channel_bounded.specs.Ends.{HubSeen, SenderSeen, ReceiverSeen};
ghost use Rattle.channel_bounded.specs.Streams.{of_stream};

use crate::asserts::{holds, same};
use channel_bounded::{Body, Full, Msg, PlainHub, Receiver, Sender};
use chunk_core::{Chunk, How, Load};
use std::alloc::{AllocError, Global};
use std::sync::Wait;
use std::test::Fail;
use std::thread;
use std::thread::Threads;

const MESSAGES: u32 = 10_000;

/// A message with a number, as four bytes.
fn numbered(alloc: Global, stream: u32, number: u32) -> Result<Msg, AllocError>
    ensures { IfOk result (λ m. m.stream ≡ stream) }
{
    let bytes = Chunk::of_vec(alloc, number.to_le_bytes().to_vec(alloc)?)?;
    let body = Body::Load(Load::Bytes(bytes));
    Ok(Msg { stream, body })
}

fn number_of(body: &Body) -> Option<u32> {
    let Body::Load(Load::Bytes(bytes)) = body else {
        return None;
    };
    let bytes = bytes.as_slice();
    if bytes.len() != 4 {
        return None;
    }
    Some(u32::from_le_bytes([bytes[0], bytes[1], bytes[2], bytes[3]]))
}

fn ending(stream: u32) -> Msg
    ensures { result.stream ≡ stream }
{
    Msg {
        stream,
        body: Body::End(How::Done),
    }
}

/// Sends a message, and waits where the queue is full.
fn send<R: Wait>(rt: &R, hub: &PlainHub, sender: &mut Sender, m: Msg)
    requires fits { sender.old.hub ≡ hub.now.id }
    requires stream { m.stream ≡ sender.old.stream }
    ensures { sender.new ≡ record sender.old { sent = sender.old.sent ++ m ∷ [] } }
{
    let mut m = m;
    'tries: for _ in rt.forever() {
        match sender.try_send(rt, hub, m) {
            Ok(()) => return,
            Err(Full(back)) => m = back,
        }
        thread::yield_now();
    }
    unreachable!()
}

/// Sends messages with the numbers below `count`.
fn send_numbers<R: Wait>(
    rt: &R,
    alloc: Global,
    hub: &PlainHub,
    sender: &mut Sender,
    stream: u32,
    count: u32,
) -> Result<(), AllocError>
    requires { (sender.old.hub ≡ hub.now.id) × (sender.old.stream ≡ stream) }
    ensures { (sender.new.hub ≡ hub.now.id) × (sender.new.stream ≡ stream) }
{
    for number in 0..count {
        send(rt, hub, sender, numbered(alloc, stream, number)?);
    }
    Ok(())
}

/// Sends all messages of a stream and its end. Where memory is wanting the end comes early.
fn send_all<R: Wait>(
    rt: &R,
    alloc: Global,
    hub: &PlainHub,
    mut sender: Sender,
    stream: u32,
) -> Sender
    requires { (sender.hub ≡ hub.now.id) × (sender.stream ≡ stream) }
    ensures { (result.hub ≡ hub.now.id) × (result.stream ≡ stream) }
{
    let _ = send_numbers(rt, alloc, hub, &mut sender, stream, MESSAGES);
    send(rt, hub, &mut sender, ending(stream));
    sender
}

/// What came of four streams: the next number of each, how many ended whole, and how many
/// messages were not the next.
#[derive(Drop)]
struct Tally {
    next: [u32; 4],
    ended: u32,
    whole: u32,
    wrong: u32,
}

impl Tally {
    fn note(&mut self, m: &Msg) {
        let at = m.stream as usize;
        if at >= 4 {
            self.wrong = self.wrong.saturating_add(1);
            return;
        }
        let next = self.next[at];
        if let Body::End(How::Done) = m.body {
            self.ended = self.ended.saturating_add(1);
            if next == MESSAGES {
                self.whole = self.whole.saturating_add(1);
            }
        } else if number_of(&m.body) == Some(next) {
            self.next[at] = next.saturating_add(1);
        } else {
            self.wrong = self.wrong.saturating_add(1);
        }
    }
}

/// Receives until four streams have ended.
fn receive_all<R: Wait>(rt: &R, hub: &PlainHub, mut receiver: Receiver) -> (Receiver, Tally)
    requires { receiver.hub ≡ hub.now.id }
    ensures { result.0.hub ≡ hub.now.id }
{
    let mut tally = Tally {
        next: [0; 4],
        ended: 0,
        whole: 0,
        wrong: 0,
    };
    'receives: for _ in rt.forever() {
        match receiver.try_recv(rt, hub) {
            Some(m) => tally.note(&m),
            None => thread::yield_now(),
        }
        if tally.ended == 4 {
            return (receiver, tally);
        }
    }
    unreachable!()
}

/// Two senders, each on a thread of its own.
fn send_two<R: Threads + Wait + Sync>(
    rt: &R,
    alloc: Global,
    hub: &PlainHub,
    first: (Sender, u32),
    second: (Sender, u32),
) -> (Sender, Sender)
    requires first { (first.0.hub ≡ hub.now.id) × (first.0.stream ≡ first.1) }
    requires second { (second.0.hub ≡ hub.now.id) × (second.0.stream ≡ second.1) }
    ensures { (result.0.hub ≡ hub.now.id) × (result.1.hub ≡ hub.now.id) }
{
    let (one, first) = first;
    let (two, second) = second;
    thread::join(
        rt,
        move || -> Sender
            requires { (one.hub ≡ hub.now.id) × (one.stream ≡ first) }
            ensures { result.hub ≡ hub.entry.now.id }
        { send_all(rt, alloc, hub, one, first) },
        move || -> Sender
            requires { (two.hub ≡ hub.now.id) × (two.stream ≡ second) }
            ensures { result.hub ≡ hub.entry.now.id }
        { send_all(rt, alloc, hub, two, second) },
    )
}

/// Four senders, those of the streams 0 to 3.
fn send_four<R: Threads + Wait + Sync>(
    rt: &R,
    alloc: Global,
    hub: &PlainHub,
    low: (Sender, Sender),
    high: (Sender, Sender),
) -> ((Sender, Sender), (Sender, Sender))
    requires low { (low.0.hub ≡ hub.now.id) × (low.0.stream ≡ 0) × (low.1.hub ≡ hub.now.id) × (low.1.stream ≡ 1) }
    requires high { (high.0.hub ≡ hub.now.id) × (high.0.stream ≡ 2) × (high.1.hub ≡ hub.now.id) × (high.1.stream ≡ 3) }
    ensures low { (result.0.0.hub ≡ hub.now.id) × (result.0.1.hub ≡ hub.now.id) }
    ensures high { (result.1.0.hub ≡ hub.now.id) × (result.1.1.hub ≡ hub.now.id) }
{
    let (zero, one) = low;
    let (two, three) = high;
    thread::join(
        rt,
        move || -> (Sender, Sender)
            requires { (zero.hub ≡ hub.now.id) × (zero.stream ≡ 0) × (one.hub ≡ hub.now.id) × (one.stream ≡ 1) × IsSync R.row }
            ensures { (result.0.hub ≡ hub.entry.now.id) × (result.1.hub ≡ hub.entry.now.id) }
        { send_two(rt, alloc, hub, (zero, 0), (one, 1)) },
        move || -> (Sender, Sender)
            requires { (two.hub ≡ hub.now.id) × (two.stream ≡ 2) × (three.hub ≡ hub.now.id) × (three.stream ≡ 3) × IsSync R.row }
            ensures { (result.0.hub ≡ hub.entry.now.id) × (result.1.hub ≡ hub.entry.now.id) }
        { send_two(rt, alloc, hub, (two, 2), (three, 3)) },
    )
}

/// The streams 0 to 3, each sent by a thread of its own, and received by one more.
fn run_four<R: Threads + Wait + Sync>(
    rt: &R,
    alloc: Global,
    hub: &PlainHub,
    mut receiver: Receiver,
) -> (Receiver, Tally)
    requires { (receiver.hub ≡ hub.now.id) × (receiver.made ≡ []) }
    ensures { result.0.hub ≡ hub.now.id }
{
    let zero = receiver.split(hub, 0);
    let one = receiver.split(hub, 1);
    let two = receiver.split(hub, 2);
    let three = receiver.split(hub, 3);
    let ((mut receiver, tally), ((zero, one), (two, three))) = thread::join(
        rt,
        move || -> (Receiver, Tally)
            requires { receiver.hub ≡ hub.now.id }
            ensures { result.0.hub ≡ hub.entry.now.id }
        { receive_all(rt, hub, receiver) },
        move || -> ((Sender, Sender), (Sender, Sender))
            requires { (zero.hub ≡ hub.now.id) × (zero.stream ≡ 0) × (one.hub ≡ hub.now.id) × (one.stream ≡ 1) × (two.hub ≡ hub.now.id) × (two.stream ≡ 2) × (three.hub ≡ hub.now.id) × (three.stream ≡ 3) × IsSync R.row }
            ensures { (result.0.0.hub ≡ hub.entry.now.id) × (result.0.1.hub ≡ hub.entry.now.id) × (result.1.0.hub ≡ hub.entry.now.id) × (result.1.1.hub ≡ hub.entry.now.id) }
        { send_four(rt, alloc, hub, (zero, one), (two, three)) },
    );
    receiver.join(hub, zero);
    receiver.join(hub, one);
    receiver.join(hub, two);
    receiver.join(hub, three);
    (receiver, tally)
}

/// Whether the numbers below `count` are the next messages.
fn receives_numbers<R: Wait>(rt: &R, hub: &PlainHub, receiver: &mut Receiver, count: u32) -> bool
    requires { receiver.old.hub ≡ hub.now.id }
    ensures { receiver.new.hub ≡ hub.now.id }
{
    for number in 0..count {
        let Some(m) = receiver.try_recv(rt, hub) else {
            return false;
        };
        if number_of(&m.body) != Some(number) {
            return false;
        }
    }
    true
}

/// Where it answers true, what was got of each joined sender is all that it sent.
fn is_drained<R: Wait>(rt: &R, hub: &PlainHub, receiver: &mut Receiver) -> bool
    requires { receiver.old.hub ≡ hub.now.id }
    ensures { IsTrue result → (k : ℕ) (sent : List Msg) → IsAmong (k, sent) receiver.new.closed → of_stream k receiver.new.got ≡ sent }
{
    receiver.try_recv(rt, hub).is_none()
}

#[test]
fn four_senders(rt: HostRuntime) -> Result<(), Fail> {
    let (hub, receiver) = PlainHub::new(rt.alloc(), 4)?;
    let (mut receiver, tally) = run_four(&rt, rt.alloc(), &hub, receiver);
    same(&rt, tally.next, [MESSAGES; 4]);
    same(&rt, tally.whole, 4);
    same(&rt, tally.wrong, 0);
    holds(&rt, is_drained(&rt, &hub, &mut receiver));
    Ok(())
}

#[test]
fn a_full_queue_and_an_empty_one(rt: HostRuntime) -> Result<(), Fail> {
    let (hub, mut receiver) = PlainHub::new(rt.alloc(), 2)?;
    holds(&rt, receiver.try_recv(&rt, &hub).is_none());
    let mut sender = receiver.split(&hub, 7);
    send_numbers(&rt, rt.alloc(), &hub, &mut sender, 7, 2)?;
    let m = numbered(rt.alloc(), 7, 2)?;
    let Err(Full(back)) = sender.try_send(&rt, &hub, m) else {
        return Err(Fail::from("a full queue took a message"));
    };
    same(&rt, (back.stream, number_of(&back.body)), (7, Some(2)));
    receiver.join(&hub, sender);
    holds(&rt, receives_numbers(&rt, &hub, &mut receiver, 2));
    holds(&rt, is_drained(&rt, &hub, &mut receiver));
    Ok(())
}

/// Whether the end of the sender's stream is sent.
fn sends_end<R: Wait>(rt: &R, hub: &PlainHub, sender: &mut Sender) -> bool
    requires { sender.old.hub ≡ hub.now.id }
    ensures { (sender.new.hub ≡ hub.now.id) × (sender.new.stream ≡ sender.old.stream) }
{
    sender.try_send(rt, hub, ending(sender.stream())).is_ok()
}

/// The stream of which the next message is the end.
fn next_end<R: Wait>(rt: &R, hub: &PlainHub, receiver: &mut Receiver) -> Option<u32>
    requires { receiver.old.hub ≡ hub.now.id }
    ensures { receiver.new.hub ≡ hub.now.id }
{
    let Msg { stream, body } = receiver.try_recv(rt, hub)?;
    match body {
        Body::End(How::Done) => Some(stream),
        _ => None,
    }
}

#[test]
fn an_end_comes_last(rt: HostRuntime) -> Result<(), Fail> {
    let (hub, mut receiver) = PlainHub::new(rt.alloc(), 1)?;
    let mut first = receiver.split(&hub, 0);
    let mut second = receiver.split(&hub, u32::MAX);
    same(&rt, (first.stream(), second.stream()), (0, u32::MAX));
    holds(&rt, sends_end(&rt, &hub, &mut first));
    holds(&rt, !sends_end(&rt, &hub, &mut second));
    same(&rt, next_end(&rt, &hub, &mut receiver), Some(0));
    holds(&rt, sends_end(&rt, &hub, &mut second));
    receiver.join(&hub, first);
    receiver.join(&hub, second);
    same(&rt, next_end(&rt, &hub, &mut receiver), Some(u32::MAX));
    holds(&rt, is_drained(&rt, &hub, &mut receiver));
    Ok(())
}
