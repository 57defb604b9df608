//! One thread that sends and one that receives.
ghost use Rattle.std.specs.Prelude.{◌≡◌, ◌<◌, [], ◌∷◌};
ghost use Rattle.channel_bounded.specs.Ends.{HubSeen, SenderSeen, ReceiverSeen};

use crate::pause::Pause;
use channel_bounded::{Body, Full, Msg, PlainHub, Receiver, Sender};
use chunk_core::How;
use std::alloc::{AllocError, Global};
use std::sync::Wait;
use std::thread;
use std::thread::Threads;
use std::time::{Clock, Duration};

fn message(stream: u32) -> Msg
    ensures { result.stream ≡ stream }
{
    Msg {
        stream,
        body: Body::End(How::Done),
    }
}

/// Sends one message, and waits where the queue is full.
fn send<R: Wait>(rt: &R, hub: &PlainHub, sender: &mut Sender, pause: &Pause)
    requires { sender.old.hub ≡ hub.now.id }
    ensures { sender.new.hub ≡ sender.old.hub }
{
    let mut m = message(sender.stream());
    'tries: for _ in rt.forever() {
        match sender.try_send(rt, hub, m) {
            Ok(()) => {
                pause.reset();
                return;
            }
            Err(Full(back)) => m = back,
        }
        pause.step(rt);
    }
    unreachable!()
}

/// Sends so many messages.
fn send_all<R: Wait>(rt: &R, hub: &PlainHub, mut sender: Sender, messages: u32, naps: bool)
    requires { sender.hub ≡ hub.now.id }
{
    let pause = Pause::new(naps);
    'sends: for _ in 0..messages {
        send(rt, hub, &mut sender, &pause);
    }
}

/// The next message, for which it waits.
fn receive<R: Wait>(rt: &R, hub: &PlainHub, receiver: &mut Receiver, pause: &Pause) -> Msg
    requires { receiver.old.hub ≡ hub.now.id }
    ensures { receiver.new.hub ≡ receiver.old.hub }
{
    'tries: for _ in rt.forever() {
        if let Some(m) = receiver.try_recv(rt, hub) {
            pause.reset();
            return m;
        }
        pause.step(rt);
    }
    unreachable!()
}

/// Receives so many messages, and counts those of stream 0.
fn receive_all<R: Wait>(
    rt: &R,
    hub: &PlainHub,
    mut receiver: Receiver,
    messages: u32,
    naps: bool,
) -> u32
    requires { receiver.hub ≡ hub.now.id }
{
    let pause = Pause::new(naps);
    let mut count = 0u32;
    'receipts: for _ in 0..messages {
        let m = receive(rt, hub, &mut receiver, &pause);
        if m.stream == 0 {
            count = count.saturating_add(1);
        }
    }
    count
}

/// So many messages through a queue, from one thread to another; how many came.
pub fn send_through<R: Threads + Wait + Sync>(
    rt: &R,
    alloc: Global,
    capacity: u32,
    messages: u32,
    naps: bool,
) -> Result<u32, AllocError> {
    let (hub, mut receiver) = PlainHub::new(alloc, capacity.max(1))?;
    let hub = &hub;
    let sender = receiver.split(hub, 0);
    let (_, count) = thread::join(
        rt,
        move ||
            requires { sender.hub ≡ hub.now.id }
        { send_all(rt, hub, sender, messages, naps) },
        move || -> u32
            requires { receiver.hub ≡ hub.now.id }
        { receive_all(rt, hub, receiver, messages, naps) },
    );
    Ok(count)
}

fn send_later<R: Wait + Clock>(rt: &R, hub: &PlainHub, sender: Sender, time: Duration)
    requires { sender.hub ≡ hub.now.id }
{
    thread::sleep(rt, time);
    send_all(rt, hub, sender, 1, false)
}

fn receive_later<R: Wait + Clock>(rt: &R, hub: &PlainHub, receiver: Receiver, time: Duration) -> u32
    requires { receiver.hub ≡ hub.now.id }
{
    thread::sleep(rt, time);
    receive_all(rt, hub, receiver, 2, false)
}

/// A receiver that waits so long at an empty queue, while the sender sleeps.
pub fn wait_empty<R: Threads + Wait + Clock + Sync>(
    rt: &R,
    alloc: Global,
    time: Duration,
    naps: bool,
) -> Result<u32, AllocError> {
    let (hub, mut receiver) = PlainHub::new(alloc, 1)?;
    let hub = &hub;
    let sender = receiver.split(hub, 0);
    let (_, count) = thread::join(
        rt,
        move ||
            requires { sender.hub ≡ hub.now.id }
        { send_later(rt, hub, sender, time) },
        move || -> u32
            requires { receiver.hub ≡ hub.now.id }
        { receive_all(rt, hub, receiver, 1, naps) },
    );
    Ok(count)
}

/// A sender that waits so long at a full queue, while the receiver sleeps.
pub fn wait_full<R: Threads + Wait + Clock + Sync>(
    rt: &R,
    alloc: Global,
    time: Duration,
    naps: bool,
) -> Result<u32, AllocError> {
    let (hub, mut receiver) = PlainHub::new(alloc, 1)?;
    let hub = &hub;
    let sender = receiver.split(hub, 0);
    let (_, count) = thread::join(
        rt,
        move ||
            requires { sender.hub ≡ hub.now.id }
        { send_all(rt, hub, sender, 2, naps) },
        move || -> u32
            requires { receiver.hub ≡ hub.now.id }
        { receive_later(rt, hub, receiver, time) },
    );
    Ok(count)
}
