//! The queue that the ends share.
ghost use Rattle.std.specs.Prelude.{◌≡◌, ◌<◌, [], IfOk};
ghost use Rattle.channel_bounded.specs.Ends.{HubSeen, seen_hub, ReceiverSeen};

use crate::message::Msg;
use crate::receiver::Receiver;
use crate::rule::{Anything, InOrder, May, View};
use crossbeam_queue::RuledArrayQueue;
use std::alloc::{AllocError, Global};
use std::marker::Model;

type Queue<A> = RuledArrayQueue<Msg, View, InOrder<A>>;

/// The hub of a caller who has no fact of its own.
pub type PlainHub = Hub<Anything>;

/// The queue, which threads share. Contracts see which queue it is, and its capacity.
#[derive(Drop)]
pub struct Hub<A: May> {
    pub(crate) queue: Queue<A>,
}

impl<A: May> Model for Hub<A> {
    ghost use Rattle.channel_bounded.specs.Ends.{HubSeen, seen_hub};

    ghost Value = { HubSeen };

    ghost view = { λ hub. seen_hub hub.queue };
}

impl<A: May> Hub<A> {
    /// Makes all room that the channel will ever take: `capacity` messages at a time.
    pub fn new(alloc: Global, capacity: u32) -> Result<(Hub<A>, Receiver), AllocError>
        requires capacity { 0 < capacity }
        requires may { A.may [] [] }
        ensures capacity { IfOk result (λ ends. ends.0.capacity ≡ capacity) }
        ensures receiver { IfOk result (λ ends. ends.1 ≡ record { hub = ends.0.id; got = []; made = []; closed = [] }) }
    {
        let (queue, pass) = Queue::<A>::ruled(alloc, capacity as usize)?;
        Ok((Hub { queue }, Receiver { pass }))
    }
}
