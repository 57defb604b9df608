//! The queues of a topic, which its publisher and its subscribers share.
ghost use Rattle.std.specs.Prelude.{◌≡◌, ◌≤◌, [], List, IfOk};
ghost use Rattle.channel_bounded.specs.Ends.{HubSeen};
ghost use Rattle.topic_hub.specs.Topics.{IsNewTopic, PublisherSeen};

use crate::place::Place;
use crate::publisher::Publisher;
use channel_bounded::{Anything, Hub, May};
use std::alloc::{AllocError, Global};
use std::marker::Model;

/// The topic of a caller who has no fact of its own.
pub type PlainTopic = TopicHub<Anything>;

/// A queue for each possible subscriber. Contracts see the queues.
#[derive(Drop)]
pub struct TopicHub<A: May> {
    pub(crate) queues: Vec<Hub<A>>,
}

impl<A: May> Model for TopicHub<A> {
    ghost use Rattle.std.specs.Prelude.{List};
    ghost use Rattle.channel_bounded.specs.Ends.{HubSeen};

    ghost Value = { List HubSeen };

    ghost view = { λ topic. topic.queues.items };
}

/// A topic of at most `subs` subscribers, whose queues hold `capacity` loads each. It takes all room that
/// the topic will ever take.
pub fn topic<A: May>(
    alloc: Global,
    subs: u32,
    capacity: u32,
) -> Result<(TopicHub<A>, Publisher), AllocError>
    requires subs { (1 ≤ subs) × (subs ≤ 64) }
    requires capacity { (1 ≤ capacity) × (capacity ≤ 64) }
    requires may { A.may [] [] }
    ensures { IfOk result (λ ends. IsNewTopic subs capacity ends.0 ends.1) }
{
    let mut queues = Vec::with_capacity(alloc, subs as usize)?;
    let mut places = Vec::with_capacity(alloc, subs as usize)?;
    for i in 0..subs {
        let (queue, receiver) = Hub::<A>::new(alloc, capacity)?;
        queues.push(queue)?;
        places.push(Place::Free(receiver))?;
    }
    let publisher = Publisher {
        places,
        given: 0,
        ended: false,
    };
    Ok((TopicHub { queues }, publisher))
}
