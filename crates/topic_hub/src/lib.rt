//! A topic: one publisher, whose subscribers each receive what was published after they subscribed.
//!
//! `topic` makes a queue for each possible subscriber (`TopicHub`, which threads share) and the `Publisher`.
//! `subscribe` gives the next `Subscriber`, as long as there is room for one; publisher and subscribers may
//! each move to a thread of its own, where a `TopicRef` is a handle that owns the queues with the others.
//! `offer` publishes a load, without a copy of its elements, and `end` the end: either is then pending for
//! each subscriber, and `push` sends what is pending as far as there is room. `next` is what a subscriber
//! receives. `settle` takes a subscriber back.
//!
//! `offer` answers `Closed` exactly where the end was published, and `Memory` where that was wanting; then
//! nothing was published. `push` answers `Waiting` only where the queue of that subscriber was full at one
//! moment of the call, and `next` None only where its own was empty at one. Both may wait for a thread that
//! was held up within a step of the queue, so they take a `Wait`. Beside `topic`, `offer` and what makes a
//! handle no call takes memory.
//!
//! What a subscriber is due is the list of what was published after it subscribed. When the publisher
//! settles with it, what it received, what is queued for it and what is pending for it is just that list,
//! in order and once.
//!
//! Two subscribers, each of which is to be moved to a thread of its own:
//!
//! ```
//! let (hub, mut publisher): (PlainTopic, Publisher) = topic(rt.alloc(), 2, 4)?;
//! let Some(first) = publisher.subscribe(&hub) else {
//!     return Err(Fail::from("there was no place"));
//! };
//! let Some(second) = publisher.subscribe(&hub) else {
//!     return Err(Fail::from("there was no place"));
//! };
//! let came = run_three(&rt, rt.alloc(), &hub, publisher, first, second);
//! same(&rt, came, (LOADS, LOADS));
//! Ok(())
//! ```
#![tactic(auto)]

pub mod crossing;
pub mod handle;
pub mod hub;
pub mod laws;
mod place;
pub mod publisher;
pub mod subscriber;

pub use handle::TopicRef;
pub use hub::{PlainTopic, TopicHub, topic};
pub use publisher::{OfferRefused, Publisher, Pushed};
pub use subscriber::Subscriber;
