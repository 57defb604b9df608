//! A bounded channel from many senders to one receiver.
//!
//! A `Hub` is the queue, which threads share; `Hub::new` makes it with its `Receiver`. The receiver splits
//! a `Sender` off for each stream; each end may move to a thread of its own, and `join` takes a sender in
//! again, which is its close. A message (`Msg`) is a load of a stream, or its end. A `PlainHub` is the hub
//! of who has no fact of its own that the queue is to carry (`May`). A `HubRef` is a handle that owns a hub
//! with the other handles on it, each on a thread of its own (`share`).
//!
//! `try_send` answers `Full`, with the message, only where the queue was full at one moment of the call,
//! and `try_recv` None only where it was empty at one. Both may wait for a thread that was held up within
//! a step of the queue, so they take a `Wait`. The only error is `AllocError`, of `Hub::new` and of a handle's
//! `new` and `share`; no other call takes memory.
//!
//! At every step, of each sender: what was received of it, followed by what is queued of it, is what it
//! sent, in its order. Contracts see each end as a value that keeps its own list, so whoever has both ends
//! knows the whole.
//!
//! Two senders at a queue of one place. `sends_end` sends the end of its sender's stream and answers
//! whether it was taken, `next_end` receives and answers the stream of which that was the end:
//!
//! ```
//! let (hub, mut receiver) = PlainHub::new(rt.alloc(), 1)?;
//! let mut first = receiver.split(&hub, 0);
//! let mut second = receiver.split(&hub, u32::MAX);
//! same(&rt, (first.stream(), second.stream()), (0, u32::MAX));
//! holds(&rt, sends_end(&rt, &hub, &mut first));
//! holds(&rt, !sends_end(&rt, &hub, &mut second));
//! same(&rt, next_end(&rt, &hub, &mut receiver), Some(0));
//! holds(&rt, sends_end(&rt, &hub, &mut second));
//! receiver.join(&hub, first);
//! receiver.join(&hub, second);
//! same(&rt, next_end(&rt, &hub, &mut receiver), Some(u32::MAX));
//! holds(&rt, is_drained(&rt, &hub, &mut receiver));
//! Ok(())
//! ```
#![tactic(auto)]

pub mod crossing;
pub mod handle;
pub mod hub;
pub mod laws;
pub mod message;
pub mod receiver;
pub mod rule;
pub mod sender;

pub use handle::HubRef;
pub use hub::{Hub, PlainHub};
pub use message::{Body, Full, Msg};
pub use receiver::Receiver;
pub use rule::{Anything, May};
pub use sender::Sender;
