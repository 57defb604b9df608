//! Work dealt to hands, whose results are taken back in the order in which it was dealt.
//!
//! `Dealer::new` makes a `Dealer`, a `Hand` for each job (1 to 64) and the `Lanes`, which are the queues
//! between them. The dealer's `put` deals a load to the hand whose turn it is, while fewer groups are `out`
//! than there are hands, and `take` takes the next group's result, so group i goes to hand `i mod jobs`.
//! A hand, on a thread of its own or not, makes turns (`Hand::turn`) with a `Work` until it is over.
//! `end` sends the hands their end once no group is out, and `collect` takes each hand in.
//!
//! `put` and `end` answer `Full` only where the queue was full at one moment of the call, `take` answers
//! None only where the queue of that hand's results was empty at one. Each may wait for a thread that was
//! held up within a step of a queue, as may a turn. The only error is `AllocError`, of `Dealer::new`; where
//! a work finds no memory the result is empty, with `How::Memory`. The facts of a caller's own that the
//! queues carry (`May`) are the channel's; who has none takes `PlainLanes`.
//!
//! With all hands collected, what was taken is, in order, what the work makes of what was dealt, apart from
//! results that lacked memory.
//!
//! Nothing here runs by itself: its callers will be the runs that give each hand a thread of its own, or a
//! turn of their own loop.
#![tactic(auto)]

pub mod crossing;
pub mod dealer;
pub mod hand;
mod inbox;
pub mod lanes;
mod outbox;
mod seat;
mod seats;
mod team;
pub mod turns;
pub mod work;

pub use dealer::Dealer;
pub use hand::Hand;
pub use lanes::{Lane, Lanes, Paired, PlainLanes};
pub use turns::HandTurn;
pub use work::{Work, Worked};
