//! The rule of the queue, what its passes know, and how each step changes that.
use crate::message::Msg;
use crossbeam_queue::protocol::{Join, Lesson, Outcome, Protocol, Split};
use std::collections::LinkedList;
use std::marker::{Brand, PhantomData};

/// What an end knows. No value of it is made.
pub struct View {
    pub sends: bool,
    pub gets: bool,
    /// A sender's stream, and what it has sent.
    pub stream: u32,
    pub sent: LinkedList<Msg>,
    /// What the receiver got, the streams that have or had a sender, and what each joined sender
    /// sent.
    pub got: LinkedList<Msg>,
    pub made: LinkedList<u32>,
    pub closed: LinkedList<(u32, LinkedList<Msg>)>,
}

/// A fact of a caller's own, of what was got so far and of what is queued: each call keeps it, and
/// each answer tells it of the moment that the answer comes from.
pub trait May {
    ghost use Rattle.std.specs.Prelude.{List};
    ghost use Rattle.channel_bounded.specs.declared.message.Msg.{Msg};

    ghost may: { List Msg → List Msg → Type 0 };
}

/// The fact that always holds.
pub struct Anything;

impl May for Anything {
    ghost use Rattle.std.specs.Prelude.{⊤};

    ghost may = { λ got queued. ⊤ };
}

/// The rule of the queue.
pub struct InOrder<A> {
    of: PhantomData<A>,
}

impl<A: May> Protocol<Msg, View> for InOrder<A> {
    ghost use Rattle.channel_bounded.specs.Queue.{QueueRule, first_view};

    ghost holds = { QueueRule A.may };

    ghost first = { first_view };
}

/// A stream's number, which a call picks.
pub trait Numbered {
    ghost use Rattle.std.specs.Prelude.{ℕ};

    ghost number: { ℕ };
}

impl Numbered for Brand {
    ghost number = { 0 };
}

/// The receiver makes the sender of a stream.
pub struct Opens<N> {
    of: PhantomData<N>,
}

impl<N: Numbered> Split<View> for Opens<N> {
    ghost use Rattle.channel_bounded.specs.Queue.{with_made, sender_view};

    ghost left = { λ v. with_made v N.number };

    ghost right = { λ v. sender_view N.number };
}

/// The receiver takes a sender in.
pub struct Closes;

impl Join<View> for Closes {
    ghost use Rattle.channel_bounded.specs.Queue.{with_closed, blank_view};

    ghost both = { λ v w. with_closed v w.stream w.sent };

    ghost spent = { blank_view };
}

/// A sender sends, or sees a full queue.
pub struct Sends<A> {
    of: PhantomData<A>,
}

impl<A> Outcome<Msg, View> for Sends<A> {
    ghost use Rattle.std.specs.Prelude.{◌≡◌};
    ghost use Rattle.channel_bounded.specs.Queue.{with_sent};

    ghost then = { λ v m w. w ≡ with_sent v m };
}

impl<A: May> Lesson<Msg, View> for Sends<A> {
    ghost use Rattle.channel_bounded.specs.Queue.{SenderFinds};

    ghost fact = { λ v queued. SenderFinds A.may v.stream v.sent queued };
}

/// The receiver gets a message, or sees an empty queue.
pub struct Gets<A> {
    of: PhantomData<A>,
}

impl<A: May> Outcome<Msg, View> for Gets<A> {
    ghost use Rattle.channel_bounded.specs.Queue.{Got};

    ghost then = { Got A.may };
}

impl<A: May> Lesson<Msg, View> for Gets<A> {
    ghost use Rattle.channel_bounded.specs.Queue.{ReceiverFinds};

    ghost fact = { λ v queued. ReceiverFinds A.may v.got v.made v.closed queued };
}
