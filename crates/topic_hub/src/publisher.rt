//! The publisher's end.
ghost use Rattle.std.specs.Prelude.{◌≡◌, true, false, length, IfOk, IfErr, IfSome, IfNone, OnOk, OnErr, Err};
ghost use Rattle.channel_bounded.specs.Ends.{HubSeen};
ghost use Rattle.channel_bounded.specs.declared.message.Body.TheVariants as body;
ghost use Rattle.topic_hub.specs.Subscribers.{IsAtQueue, SubscriberSeen};
ghost use Rattle.topic_hub.specs.declared.publisher.OfferRefused.TheVariants as refused;
ghost use Rattle.topic_hub.specs.Places.{Every, IsPublished, IsPublishedOrNot, IsWithdrawn, first_waiting};
ghost use Rattle.topic_hub.specs.Topics.{IsOf, IsSubscriber, KeepsTopic, MayPush, NothingPending, PublisherSeen, Publishes, PushesAll, SettlesWith, Subscribes};

use crate::hub::TopicHub;
use crate::place::{Place, Seat};
use crate::subscriber::Subscriber;
use channel_bounded::{Body, May};
use chunk_core::{How, Load};
use std::alloc::AllocError;
use std::marker::Model;
use std::mem;
use std::sync::Wait;

/// What came of a push.
#[derive(Clone, Copy, Debug, PartialEq, Eq)]
pub enum Pushed {
    /// Nothing is pending any more.
    All,
    /// Something is pending for this subscriber, whose queue was full.
    Waiting(u32),
}

impl Pushed {
    // The first of both that waits.
    fn and(self, next: Pushed) -> Pushed
        ensures { result ≡ first_waiting self next }
    {
        match self {
            Pushed::All => next,
            Pushed::Waiting(_) => self,
        }
    }
}

/// Why a load was not published.
#[derive(Clone, Copy, Debug, PartialEq, Eq)]
pub enum OfferRefused {
    /// Memory was wanting.
    Memory,
    /// The end was published before.
    Closed,
}

/// The end of the publisher. Contracts see what it has for each possible subscriber, how many subscribed,
/// and whether the end was published.
#[derive(Drop)]
pub struct Publisher {
    pub(crate) places: Vec<Place>,
    pub(crate) given: u32,
    pub(crate) ended: bool,
}

impl Model for Publisher {
    ghost use Rattle.topic_hub.specs.Topics.{PublisherSeen};

    ghost Value = { PublisherSeen };

    ghost view = { λ p. record { places = p.places.items; given = p.given; ended = p.ended } };
}

impl Publisher {
    /// The next subscriber. `None` exactly where as many subscribed as the topic was made for.
    pub fn subscribe<A: May>(&mut self, hub: &TopicHub<A>) -> Option<Subscriber>
        requires topic { IsOf hub.now self.old }
        requires pending { NothingPending self.old }
        ensures some { IfSome result (λ s. Subscribes self.old self.new s) }
        ensures at { IfSome result (IsAtQueue hub.now) }
        ensures none { IfNone result ((self.new ≡ self.old) × (self.old.given ≡ length self.old.places)) }
        ensures keeps { KeepsTopic self.old self.new }
    {
        let at = self.given as usize;
        if at >= self.places.len() {
            return None;
        }
        let number = self.given;
        let place = mem::replace(&mut self.places[at], Place::Settled);
        let Place::Free(mut receiver) = place else {
            unreachable!()
        };
        let sender = receiver.split(&hub.queues[at], number);
        self.places[at] = Place::Taken(Seat {
            sender,
            pending: None,
        });
        self.given += 1;
        Some(Subscriber { number, receiver })
    }

    /// Publishes a load, which is then pending for each subscriber. `Closed` exactly where the end was
    /// published. Where it is refused, nothing was published.
    pub fn offer(&mut self, load: &Load) -> Result<(), OfferRefused>
        requires pending { NothingPending self.old }
        ensures ok { OnOk result (Publishes (body.Load load.now) self.old self.new × (self.new.ended ≡ false)) }
        ensures err { OnErr result (self.new ≡ self.old) }
        ensures closed { IfErr result (λ e. e ≡ refused.Closed → self.old.ended ≡ true) }
        ensures ended { self.old.ended ≡ true → result ≡ Err refused.Closed }
        ensures keeps { KeepsTopic self.old self.new }
    {
        if self.ended {
            return Err(OfferRefused::Closed);
        }
        match self.publish_copies(load) {
            Ok(()) => Ok(()),
            Err(AllocError) => {
                self.withdraw();
                Err(OfferRefused::Memory)
            }
        }
    }

    // Publishes to the subscribers one after another, as far as there is memory.
    fn publish_copies(&mut self, load: &Load) -> Result<(), AllocError>
        ensures ok { OnOk result (Every (IsPublished (body.Load load.now)) self.old.places self.new.places) }
        ensures err { OnErr result (Every (IsPublishedOrNot (body.Load load.now)) self.old.places self.new.places) }
        ensures same { (self.new.given ≡ self.old.given) × (self.new.ended ≡ self.old.ended) }
    {
        for i in 0..self.places.len() {
            self.places[i].publish_copy(load)?;
        }
        Ok(())
    }

    // Takes back all that is pending.
    fn withdraw(&mut self)
        ensures all { Every IsWithdrawn self.old.places self.new.places }
        ensures same { (self.new.given ≡ self.old.given) × (self.new.ended ≡ self.old.ended) }
    {
        for i in 0..self.places.len() {
            self.places[i].withdraw();
        }
    }

    /// Publishes the end, which is then pending for each subscriber.
    pub fn end(&mut self, how: How)
        requires pending { NothingPending self.old }
        requires open { self.old.ended ≡ false }
        ensures publishes { Publishes (body.End how) self.old self.new }
        ensures ended { self.new.ended ≡ true }
        ensures keeps { KeepsTopic self.old self.new }
    {
        for i in 0..self.places.len() {
            self.places[i].publish(Body::End(how));
        }
        self.ended = true;
    }

    /// Sends to each subscriber what is pending for it, as far as there is room in its queue.
    pub fn push<A: May, R: Wait>(&mut self, rt: &R, hub: &TopicHub<A>) -> Pushed
        requires topic { IsOf hub.now self.old }
        requires may { MayPush A.may hub.now self.old }
        ensures pushes { PushesAll A.may hub.now self.old self.new result }
        ensures keeps { KeepsTopic self.old self.new }
    {
        let mut pushed = Pushed::All;
        for i in 0..self.places.len() {
            pushed = pushed.and(self.places[i].push(rt, &hub.queues[i]));
        }
        pushed
    }

    /// Takes a subscriber back, with what it still is due.
    pub fn settle<A: May>(&mut self, hub: &TopicHub<A>, s: Subscriber)
        requires topic { IsOf hub.now self.old }
        requires subscriber { IsSubscriber self.old s }
        ensures settles { SettlesWith A.may self.old self.new s }
    {
        let Subscriber {
            number,
            mut receiver,
        } = s;
        let at = number as usize;
        let place = mem::replace(&mut self.places[at], Place::Settled);
        let Place::Taken(seat) = place else {
            unreachable!()
        };
        let Seat { sender, pending: _ } = seat;
        receiver.join(&hub.queues[at], sender);
    }
}
