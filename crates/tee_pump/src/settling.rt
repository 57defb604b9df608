//! How the branches are taken in.
ghost use Rattle.std.specs.Prelude.{◌≡◌, ◌<◌, ℕ, List, true, length};
ghost use Rattle.chunk_core.specs.Feed.{Meaning};
ghost use Rattle.channel_bounded.specs.Ends.{HubSeen};
ghost use Rattle.channel_bounded.specs.declared.message.Body.{Body};
ghost use Rattle.interrupt_ctx.specs.Ends.{BoardSeen};
ghost use Rattle.interrupt_ctx.specs.Views.{HasSetAll};
ghost use Rattle.topic_hub.specs.Subscribers.{IsAtQueue, SubscriberSeen};
ghost use Rattle.topic_hub.specs.Topics.{IsOf, IsSubscriber, SettlesWith, due};
ghost use Rattle.tee_pump.specs.Branches.{AreHired, IsHiredAs, SharedSeen};
ghost use Rattle.tee_pump.specs.Pieces.{ArePieces};
ghost use Rattle.tee_pump.specs.Publishing.{IsPublishing};
ghost use Rattle.tee_pump.specs.Settled.{AreSettledFrom, HasTexts, IsSettled, JoinsSeat, JoinsSender};

use crate::pieces::Pieces;
use channel_bounded::Receiver;
use chunk_core::Feed;
use device_port::Gate;
use interrupt_ctx::BoardSeat;
use std::sync::Wait;
use std::thread::Threads;
use tee_branches::BranchEnd;
use tee_texts::Texts;
use tee_workers::{Hired, Site};
use topic_hub::Publisher;

/// Takes a branch in, once it is over: its subscriber, its sender and its seat.
fn settle_one<F: Feed, R: Threads + Wait, G: Gate>(
    site: &Site<'_, R, G, Pieces, Texts>,
    publisher: &mut Publisher,
    receiver: &mut Receiver,
    seat: &mut BoardSeat,
    hired: Hired<F>,
)
    requires topic { IsOf site.now.topic.now publisher.old }
    requires hired { (i : ℕ) × (m : Meaning) × IsHiredAs F.stands F.comes (record { topic = site.now.topic.now; hub = site.now.hub.now; board = site.now.board.now }) i m hired × ((s : SubscriberSeen) → s.number ≡ i → IsAtQueue site.now.topic.now s → IsSubscriber publisher.old s) }
    requires receiver { receiver.old.hub ≡ site.now.hub.now.id }
    requires seat { (seat.old.board ≡ site.now.board.now.id) × (seat.old.view.first ≡ true) }
    ensures settled { (i : ℕ) (m : Meaning) → IsHiredAs F.stands F.comes (record { topic = site.now.topic.now; hub = site.now.hub.now; board = site.now.board.now }) i m hired → IsSettled i m (due publisher.old i) receiver.old.got seat.new.view × ((s : SubscriberSeen) × (s.number ≡ i) × SettlesWith ArePieces publisher.old publisher.new s) }
    ensures receiver { JoinsSender receiver.old receiver.new }
    ensures seat { JoinsSeat seat.old seat.new }
{
    let branch = hired.settle(site);
    let BranchEnd {
        source,
        board,
        sender,
        how: _,
    } = branch.end();
    publisher.settle(site.topic, source);
    receiver.join(site.hub, sender);
    seat.join(site.board, board);
}

/// Takes all branches in, from the last one on.
pub(crate) fn settle_all<F: Feed, R: Threads + Wait, G: Gate>(
    site: &Site<'_, R, G, Pieces, Texts>,
    publisher: &mut Publisher,
    receiver: &mut Receiver,
    seat: &mut BoardSeat,
    hired: Vec<Hired<F>>,
)
    requires some { 0 < length hired.items }
    requires hired { (ms : List Meaning) × (all : List Body) × AreHired F.stands F.comes (record { topic = site.now.topic.now; hub = site.now.hub.now; board = site.now.board.now }) ms hired.items × IsPublishing site.now.topic.now (length ms) all publisher.old }
    requires receiver { receiver.old.hub ≡ site.now.hub.now.id }
    requires seat { (seat.old.board ≡ site.now.board.now.id) × (seat.old.view.first ≡ true) × (seat.old.view.out ≡ length hired.items) }
    ensures settled { (ms : List Meaning) (all : List Body) → AreHired F.stands F.comes (record { topic = site.now.topic.now; hub = site.now.hub.now; board = site.now.board.now }) ms hired.items → IsPublishing site.now.topic.now (length ms) all publisher.old → AreSettledFrom 0 ms all receiver.old.got seat.new.view }
    ensures texts { HasTexts receiver.old.made receiver.old.got }
    ensures seat { (seat.new.view.set ≡ seat.old.view.set) × HasSetAll seat.new.view }
{
    let mut left = hired;
    while let Some(last) = left.pop() {
        settle_one(site, publisher, receiver, seat, last);
    }
}
