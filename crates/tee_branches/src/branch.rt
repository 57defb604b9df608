//! A branch.
ghost use Rattle.std.specs.Prelude.{◌≡◌, [], false, None, IfSome, IsSome};
ghost use Rattle.std.specs.Bool.{OnFalse, OnTrue};
ghost use Rattle.channel_bounded.specs.Ends.{HubSeen};
ghost use Rattle.chunk_core.specs.Elements.LoadKind.{Bytes};
ghost use Rattle.chunk_core.specs.Feed.{Meaning};
ghost use Rattle.tee_texts.specs.Texts.{IsTextOf};
ghost use Rattle.tee_branches.specs.Branches.{EndsBranch, IsAt, IsBranchOf, IsOver, IsSameBranch, MayReceiveAll, MaySendAll};
ghost use Rattle.tee_branches.specs.Turns.{GoesOn, IsIdle, OnlySends, Tells};
ghost use Rattle.tee_branches.specs.declared.turn.BranchTurn.TheVariants as turn;

use crate::receive::{Came, end_of, step};
use crate::stage::Stage;
use crate::turn::BranchTurn;
use channel_bounded::{Full, Hub, May, Msg, Sender};
use chunk_core::{Feed, How};
use device_port::Gate;
use interrupt_ctx::{Board, BoardSeat};
use std::alloc::Global;
use std::mem;
use std::sync::Wait;
use topic_hub::{Subscriber, TopicHub};

/// A pipe between a subscriber of a topic and a channel: what it receives is fed to the pipe,
/// and what that gives is sent under the number of the branch, and then its end.
#[derive(Drop)]
pub struct Branch<F> {
    pub(crate) number: u32,
    pub(crate) alloc: Global,
    pub(crate) source: Subscriber,
    pub(crate) stage: Stage<F>,
    pub(crate) board: BoardSeat,
    pub(crate) sender: Sender,
    pub(crate) waiting: Option<Msg>,
}

/// What is left of a branch that is over.
#[derive(Drop)]
pub struct BranchEnd {
    pub source: Subscriber,
    pub board: BoardSeat,
    pub sender: Sender,
    pub how: How,
}

impl<F: Feed> Branch<F> {
    /// The branch of this pipe, which was fed nothing and takes bytes. It received nothing. Its number is that
    /// of its subscriber and of its sender.
    pub fn new(
        alloc: Global,
        pipe: F,
        source: Subscriber,
        board: BoardSeat,
        sender: Sender,
    ) -> Branch<F>
        requires source { source.got ≡ [] }
        requires sender { (sender.stream ≡ source.number) × (sender.sent ≡ []) }
        requires seat { (board.view.set ≡ []) × (board.view.first ≡ false) }
        ensures branch { (m : Meaning) → m.takes ≡ Bytes → (m.part []).list ≡ [] → F.stands pipe m [] → IsBranchOf F.stands F.comes m result }
        ensures parts { (result.source ≡ source) × (result.board ≡ board) × (result.sender ≡ sender) }
    {
        Branch {
            number: source.number(),
            alloc,
            source,
            stage: Stage::Feeding(pipe),
            board,
            sender,
            waiting: None,
        }
    }

    /// Its number.
    pub fn number(&self) -> u32
        ensures { result ≡ self.now.number }
    {
        self.number
    }

    /// Whether its end was sent.
    pub fn is_over(&self) -> bool
        ensures over { OnTrue result (IsOver self.now) }
        ensures open { OnFalse result (¬ (IsOver self.now)) }
    {
        match self.stage {
            Stage::Over(_) => self.waiting.is_none(),
            _ => false,
        }
    }

    /// Sends the message that waits; or, where nothing waits, looks whether the run is interrupted, and goes
    /// one step on: it receives a load and feeds it to the pipe, or takes what that still gives, and sends
    /// what came. It passes the gate first, with its number.
    pub fn turn<A: May, B: May, R: Wait, G: Gate>(
        &mut self,
        rt: &R,
        topic: &TopicHub<A>,
        hub: &Hub<B>,
        board: &Board,
        gate: &G,
    ) -> BranchTurn
        requires over { ¬ (IsOver self.old) }
        requires branch { (m : Meaning) × IsBranchOf F.stands F.comes m self.old }
        requires at { IsAt self.old topic.now hub.now board.now }
        requires may_receive { MayReceiveAll A.may self.old.source }
        requires may_send { MaySendAll B.may hub.now.capacity self.old.number }
        ensures branch { (m : Meaning) → IsBranchOf F.stands F.comes m self.old → IsBranchOf F.stands F.comes m self.new }
        ensures same { IsSameBranch self.old self.new }
        ensures only { IsSome self.old.waiting → OnlySends self.old self.new }
        ensures goes_on { self.old.waiting ≡ None → GoesOn self.old self.new }
        ensures tells { Tells A.may B.may hub.now.capacity self.old self.new result }
    {
        gate.pass(self.number);
        match self.waiting {
            Some(_) => self.send(rt, hub),
            None => match self.advance(rt, topic, board) {
                true => self.send(rt, hub),
                false => BranchTurn::Empty,
            },
        }
    }

    /// Looks once, and goes one step on; false where nothing came.
    fn advance<A: May, R: Wait>(&mut self, rt: &R, topic: &TopicHub<A>, board: &Board) -> bool
        requires none { self.old.waiting ≡ None }
        requires open { ¬ (IsOver self.old) }
        requires branch { (m : Meaning) × IsBranchOf F.stands F.comes m self.old }
        requires at { (hub : HubSeen) × IsAt self.old topic.now hub board.now }
        requires may_receive { MayReceiveAll A.may self.old.source }
        ensures branch { (m : Meaning) → IsBranchOf F.stands F.comes m self.old → IsBranchOf F.stands F.comes m self.new }
        ensures same { IsSameBranch self.old self.new }
        ensures sender { self.new.sender ≡ self.old.sender }
        ensures goes_on { GoesOn self.old self.new }
        ensures empty { OnFalse result (IsIdle A.may self.old self.new) }
    {
        let stop = self.board.look(board, 0);
        let stage = mem::replace(&mut self.stage, Stage::Over(How::Halted));
        match stop {
            Some(_) => {
                self.waiting = Some(end_of(self.number, How::Halted));
                true
            }
            None => {
                let Came {
                    stage,
                    message,
                    came,
                } = step(rt, self.alloc, self.number, &mut self.source, topic, stage);
                self.stage = stage;
                self.waiting = message;
                came
            }
        }
    }

    /// Tries to send the message that waits.
    fn send<B: May, R: Wait>(&mut self, rt: &R, hub: &Hub<B>) -> BranchTurn
        requires hub { self.old.sender.hub ≡ hub.now.id }
        requires stream { self.old.sender.stream ≡ self.old.number }
        requires waits { IfSome self.old.waiting (IsTextOf self.old.number) }
        requires may { MaySendAll B.may hub.now.capacity self.old.number }
        ensures only { OnlySends self.old self.new }
        ensures stage { (self.new.stage ≡ self.old.stage) × (self.new.number ≡ self.old.number) }
        ensures same { (self.new.sender.hub ≡ self.old.sender.hub) × (self.new.sender.stream ≡ self.old.sender.stream) }
        ensures waits { IfSome self.new.waiting (IsTextOf self.new.number) }
        ensures tells { Tells B.may B.may hub.now.capacity self.old self.new result }
        ensures empty { ¬ (result ≡ turn.Empty) }
    {
        if let Some(message) = self.waiting.take() {
            match self.sender.try_send(rt, hub, message) {
                Ok(()) => {}
                Err(Full(message)) => {
                    self.waiting = Some(message);
                    return BranchTurn::Blocked;
                }
            }
        }
        match self.stage {
            Stage::Over(_) => BranchTurn::Over,
            _ => BranchTurn::More,
        }
    }

    /// Takes a branch apart that is over.
    pub fn end(self) -> BranchEnd
        requires over { IsOver self }
        requires branch { (m : Meaning) × IsBranchOf F.stands F.comes m self }
        ensures parts { (result.source ≡ self.source) × (result.board ≡ self.board) × (result.sender ≡ self.sender) }
        ensures ends { (m : Meaning) → IsBranchOf F.stands F.comes m self → EndsBranch m result }
    {
        let Branch {
            number: _,
            alloc: _,
            source,
            stage,
            board,
            sender,
            waiting: _,
        } = self;
        match stage {
            Stage::Over(how) => BranchEnd {
                source,
                board,
                sender,
                how,
            },
            _ => unreachable!(),
        }
    }
}
