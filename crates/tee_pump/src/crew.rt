//! How the branches of a tee are made.
ghost use Rattle.std.specs.Prelude.{◌≡◌, ◌≤◌, ◌<◌, ◌+◌, ℕ, List, [], length, IfOk, vec_capacity};
ghost use Rattle.chunk_core.specs.Feed.{Meaning};
ghost use Rattle.interrupt_ctx.specs.Ends.{BoardSeen};
ghost use Rattle.channel_bounded.specs.Ends.{HubSeen};
ghost use Rattle.tee_pump.specs.Branches.{AreBranches, IsBranch, SharedSeen};
ghost use Rattle.tee_pump.specs.Making.{ArePipes, HasSplit, IsCrew, IsPipeOf};

use crate::pieces::Pieces;
use channel_bounded::{Hub, Receiver};
use chunk_core::{Feed, How};
use interrupt_ctx::{Board, BoardSeat};
use std::alloc::{AllocError, Global};
use std::collections::VecDeque;
use tee_branches::Branch;
use tee_prints::Printer;
use tee_texts::Texts;
use tee_workers::Hired;
use topic_hub::{Publisher, TopicHub, topic};

/// How many loads wait for a branch at most, and how many messages for the printer.
const CAPACITY: u32 = 16;

/// What the branches share: the topic that they receive from, the channel that they send through, and the board
/// that tells them to stop.
#[derive(Drop)]
pub struct Shared {
    pub topic: TopicHub<Pieces>,
    pub hub: Hub<Texts>,
    pub board: Board,
}

/// The branches before they begin, the ends that the caller keeps, and room for what comes of the branches.
#[derive(Drop)]
pub struct Crew<F: Feed> {
    pub(crate) publisher: Publisher,
    pub(crate) printer: Printer,
    pub(crate) seat: BoardSeat,
    pub(crate) branches: Vec<Branch<F>>,
    pub(crate) hired: Vec<Hired<F>>,
    pub(crate) ends: Vec<How>,
}

/// All that takes memory.
#[derive(Drop)]
pub struct Room<F: Feed> {
    pub shared: Shared,
    pub crew: Crew<F>,
}

/// The caller's ends of what the branches share.
#[derive(Drop)]
pub(crate) struct Ends {
    pub(crate) publisher: Publisher,
    pub(crate) receiver: Receiver,
    pub(crate) seat: BoardSeat,
}

/// What so many branches share, and the ends, of which none was split off.
fn share(alloc: Global, branches: u32) -> Result<(Shared, Ends), AllocError>
    requires { (1 ≤ branches) × (branches ≤ 16) }
    ensures { IfOk result (λ made. HasSplit (record { topic = made.0.topic; hub = made.0.hub; board = made.0.board }) branches 0 made.1.publisher made.1.receiver made.1.seat) }
{
    let (topic, publisher) = topic::<Pieces>(alloc, branches, CAPACITY)?;
    let (hub, receiver) = Hub::<Texts>::new(alloc, CAPACITY)?;
    let (board, seat) = Board::new(alloc, 1)?;
    Ok((
        Shared { topic, hub, board },
        Ends {
            publisher,
            receiver,
            seat,
        },
    ))
}

/// Splits the ends of the next branch off.
fn make_branch<F: Feed>(alloc: Global, shared: &Shared, ends: &mut Ends, pipe: F) -> Branch<F>
    requires room { (n i : ℕ) × (i < n) × HasSplit (record { topic = shared.now.topic; hub = shared.now.hub; board = shared.now.board }) n i ends.old.publisher ends.old.receiver ends.old.seat }
    ensures split { (n i : ℕ) → i < n → HasSplit (record { topic = shared.now.topic; hub = shared.now.hub; board = shared.now.board }) n i ends.old.publisher ends.old.receiver ends.old.seat → HasSplit (record { topic = shared.now.topic; hub = shared.now.hub; board = shared.now.board }) n (i + 1) ends.new.publisher ends.new.receiver ends.new.seat }
    ensures branch { (n i : ℕ) (m : Meaning) → i < n → HasSplit (record { topic = shared.now.topic; hub = shared.now.hub; board = shared.now.board }) n i ends.old.publisher ends.old.receiver ends.old.seat → IsPipeOf F.stands m pipe → IsBranch F.stands F.comes (record { topic = shared.now.topic; hub = shared.now.hub; board = shared.now.board }) i m result }
{
    let Some(source) = ends.publisher.subscribe(&shared.topic) else {
        unreachable!()
    };
    let sender = ends.receiver.split(&shared.hub, source.number());
    let seat = ends.seat.split(&shared.board);
    Branch::new(alloc, pipe, source, seat, sender)
}

/// Makes a branch for each of these pipes, in this room.
fn make_branches<F: Feed>(
    alloc: Global,
    shared: &Shared,
    ends: &mut Ends,
    pipes: Vec<F>,
    room: Vec<Branch<F>>,
) -> Vec<Branch<F>>
    requires ends { HasSplit (record { topic = shared.now.topic; hub = shared.now.hub; board = shared.now.board }) (length pipes.items) 0 ends.old.publisher ends.old.receiver ends.old.seat }
    requires empty { room.items ≡ [] }
    requires capacity { length pipes.items ≤ vec_capacity room }
    ensures split { HasSplit (record { topic = shared.now.topic; hub = shared.now.hub; board = shared.now.board }) (length pipes.items) (length pipes.items) ends.new.publisher ends.new.receiver ends.new.seat }
    ensures branches { (ms : List Meaning) → ArePipes F.stands ms pipes.items → AreBranches F.stands F.comes (record { topic = shared.now.topic; hub = shared.now.hub; board = shared.now.board }) ms result.items }
{
    let mut left = VecDeque::from(pipes);
    let mut made = room;
    while let Some(pipe) = left.pop_front() {
        made.push_reserved(make_branch(alloc, shared, ends, pipe));
    }
    made
}

impl<F: Feed> Room<F> {
    /// The branches of these pipes, and what they share.
    pub fn new(alloc: Global, pipes: Vec<F>) -> Result<Room<F>, AllocError>
        requires { (1 ≤ length pipes.items) × (length pipes.items ≤ 16) }
        ensures { IfOk result (λ room. (ms : List Meaning) → ArePipes F.stands ms pipes.items → IsCrew F.stands F.comes (record { topic = room.shared.topic; hub = room.shared.hub; board = room.shared.board }) ms room.crew) }
    {
        let count = pipes.len();
        let (shared, mut ends) = share(alloc, count as u32)?;
        let room = Vec::with_capacity(alloc, count)?;
        let hired = Vec::with_capacity(alloc, count)?;
        let told = Vec::with_capacity(alloc, count)?;
        let branches = make_branches(alloc, &shared, &mut ends, pipes, room);
        let Ends {
            publisher,
            receiver,
            seat,
        } = ends;
        let printer = Printer::new(alloc, receiver, count as u32)?;
        Ok(Room {
            shared,
            crew: Crew {
                publisher,
                printer,
                seat,
                branches,
                hired,
                ends: told,
            },
        })
    }
}
