//! Boards of interruption: that the calls do what they say where memory is there, and that two threads
//! may set and look at once.
ghost use Rattle.std.specs.Prelude.{◌≡◌, ◌^◌, ◌≤◌, ◌<◌, length, true};

use crate::asserts::{holds, same};
use interrupt_ctx::{Board, BoardSeat, Stop, Why};
use std::alloc::{AllocError, Global};
use std::process::Abort;
use std::test::Fail;
use std::thread;

/// The last place in a ledger that a board keeps.
const LAST: u64 = 1_152_921_504_606_846_975;

/// So interrupted, behind that much of the ledger.
fn stop_at_last(why: Why) -> Stop
    ensures { result.at < 2 ^ 60 }
{
    Stop { why, at: LAST }
}

/// Interrupts a context, and fails the test unless the answer is this.
fn sets(rt: &impl Abort, board: &Board, seat: &mut BoardSeat, context: u32, why: Why, want: bool)
    requires fits { seat.old.board ≡ board.now.id }
    requires context { context < board.now.contexts }
    ensures board { seat.new.board ≡ seat.old.board }
    ensures first { seat.new.view.first ≡ seat.old.view.first }
{
    let was_set = seat.set(board, context, stop_at_last(why));
    same(rt, (context, was_set), (context, want));
}

/// Fails the test unless this is found in a context.
fn finds(rt: &impl Abort, board: &Board, seat: &mut BoardSeat, context: u32, want: Option<Why>)
    requires fits { seat.old.board ≡ board.now.id }
    requires context { context < board.now.contexts }
    ensures board { seat.new.board ≡ seat.old.board }
    ensures first { seat.new.view.first ≡ seat.old.view.first }
{
    let found = seat.look(board, context);
    let want = match want {
        Some(why) => Some(stop_at_last(why)),
        None => None,
    };
    same(rt, (context, found), (context, want));
}

/// Fails the test unless this is found in each context, in order.
fn finds_each(rt: &impl Abort, board: &Board, seat: &mut BoardSeat, wants: &[Option<Why>])
    requires fits { seat.old.board ≡ board.now.id }
    requires few { (length wants.now ≤ 6) × (length wants.now ≤ board.now.contexts) }
    ensures board { seat.new.board ≡ seat.old.board }
    ensures first { seat.new.view.first ≡ seat.old.view.first }
{
    for (context, want) in wants.iter().enumerate() {
        finds(rt, board, seat, context as u32, *want);
    }
}

#[test]
fn a_code_stays_and_reaches_its_children(rt: HostRuntime) -> Result<(), Fail> {
    let (board, mut seat) = Board::new(rt.alloc(), 3)?;
    finds(&rt, &board, &mut seat, 1, None);
    sets(&rt, &board, &mut seat, 1, Why::Until, true);
    finds_each(&rt, &board, &mut seat, &[None, Some(Why::Until), None]);
    sets(&rt, &board, &mut seat, 1, Why::Sink, false);
    finds(&rt, &board, &mut seat, 1, Some(Why::Until));
    sets(&rt, &board, &mut seat, 0, Why::Memory, true);
    finds_each(
        &rt,
        &board,
        &mut seat,
        &[Some(Why::Memory), Some(Why::Until), Some(Why::Memory)],
    );
    sets(&rt, &board, &mut seat, 0, Why::Fault, false);
    Ok(())
}

const CONTEXTS: u32 = 1000;

/// Sets each context but that of the run, and looks at it twice. In which contexts this seat was the
/// first to set, and whether what it saw was there both times.
fn race(
    alloc: Global,
    board: &Board,
    mut seat: BoardSeat,
    why: Why,
) -> Result<(Vec<bool>, bool), AllocError>
    requires { (seat.board ≡ board.now.id) × (1001 ≤ board.now.contexts) }
{
    let mut was_first = Vec::new(alloc);
    let mut stays = true;
    for k in 0..CONTEXTS {
        was_first.push(seat.set(board, k + 1, stop_at_last(why)))?;
        let seen = seat.look(board, k + 1);
        let again = seat.look(board, k + 1);
        stays = stays && seen.is_some() && seen == again;
    }
    Ok((was_first, stays))
}

/// Fails the test unless of both seats just one was the first to set each context, and its cause is
/// found there.
fn one_was_first(
    rt: &impl Abort,
    board: &Board,
    seat: &mut BoardSeat,
    here: &[bool],
    there: &[bool],
)
    requires fits { (seat.old.board ≡ board.now.id) × (1001 ≤ board.now.contexts) }
    requires each { (length here.now ≡ 1000) × (length there.now ≡ 1000) }
{
    for k in 0..CONTEXTS {
        let was_here = here[k as usize];
        holds(rt, was_here != there[k as usize]);
        let why = if was_here { Why::Take } else { Why::Until };
        finds(rt, board, seat, k + 1, Some(why));
    }
}

#[test]
fn of_two_threads_one_sets_a_context(rt: HostRuntime) -> Result<(), Fail> {
    let alloc = rt.alloc();
    let (board, mut first) = Board::new(alloc, CONTEXTS + 1)?;
    let here = first.split(&board);
    let there = first.split(&board);
    let shared = &board;
    let (here, there) = thread::join(
        &rt,
        move || -> Result<(Vec<bool>, bool), AllocError>
            requires { (here.board ≡ shared.now.id) × (1001 ≤ shared.now.contexts) }
        { race(alloc, shared, here, Why::Take) },
        move || -> Result<(Vec<bool>, bool), AllocError>
            requires { (there.board ≡ shared.now.id) × (1001 ≤ shared.now.contexts) }
        { race(alloc, shared, there, Why::Until) },
    );
    let (here, here_stays) = here?;
    let (there, there_stays) = there?;
    holds(&rt, here_stays && there_stays);
    assert_eq!(rt; here.len(), CONTEXTS as usize);
    assert_eq!(rt; there.len(), CONTEXTS as usize);
    one_was_first(&rt, shared, &mut first, &here, &there);
    Ok(())
}

/// What may be passed to another thread, and what threads may share.
fn is_sendable<T: Send>(_value: &T) {}

fn is_sharable<T: Sync>(_value: &T) {}

#[test]
fn boards_are_shared_and_seats_go_to_other_threads(rt: HostRuntime) -> Result<(), Fail> {
    let (board, seat) = Board::new(rt.alloc(), 1)?;
    is_sendable(&board);
    is_sharable(&board);
    is_sendable(&seat);
    Ok(())
}
