//! The scripts of a tree over a plain seat: the rows that ended, and the ledgers as they are printed.
ghost use Rattle.scope_tree.specs.Trees.{Fits, seen};
ghost use Rattle.tree_scripts.specs.Scripts.{IsThreeOfSome};

use crate::asserts::{prints, same};
use crate::coins::{BAD, GOOD, ended};
use chunk_core::Exit;
use res_ledger::{Ledger, StreamNo};
use row_seat::{PlainSeat, RowSeat};
use scope_tree::{Finish, Room, Standing, Tree};
use std::alloc::Global;
use std::process::Abort;
use std::test::Fail;
use tree_scripts::scripts::{
    cancel_and_finish, close_and_finish, close_and_open, lease_and_close, lease_the_root,
    three_coins,
};
use tree_scripts::short::over_a_plain_seat;
use tree_scripts::uses::{two, write_and_end};

/// The ledger where the scope in the middle is leased and the root closed, before the lease is
/// cancelled. Until then the row of that scope waits.
pub(crate) fn ledger_of_a_lease<S: RowSeat>(
    rt: &impl Abort,
    alloc: Global,
    mut tree: Tree<S>,
    desk: &mut S::Desk,
) -> Ledger
where
    S::Pay: Finish + Drop,
    requires fits { Fits S.view S.fits tree desk.old }
    requires three { IsThreeOfSome (seen S.view tree) }
{
    let lease = lease_and_close(alloc, &mut tree, desk, 1, 5, Exit::Succeeded).expect(rt, "memory");
    same(rt, tree.status(1), Standing::Left);
    let (ledger, _) = cancel_and_finish(tree, desk, lease, Exit::Canceled);
    ledger
}

/// The ledger where the scope 3 is opened at one that is closed by then.
pub(crate) fn ledger_of_a_late_scope<S: RowSeat>(
    rt: &impl Abort,
    mut tree: Tree<S>,
    desk: &mut S::Desk,
) -> Ledger
where
    S::Pay: Finish + Drop,
    requires fits { Fits S.view S.fits tree desk.old }
    requires three { IsThreeOfSome (seen S.view tree) }
{
    let scope = close_and_open(&mut tree, desk);
    same(rt, scope, 3);
    let (ledger, _) = close_and_finish(tree, desk, Exit::Succeeded);
    ledger
}

#[test]
fn closes_the_root_of_a_plain_seat(rt: HostRuntime) -> Result<(), Fail> {
    let (mut tree, mut desk) = three_coins(rt.alloc(), false)?;
    tree.close(&mut desk, 0, Exit::Errored);
    same(&rt, tree.status(2), Standing::Final(true));
    same(&rt, tree.status(1), Standing::Final(false));
    let (_, shelf) = tree.end();
    ended(
        &rt,
        shelf.as_slice(),
        &[
            (2, Exit::Errored, true),
            (1, Exit::Errored, false),
            (0, Exit::Errored, true),
        ],
    );
    Ok(())
}

#[test]
fn ends_two_rows_of_a_plain_seat(rt: HostRuntime) -> Result<(), Fail> {
    let (seat, mut desk) = PlainSeat::new(rt.alloc(), StreamNo::Outer, 2, 7)?;
    let room = Room::new(rt.alloc(), 2, 2)?;
    let (_, shelf) = two(seat, room, &mut desk, GOOD, BAD);
    ended(
        &rt,
        shelf.as_slice(),
        &[(1, Exit::Succeeded, false), (0, Exit::Succeeded, true)],
    );
    Ok(())
}

#[test]
fn ends_a_row_as_it_was_written(rt: HostRuntime) -> Result<(), Fail> {
    let (tree, mut desk) = three_coins(rt.alloc(), true)?;
    let (_, shelf) = write_and_end(tree, &mut desk, 1, BAD);
    ended(
        &rt,
        shelf.as_slice(),
        &[
            (2, Exit::Canceled, true),
            (1, Exit::Canceled, false),
            (0, Exit::Canceled, true),
        ],
    );
    Ok(())
}

#[test]
fn leased_rows_wait_for_the_lease(rt: HostRuntime) -> Result<(), Fail> {
    let (tree, mut desk) = three_coins(rt.alloc(), true)?;
    let ledger = ledger_of_a_lease(&rt, rt.alloc(), tree, &mut desk);
    prints(
        &rt,
        rt.alloc(),
        &ledger,
        b"ledger 11
outer acquire 0 0
outer open 1 0
outer acquire 1 1
outer open 2 1
outer acquire 2 2
outer lease 5 1
outer close 0 succeeded
outer cancel 5 canceled
outer final 2 canceled ok
outer final 1 canceled ok
outer final 0 canceled ok
",
    )?;
    Ok(())
}

#[test]
fn a_row_that_no_lease_covers_ends_at_once(rt: HostRuntime) -> Result<(), Fail> {
    let (seat, mut desk) = PlainSeat::new(rt.alloc(), StreamNo::Outer, 3, 16)?;
    let room = Room::new(rt.alloc(), 4, 3)?;
    let (ledger, _) = lease_the_root(rt.alloc(), seat, room, &mut desk, GOOD, GOOD, GOOD)?;
    prints(
        &rt,
        rt.alloc(),
        &ledger,
        b"ledger 11
outer acquire 0 0
outer open 1 0
outer acquire 1 1
outer open 2 1
outer acquire 2 2
outer lease 5 0
outer close 0 errored
outer final 2 errored ok
outer cancel 5 canceled
outer final 1 canceled ok
outer final 0 canceled ok
",
    )?;
    Ok(())
}

#[test]
fn a_scope_at_a_closed_one_is_opened_above_it(rt: HostRuntime) -> Result<(), Fail> {
    let (tree, mut desk) = three_coins(rt.alloc(), true)?;
    let ledger = ledger_of_a_late_scope(&rt, tree, &mut desk);
    prints(
        &rt,
        rt.alloc(),
        &ledger,
        b"ledger 11
outer acquire 0 0
outer open 1 0
outer acquire 1 1
outer open 2 1
outer acquire 2 2
outer close 1 errored
outer final 2 errored ok
outer final 1 errored ok
outer open 3 0
outer close 0 succeeded
outer final 0 succeeded ok
",
    )?;
    Ok(())
}

#[test]
fn a_lease_holds_both_rows_until_it_is_cancelled(rt: HostRuntime) -> Result<(), Fail> {
    let ledger = over_a_plain_seat(rt.alloc())?;
    prints(
        &rt,
        rt.alloc(),
        &ledger,
        b"ledger 8
outer open 1 0
outer acquire 0 0
outer acquire 1 1
outer lease 7 0
outer close 0 succeeded
outer cancel 7 succeeded
outer final 1 succeeded fault
outer final 0 succeeded ok
",
    )?;
    Ok(())
}
