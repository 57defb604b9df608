//! The scripts of a tree over a shared seat: the rows that ended, and the ledgers, which are those that
//! they leave over a plain seat.
use crate::asserts::prints;
use crate::coins::{BAD, GOOD, ended};
use crate::guests::ledger_of_a_guest;
use chunk_core::Exit;
use res_ledger::{Ledger, StreamNo, text};
use row_seat::PlainSeat;
use row_shared::SharedSeat;
use scope_tree::Room;
use std::alloc::{AllocError, Global};
use std::process::Abort;
use std::test::Fail;
use tree_scripts::uses::two;

/// Fails the test unless both ledgers are printed alike.
fn print_alike(
    rt: &impl Abort,
    alloc: Global,
    shared: &Ledger,
    plain: &Ledger,
) -> Result<(), AllocError> {
    let plain = text(alloc, plain)?;
    prints(rt, alloc, shared, plain.as_slice())
}

fn plain_guest(rt: &impl Abort, alloc: Global) -> Result<Ledger, AllocError> {
    let (seat, mut desk) = PlainSeat::new(alloc, StreamNo::Outer, 2, 16)?;
    Ok(ledger_of_a_guest(rt, alloc, seat, &mut desk, GOOD, BAD))
}

fn shared_guest(rt: &impl Abort, alloc: Global) -> Result<Ledger, AllocError> {
    let (seat, mut desk) = SharedSeat::new(alloc, StreamNo::Outer, 2, 2, 16)?;
    Ok(ledger_of_a_guest(rt, alloc, seat, &mut desk, GOOD, BAD))
}

#[test]
fn a_guest_leaves_the_same_ledger(rt: HostRuntime) -> Result<(), Fail> {
    let plain = plain_guest(&rt, rt.alloc())?;
    let shared = shared_guest(&rt, rt.alloc())?;
    print_alike(&rt, rt.alloc(), &shared, &plain)?;
    Ok(())
}

#[test]
fn ends_two_rows_of_a_shared_seat(rt: HostRuntime) -> Result<(), Fail> {
    let (seat, mut desk) = SharedSeat::new(rt.alloc(), StreamNo::Outer, 2, 1, 7)?;
    let room = Room::new(rt.alloc(), 2, 2)?;
    let (_, shelf) = two(seat, room, &mut desk, GOOD, BAD);
    ended(
        &rt,
        shelf.as_slice(),
        &[(1, Exit::Succeeded, false), (0, Exit::Succeeded, true)],
    );
    Ok(())
}
