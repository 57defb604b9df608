//! A stream with a seat of its own ends the row that it leased.
ghost use Rattle.std.specs.Prelude.{◌≡◌, ◌≤◌, [], ◌∷◌};
ghost use Rattle.res_ledger.specs.declared.event.StreamNo.TheVariants.{Outer};
ghost use Rattle.row_seat.specs.Views.{start};
ghost use Rattle.scope_tree.specs.Trees.{Fits, seen};
ghost use Rattle.scope_tree.specs.Visible.{lessee, row_room, rows_covered};
ghost use Rattle.tree_scripts.specs.Guests.{IsGuest, IsHost};

use crate::asserts::{prints, same};
use crate::coins::{BAD, GOOD};
use chunk_core::{Exit, Span};
use res_ledger::{Ledger, StreamNo};
use row_seat::{PlainSeat, RowSeat};
use scope_tree::{Finish, Lease, Room, Standing, Tree};
use std::alloc::Global;
use std::process::Abort;
use std::test::Fail;
use tree_scripts::guests::{part, visit};

/// The root and its row are leased for the stream 5, whose seat is split off, and closed as
/// succeeded.
fn host<S: RowSeat>(
    rt: &impl Abort,
    alloc: Global,
    seat: S,
    room: Room<S::Pay>,
    desk: &mut S::Desk,
    pay: S::Pay,
) -> (Tree<S>, S, Lease)
where
    S::Pay: Finish,
    requires fits { S.fits seat desk.old }
    requires start { S.view seat ≡ start Outer 2 16 (S.view seat).splits }
    requires splits { 1 ≤ (S.view seat).splits }
    requires room { 1 ≤ row_room room }
    ensures host { IsHost (seen S.view result.0).seat }
    ensures guest { IsGuest (S.view result.1) }
    ensures lease { (lessee result.2 ≡ 5) × (rows_covered result.2 ≡ 0 ∷ []) }
    ensures fits { Fits S.view S.fits result.0 desk.new × S.fits result.1 desk.new }
{
    let mut tree = Tree::new(seat, room);
    tree.acquired(desk, 0, 0, pay);
    let lease = tree.lease(alloc, desk, 0, 5).expect(rt, "memory");
    let rows = Span { from: 1, to: 2 };
    let guest = tree.split(alloc, desk, 5, rows, 5).expect(rt, "memory");
    tree.close(desk, 0, Exit::Succeeded);
    (tree, guest, lease)
}

/// The ledger where a stream with a seat of its own takes over the lease of the root, whose row has
/// the first payload, and acquires a row with the other.
pub(crate) fn ledger_of_a_guest<S: RowSeat>(
    rt: &impl Abort,
    alloc: Global,
    seat: S,
    desk: &mut S::Desk,
    pay: S::Pay,
    other: S::Pay,
) -> Ledger
where
    S::Pay: Finish + Drop,
    requires fits { S.fits seat desk.old }
    requires start { S.view seat ≡ start Outer 2 16 (S.view seat).splits }
    requires splits { 1 ≤ (S.view seat).splits }
{
    let room = Room::new(alloc, 1, 1).expect(rt, "memory");
    let inner = Room::new(alloc, 1, 2).expect(rt, "memory");
    let (tree, guest, lease) = host(rt, alloc, seat, room, desk, pay);
    same(rt, tree.status(0), Standing::Left);
    let guest = visit(guest, inner, desk, lease, other);
    part(tree, desk, guest)
}

#[test]
fn a_guest_ends_the_row_that_it_leased(rt: HostRuntime) -> Result<(), Fail> {
    let (seat, mut desk) = PlainSeat::new(rt.alloc(), StreamNo::Outer, 2, 16)?;
    let ledger = ledger_of_a_guest(&rt, rt.alloc(), seat, &mut desk, GOOD, BAD);
    prints(
        &rt,
        rt.alloc(),
        &ledger,
        b"ledger 8
outer acquire 0 0
outer lease 5 0
outer close 0 succeeded
5 acquire 1 0
5 close 0 errored
5 final 1 errored fault
5 cancel 5 errored
5 final 0 errored ok
",
    )?;
    Ok(())
}
