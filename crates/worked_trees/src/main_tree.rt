//! A main tree whose one stream is never begun, by a caller that sees public clauses alone.
ghost use Rattle.std.specs.Prelude.{◌≡◌, ◌+◌, ◌≤◌, [], Some};
ghost use Rattle.chunk_core.specs.Lists.{IsAmong};
ghost use Rattle.chunk_core.specs.declared.code.Exit.{Exit};
ghost use Rattle.res_ledger.specs.declared.event.Event.{Event};
ghost use Rattle.res_ledger.specs.declared.event.StreamNo.TheVariants.{Outer};
ghost use Rattle.row_seat.specs.Views.{start};
ghost use Rattle.scope_tree.specs.Trees.{Fits, seen};
ghost use Rattle.scope_tree.specs.Trace.{owed};
ghost use Rattle.tree_laws.specs.Whole.{IsWholeLedger};
ghost use Rattle.join_tree.specs.Mains.{IsMain};
ghost use Rattle.join_tree.specs.Progress.{Progress, none_done};

use crate::asserts::prints;
use chunk_core::Exit;
use join_tree::{begin, cancel_waiting, close_outer, pull, settle};
use res_ledger::{Ledger, StreamNo};
use row_seat::{PlainSeat, RowSeat};
use scope_tree::{Finish, Room, Tree};
use std::alloc::Global;
use std::test::Fail;
use tree_scripts::scripts::Coin;

/// One stream is given, and never begun: its lease is cancelled once the root is closed.
fn pass_over<S: RowSeat>(alloc: Global, tree: &mut Tree<S>, desk: &mut S::Desk)
where
    S::Pay: Finish + Drop,
    requires fits { Fits S.view S.fits tree.old desk.old }
    requires main { IsMain S.Pay.ends 1 1 (seen S.view tree.old) (none_done S.Pay) }
    requires free { owed (seen S.view tree.old).seat + 3 ≤ (seen S.view tree.old).seat.spare }
    ensures main { (p : Progress S.Pay) × (x : Exit) × IsMain S.Pay.ends 1 1 (seen S.view tree.new) p × (p.root ≡ Some x) × (p.waits ≡ []) × (p.back ≡ []) }
    ensures out { (seen S.view tree.new).seat.out ≡ (seen S.view tree.old).seat.out }
    ensures fits { Fits S.view S.fits tree.new desk.new }
{
    match pull(alloc, tree, desk, 0, 1) {
        Ok(Some(lease)) => {
            close_outer(tree, desk, Exit::Succeeded);
            cancel_waiting(tree, desk, lease);
        }
        Ok(None) => {}
        Err(_) => close_outer(tree, desk, Exit::Canceled),
    }
}

/// A run of one stream that is never begun, and its ledger.
fn skip_one<S: RowSeat>(alloc: Global, seat: S, room: Room<S::Pay>, desk: &mut S::Desk) -> Ledger
where
    S::Pay: Finish + Drop,
    requires fits { S.fits seat desk.old }
    requires start { S.view seat ≡ start Outer 0 8 (S.view seat).splits }
    ensures whole { IsWholeLedger result }
    ensures outer { (e : Event) → IsAmong e result → e.by ≡ Outer }
{
    let mut tree = begin(seat, room);
    pass_over(alloc, &mut tree, desk);
    let (ledger, _) = settle(tree, desk);
    ledger
}

#[test]
fn skips_the_one_stream(rt: HostRuntime) -> Result<(), Fail> {
    let (seat, mut desk) = PlainSeat::<Coin>::new(rt.alloc(), StreamNo::Outer, 0, 8)?;
    let room = Room::new(rt.alloc(), 1, 0)?;
    let ledger = skip_one(rt.alloc(), seat, room, &mut desk);
    prints(
        &rt,
        rt.alloc(),
        &ledger,
        b"ledger 3
outer lease 0 0
outer close 0 succeeded
outer cancel 0 canceled
",
    )?;
    Ok(())
}
