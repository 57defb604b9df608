//! Scripts of calls over the seat of one stream, with the ledgers that they leave.
ghost use Rattle.std.specs.Prelude.{◌≡◌, ◌≢◌, ◌+◌, ◌≤◌, true, [], IfOk, IfErr};
ghost use Rattle.chunk_core.specs.Lists.{IsAmong};
ghost use Rattle.res_ledger.specs.Ledger.{IsLeased};
ghost use Rattle.res_ledger.specs.Rising.{Rises};
ghost use Rattle.res_ledger.specs.Streams.{by_stream};
ghost use Rattle.res_ledger.specs.declared.event.StreamNo.TheVariants.{Inner, Outer};
ghost use Rattle.row_seat.specs.PlainSeats.{Sits, shown};
ghost use Rattle.row_seat.specs.Views.{IsLedgerOf, start};
ghost use Rattle.scope_tree.specs.Calls.{IsClosedScope, IsOpenScope};
ghost use Rattle.scope_tree.specs.Rights.{HasNoLeaseBut};
ghost use Rattle.tree_scripts.specs.Scripts.{IsReopened, IsRootLeased, IsThree, IsThreeOfSome};
ghost use Rattle.scope_tree.specs.Trees.{Fits, seen};
ghost use Rattle.tree_scripts.specs.Waiting.{FinishesLedger, IsAlone, LeasesAndCloses, CancelsAndFinishes, WaitsForCancel};
ghost use Rattle.scope_tree.specs.Trace.{owed};
ghost use Rattle.scope_tree.specs.Visible.{lessee, row_room, rows_covered, scope_room};

use chunk_core::{Exit, List};
use res_ledger::{Ledger, StreamNo};
use row_seat::{PlainSeat, PlainTable, RowSeat};
use scope_tree::{Finish, Lease, Room, Spent, Tree};
use std::alloc::{AllocError, Global};

/// Three rows in three scopes, each below the other.
pub fn three_rows<S: RowSeat>(
    seat: S,
    room: Room<S::Pay>,
    desk: &mut S::Desk,
    first: S::Pay,
    second: S::Pay,
    third: S::Pay,
) -> Tree<S>
where
    S::Pay: Finish,
    requires fits { S.fits seat desk.old }
    requires start { S.view seat ≡ start Outer 3 16 (S.view seat).splits }
    requires room { (scope_room room ≡ 4) × (row_room room ≡ 3) }
    ensures three { IsThree (seen S.view result) first second third }
    ensures fits { Fits S.view S.fits result desk.new }
{
    let mut tree = Tree::new(seat, room);
    tree.acquired(desk, 0, 0, first);
    tree.open(desk, 0);
    tree.acquired(desk, 1, 1, second);
    tree.open(desk, 1);
    tree.acquired(desk, 2, 2, third);
    tree
}

/// Leases a scope for a stream, and closes the root with an exit.
pub fn lease_and_close<S: RowSeat>(
    alloc: Global,
    tree: &mut Tree<S>,
    desk: &mut S::Desk,
    scope: u32,
    stream: u32,
    exit: Exit,
) -> Result<Lease, AllocError>
where
    S::Pay: Finish,
    requires fits { Fits S.view S.fits tree.old desk.old }
    requires alone { IsAlone (seen S.view tree.old).seat }
    requires scope { IsOpenScope (seen S.view tree.old) scope }
    requires stream { ((seen S.view tree.old).seat.by ≢ Inner stream) × ¬ (IsAmong stream (seen S.view tree.old).seat.had) × ¬ (IsLeased (seen S.view tree.old).seat.events stream) }
    requires free { owed (seen S.view tree.old).seat + 2 ≤ (seen S.view tree.old).seat.spare }
    ensures calls { IfOk result (λ lease. (lessee lease ≡ stream) × LeasesAndCloses S.Pay.ends (seen S.view tree.old) scope stream (rows_covered lease) exit (seen S.view tree.new)) }
    ensures waits { IfOk result (λ lease. WaitsForCancel (seen S.view tree.new) (lessee lease) (rows_covered lease)) }
    ensures err { IfErr result (λ _. seen S.view tree.new ≡ seen S.view tree.old) }
    ensures fits { Fits S.view S.fits tree.new desk.new }
{
    let lease = tree.lease(alloc, desk, scope, stream)?;
    tree.close(desk, 0, exit);
    Ok(lease)
}

/// Ends a tree whose root is closed and finishes its seat, where no lease and no other seat is left.
pub fn finish_alone<S: RowSeat>(tree: Tree<S>, desk: &mut S::Desk) -> (Ledger, List<Spent<S::Pay>>)
where
    S::Pay: Finish,
    requires fits { Fits S.view S.fits tree desk.old }
    requires closed { IsClosedScope (seen S.view tree) 0 }
    requires main { (seen S.view tree).seat.main ≡ true }
    requires out { (seen S.view tree).seat.out ≡ [] }
    requires leases { HasNoLeaseBut (seen S.view tree).seat [] }
    ensures ledger { IsLedgerOf (seen S.view tree).seat result.0 }
    ensures rising { Rises (by_stream (seen S.view tree).seat.by (seen S.view tree).seat.events) }
    ensures shelf { result.1 ≡ (seen S.view tree).shelf }
{
    let (seat, shelf) = tree.end();
    (seat.finish(desk), shelf)
}

/// Cancels the lease with an exit, ends the tree and finishes its seat.
pub fn cancel_and_finish<S: RowSeat>(
    mut tree: Tree<S>,
    desk: &mut S::Desk,
    lease: Lease,
    exit: Exit,
) -> (Ledger, List<Spent<S::Pay>>)
where
    S::Pay: Finish,
    requires fits { Fits S.view S.fits tree desk.old }
    requires waits { WaitsForCancel (seen S.view tree) (lessee lease) (rows_covered lease) }
    ensures { CancelsAndFinishes S.Pay.ends (seen S.view tree) (lessee lease) (rows_covered lease) exit result.0 result.1 }
{
    tree.cancel(desk, lease, exit);
    finish_alone(tree, desk)
}

/// Closes the root with an exit, ends the tree and finishes its seat.
pub fn close_and_finish<S: RowSeat>(
    mut tree: Tree<S>,
    desk: &mut S::Desk,
    exit: Exit,
) -> (Ledger, List<Spent<S::Pay>>)
where
    S::Pay: Finish,
    requires fits { Fits S.view S.fits tree desk.old }
    requires alone { IsAlone (seen S.view tree).seat }
    requires root { IsOpenScope (seen S.view tree) 0 }
    ensures { FinishesLedger S.Pay.ends (seen S.view tree) exit result.0 result.1 }
{
    tree.close(desk, 0, exit);
    finish_alone(tree, desk)
}

/// The root is leased, which covers its row and its child's, and closed as errored before the lease
/// is cancelled as canceled: the row below them ends with the root, and as it did.
pub fn lease_the_root<S: RowSeat>(
    alloc: Global,
    seat: S,
    room: Room<S::Pay>,
    desk: &mut S::Desk,
    first: S::Pay,
    second: S::Pay,
    third: S::Pay,
) -> Result<(Ledger, List<Spent<S::Pay>>), AllocError>
where
    S::Pay: Finish + Drop,
    requires fits { S.fits seat desk.old }
    requires start { S.view seat ≡ start Outer 3 16 (S.view seat).splits }
    requires room { (scope_room room ≡ 4) × (row_room room ≡ 3) }
    ensures { IfOk result (λ x. IsRootLeased S.Pay.ends first second third x.0 x.1) }
{
    let mut tree = three_rows(seat, room, desk, first, second, third);
    match lease_and_close(alloc, &mut tree, desk, 0, 5, Exit::Errored) {
        Ok(lease) => Ok(cancel_and_finish(tree, desk, lease, Exit::Canceled)),
        Err(error) => {
            close_and_finish(tree, desk, Exit::Canceled);
            Err(error)
        }
    }
}

/// Closes the child of the root as errored, and opens a scope at the one below it, which is closed by
/// then.
pub fn close_and_open<S: RowSeat>(tree: &mut Tree<S>, desk: &mut S::Desk) -> u32
where
    S::Pay: Finish,
    requires fits { Fits S.view S.fits tree.old desk.old }
    requires three { IsThreeOfSome (seen S.view tree.old) }
    ensures number { result ≡ 3 }
    ensures reopened { IsReopened (seen S.view tree.new) }
    ensures fits { Fits S.view S.fits tree.new desk.new }
{
    tree.close(desk, 1, Exit::Errored);
    tree.open(desk, 2)
}

/// A payload whose finalizer succeeds where it says so.
#[derive(Drop, Clone, Copy)]
pub struct Coin {
    pub good: bool,
}

impl Finish for Coin {
    ghost use Rattle.std.specs.Prelude.{◌≡◌};

    ghost ends = { λ p x ok q. (ok ≡ p.good) × (q ≡ p) };

    fn finish(&mut self, _exit: Exit) -> bool {
        self.good
    }
}

/// The row in the middle has this outcome, the two others succeed.
pub fn three_coins(
    alloc: Global,
    middle: bool,
) -> Result<(Tree<PlainSeat<Coin>>, PlainTable<Coin>), AllocError>
    ensures three { IfOk result (λ t. IsThreeOfSome (seen shown t.0)) }
    ensures fits { IfOk result (λ t. Fits shown Sits t.0 t.1) }
{
    let (seat, mut desk) = PlainSeat::new(alloc, StreamNo::Outer, 3, 16)?;
    let room = Room::new(alloc, 4, 3)?;
    let good = Coin { good: true };
    let tree = three_rows(seat, room, &mut desk, good, Coin { good: middle }, good);
    Ok((tree, desk))
}
