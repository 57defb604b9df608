//! The end of a main tree.
ghost use Rattle.std.specs.Prelude.{◌≡◌, ℕ, [], Some};
ghost use Rattle.chunk_core.specs.declared.code.Exit.{Exit};
ghost use Rattle.scope_tree.specs.Trees.{Fits, seen};
ghost use Rattle.join_tree.specs.Mains.{IsMain};
ghost use Rattle.join_tree.specs.Progress.{Progress};
ghost use Rattle.join_tree.specs.Settled.{Settles};

use chunk_core::List;
use res_ledger::Ledger;
use row_seat::RowSeat;
use scope_tree::{Finish, Spent, Tree};

/// The ledger of all streams, and the rows that ended in the main tree, once its root is closed, no
/// lease waits and all seats are back.
pub fn settle<S: RowSeat>(tree: Tree<S>, desk: &mut S::Desk) -> (Ledger, List<Spent<S::Pay>>)
where
    S::Pay: Finish,
    requires fits { Fits S.view S.fits tree desk.old }
    requires main { (width n : ℕ) × (p : Progress S.Pay) × (x : Exit) × IsMain S.Pay.ends width n (seen S.view tree) p × (p.root ≡ Some x) × (p.waits ≡ []) }
    requires out { (seen S.view tree).seat.out ≡ [] }
    ensures settles { (width n : ℕ) (p : Progress S.Pay) (x : Exit) → IsMain S.Pay.ends width n (seen S.view tree) p → p.root ≡ Some x → Settles width n (seen S.view tree) p result.0 }
    ensures shelf { result.1 ≡ (seen S.view tree).shelf }
{
    let (seat, shelf) = tree.end();
    (seat.finish(desk), shelf)
}
