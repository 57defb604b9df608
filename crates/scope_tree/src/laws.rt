//! Laws of the definitions, each the contract of a function that does nothing.
ghost use Rattle.std.specs.Prelude.{◌≡◌, ℕ, List, [], false};
ghost use Rattle.res_ledger.specs.Ledger.{Covers, LiesWithin};
ghost use Rattle.row_seat.specs.Views.{MayStay, paid};
ghost use Rattle.scope_tree.specs.Calls.{NoneStays, WasOpened};
ghost use Rattle.scope_tree.specs.Lending.{lent_tree};
ghost use Rattle.scope_tree.specs.Trees.{Fits, IsConsistent, seen};

use crate::tree::Tree;
use row_seat::RowSeat;

/// A tree stays in order while a payload of it is lent, and ends as it was seen, but for that payload.
pub fn lending_keeps_order<S: RowSeat>(tree: &Tree<S>)
    ensures seen { (r : ℕ) (w : S.Pay) → seen S.view (lent_tree S.with_pay tree.now r w) ≡ record (seen S.view tree.now) { seat = paid (seen S.view tree.now).seat r w } }
    ensures fits { (r : ℕ) (w : S.Pay) (d : S.Desk) → Fits S.view S.fits tree.now d → Fits S.view S.fits (lent_tree S.with_pay tree.now r w) d }
{}

/// Each scope stands within the root, and the root within itself alone.
pub fn scopes_stand_within_the_root<S: RowSeat>(tree: &Tree<S>)
    requires tree { IsConsistent S.view tree.now }
    ensures each { (s : ℕ) → WasOpened (seen S.view tree.now) s → LiesWithin (seen S.view tree.now).seat.events (seen S.view tree.now).seat.by s 0 }
    ensures root { (s : ℕ) → LiesWithin (seen S.view tree.now).seat.events (seen S.view tree.now).seat.by 0 s → s ≡ 0 }
{}

/// Where nothing is leased, no lease keeps a row from its end: where the seat isn't the main one, where
/// it has no lease and no other seat is out, and for each row that none of its leases covers.
pub fn rows_without_a_lease_end<S: RowSeat>(tree: &Tree<S>)
    ensures inner { (seen S.view tree.now).seat.main ≡ false → (T : List ℕ) → NoneStays (seen S.view tree.now).seat T }
    ensures none { (seen S.view tree.now).seat.pairs ≡ [] → (seen S.view tree.now).seat.out ≡ [] → (T : List ℕ) → NoneStays (seen S.view tree.now).seat T }
    ensures row { (r : ℕ) → ((j : ℕ) → ¬ (Covers (seen S.view tree.now).seat.events j (seen S.view tree.now).seat.by r)) → ¬ (MayStay (seen S.view tree.now).seat r) }
{}
