//! How the seats of streams go out and come back.
ghost use Rattle.std.specs.Prelude.{◌≡◌, ◌≢◌, ℕ, ◌+◌, ◌≤◌, ◌∷◌, ◌++◌, [], List, IfOk, IfErr};
ghost use Rattle.chunk_core.specs.Lists.{IsAmong};
ghost use Rattle.res_ledger.specs.declared.event.StreamNo.TheVariants.{Outer};
ghost use Rattle.row_seat.specs.Views.{IsWithin, OthersFit, joined, next_stamp, split_main, split_off};
ghost use Rattle.scope_tree.specs.Calls.{KeepsScopes, Seen, TakesRoom};
ghost use Rattle.scope_tree.specs.Trees.{Fits, seen};
ghost use Rattle.scope_tree.specs.Trace.{owed};
ghost use Rattle.tree_laws.specs.Visits.{HasNothingOpen, IsNewGuest, Visits};
ghost use Rattle.tree_families.specs.Families.{Split};
ghost use Rattle.join_tree.specs.Guests.{AreOut, Guest, IsOut, IsReady};
ghost use Rattle.join_tree.specs.Given.{GivesMore};
ghost use Rattle.join_tree.specs.Mains.{IsMain};
ghost use Rattle.join_tree.specs.Progress.{Progress, joining, splitting};
ghost use Rattle.join_tree.specs.Steps.{guest_of};

use chunk_core::Span;
use row_seat::RowSeat;
use scope_tree::{Finish, Tree};
use std::alloc::{AllocError, Global};

/// Splits off the seat of the next stream, whose lease was the first to wait, with these rows and
/// room for so many events. Where memory is wanting nothing was done, and the lease waits still.
pub fn split_off<S: RowSeat>(
    alloc: Global,
    tree: &mut Tree<S>,
    desk: &mut S::Desk,
    stream: u32,
    rows: Span,
    events: u64,
) -> Result<S, AllocError>
where
    S::Pay: Finish,
    requires fits { Fits S.view S.fits tree.old desk.old }
    requires main { (width n : ℕ) × (p : Progress S.Pay) × (T : List ℕ) × (us : List (ℕ × List ℕ)) × IsMain S.Pay.ends width n (seen S.view tree.old) p × (p.waits ≡ (stream, T) ∷ us) }
    requires rows { (r : ℕ) → IsWithin rows.from rows.to r → IsAmong r (seen S.view tree.old).seat.empty }
    requires splits { 1 ≤ (seen S.view tree.old).seat.splits }
    requires some { 1 ≤ events }
    requires free { owed (seen S.view tree.old).seat + events ≤ (seen S.view tree.old).seat.spare }
    ensures seat { IfOk result (λ s. (S.view s ≡ split_off (seen S.view tree.old).seat stream rows.from rows.to events) × S.fits s desk.new) }
    ensures guest { (width n : ℕ) (p : Progress S.Pay) (T : List ℕ) (us : List (ℕ × List ℕ)) → IsMain S.Pay.ends width n (seen S.view tree.old) p → p.waits ≡ (stream, T) ∷ us → IfOk result (λ s. IsNewGuest (S.view s) stream (next_stamp (seen S.view tree.old).seat.events) T) }
    ensures main { (width n : ℕ) (p : Progress S.Pay) (T : List ℕ) (us : List (ℕ × List ℕ)) → IsMain S.Pay.ends width n (seen S.view tree.old) p → p.waits ≡ (stream, T) ∷ us → IsReady width (seen S.view tree.old) p → IfOk result (λ s. IsMain S.Pay.ends width n (seen S.view tree.new) (splitting p (seen S.view tree.old).seat stream us)) }
    ensures out { (width n : ℕ) (p : Progress S.Pay) (T : List ℕ) (us : List (ℕ × List ℕ)) (gs : List Guest) → IsMain S.Pay.ends width n (seen S.view tree.old) p → p.waits ≡ (stream, T) ∷ us → AreOut (seen S.view tree.old) p.splits gs → IfOk result (λ s. AreOut (seen S.view tree.new) (splitting p (seen S.view tree.old).seat stream us).splits (gs ++ guest_of (seen S.view tree.old).seat stream T ∷ [])) }
    ensures seen { IfOk result (λ s. seen S.view tree.new ≡ record (seen S.view tree.old) { seat = split_main (seen S.view tree.old).seat stream rows.from rows.to events }) }
    ensures owed { owed (seen S.view tree.new).seat ≡ owed (seen S.view tree.old).seat }
    ensures gives { GivesMore [] (seen S.view tree.old) (seen S.view tree.new) }
    ensures scopes { KeepsScopes (seen S.view tree.old) (seen S.view tree.new) }
    ensures room { TakesRoom 0 0 (seen S.view tree.old) (seen S.view tree.new) }
    ensures err { IfErr result (λ e. seen S.view tree.new ≡ seen S.view tree.old) }
    ensures fits { Fits S.view S.fits tree.new desk.new }
    ensures others { OthersFit S.view S.fits Outer desk.old desk.new }
{
    let seat = tree.split(alloc, desk, stream, rows, events)?;
    Ok(seat)
}

/// Takes the seat of a stream that has ended in again, with all that its tree noted.
pub fn take_in<S: RowSeat>(tree: &mut Tree<S>, desk: &mut S::Desk, seat: S)
where
    S::Pay: Finish,
    requires fits { Fits S.view S.fits tree.old desk.old × S.fits seat desk.old }
    requires main { (width n : ℕ) × (p : Progress S.Pay) × (g : Guest) × (y : Seen S.Pay) × IsMain S.Pay.ends width n (seen S.view tree.old) p × IsOut (seen S.view tree.old) p.splits g × Visits S.Pay.ends g.stream g.floor g.rows y × (S.view seat ≡ y.seat) }
    requires rest { HasNothingOpen (S.view seat) }
    ensures main { (width n : ℕ) (p : Progress S.Pay) (g : Guest) (y : Seen S.Pay) → IsMain S.Pay.ends width n (seen S.view tree.old) p → IsOut (seen S.view tree.old) p.splits g → Visits S.Pay.ends g.stream g.floor g.rows y → S.view seat ≡ y.seat → IsMain S.Pay.ends width n (seen S.view tree.new) (joining p y) }
    ensures out { (ms : List Split) (g : Guest) (gs : List Guest) (y : Seen S.Pay) → AreOut (seen S.view tree.old) ms (g ∷ gs) → Visits S.Pay.ends g.stream g.floor g.rows y → S.view seat ≡ y.seat → AreOut (seen S.view tree.new) ms gs }
    ensures seen { seen S.view tree.new ≡ record (seen S.view tree.old) { seat = joined (seen S.view tree.old).seat (S.view seat) } }
    ensures owed { owed (seen S.view tree.new).seat ≡ owed (seen S.view tree.old).seat }
    ensures gives { GivesMore [] (seen S.view tree.old) (seen S.view tree.new) }
    ensures scopes { KeepsScopes (seen S.view tree.old) (seen S.view tree.new) }
    ensures room { TakesRoom 0 0 (seen S.view tree.old) (seen S.view tree.new) }
    ensures fits { Fits S.view S.fits tree.new desk.new }
    ensures others { (o : S) → (S.view o).by ≢ Outer → (S.view o).by ≢ (S.view seat).by → S.fits o desk.old → S.fits o desk.new }
{
    tree.join(desk, seat);
}
