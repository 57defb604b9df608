//! What the outer stream does: it begins, is pulled, and ends.
ghost use Rattle.std.specs.Prelude.{◌≡◌, ℕ, ◌+◌, ◌<◌, ◌≤◌, ◌∷◌, [], length, List, Some, None, IfOk};
ghost use Rattle.chunk_core.specs.declared.code.Exit.{Exit};
ghost use Rattle.chunk_core.specs.declared.code.Exit.TheVariants.{Succeeded};
ghost use Rattle.res_ledger.specs.declared.event.StreamNo.TheVariants.{Outer};
ghost use Rattle.row_seat.specs.Views.{OthersFit, start};
ghost use Rattle.res_ledger.specs.declared.event.What.TheVariants.{Close, Lease as lease_note, Open};
ghost use Rattle.res_ledger.specs.Own.{opens};
ghost use Rattle.scope_tree.specs.Calls.{IsOpenScope, KeepsScopes, Seen, TakesRoom, used};
ghost use Rattle.scope_tree.specs.Released.{away};
ghost use Rattle.scope_tree.specs.Trees.{Fits, seen};
ghost use Rattle.scope_tree.specs.Trace.{owed, trace};
ghost use Rattle.scope_tree.specs.Visible.{lessee, row_room, rows_covered, scope_room};
ghost use Rattle.tree_laws.specs.Called.{Called};
ghost use Rattle.join_tree.specs.Given.{GivesMore, given, pulled};
ghost use Rattle.join_tree.specs.Mains.{IsMain};
ghost use Rattle.join_tree.specs.Progress.{Progress, closing_root, none_done, reading, skipping};
ghost use Rattle.join_tree.specs.Steps.{KeepsGuests, KeepsRows, LeasesNext, Pulls, TakesEvents};

use chunk_core::Exit;
use row_seat::RowSeat;
use scope_tree::{Finish, Lease, Room, Tree};
use std::alloc::{AllocError, Global};

/// The main tree of a run, over the first seat, with its root open.
pub fn begin<S: RowSeat>(seat: S, room: Room<S::Pay>) -> Tree<S>
where
    S::Pay: Finish,
    requires start { (rows events : ℕ) × (1 ≤ events) × (S.view seat ≡ start Outer rows events (S.view seat).splits) }
    ensures main { (width n : ℕ) → IsMain S.Pay.ends width n (seen S.view result) (none_done S.Pay) }
    ensures seat { (seen S.view result).seat ≡ S.view seat }
    ensures room { ((seen S.view result).scopes ≡ scope_room room) × ((seen S.view result).rows ≡ row_room room) }
    ensures used { used (seen S.view result) ≡ 0 }
    ensures owed { owed (seen S.view result).seat ≡ 1 }
    ensures gives { given (seen S.view result).seat ≡ [] }
    ensures fits { (d : S.Desk) → S.fits seat d → Fits S.view S.fits result d }
{
    Tree::new(seat, room)
}

/// Opens a child of the root, for rows that only some streams see.
pub fn open_child<S: RowSeat>(tree: &mut Tree<S>, desk: &mut S::Desk) -> u32
where
    S::Pay: Finish,
    requires fits { Fits S.view S.fits tree.old desk.old }
    requires main { (width n : ℕ) × (p : Progress S.Pay) × IsMain S.Pay.ends width n (seen S.view tree.old) p × (p.root ≡ None) }
    requires room { length (opens (trace (seen S.view tree.old).seat)) + 1 < (seen S.view tree.old).scopes }
    requires free { owed (seen S.view tree.old).seat + 2 ≤ (seen S.view tree.old).seat.spare }
    ensures main { (width n : ℕ) (p : Progress S.Pay) → IsMain S.Pay.ends width n (seen S.view tree.old) p → p.root ≡ None → IsMain S.Pay.ends width n (seen S.view tree.new) (reading p (Open result 0 ∷ [])) }
    ensures number { result ≡ length (opens (trace (seen S.view tree.old).seat)) + 1 }
    ensures gives { GivesMore (Open result 0 ∷ []) (seen S.view tree.old) (seen S.view tree.new) }
    ensures child { (1 ≤ result) × IsOpenScope (seen S.view tree.new) result }
    ensures scopes { KeepsScopes (seen S.view tree.old) (seen S.view tree.new) }
    ensures guests { KeepsGuests (seen S.view tree.old) (seen S.view tree.new) }
    ensures rows { KeepsRows (seen S.view tree.old).seat (seen S.view tree.new).seat }
    ensures events { TakesEvents 2 (seen S.view tree.old) (seen S.view tree.new) }
    ensures room { TakesRoom 1 0 (seen S.view tree.old) (seen S.view tree.new) }
    ensures fits { Fits S.view S.fits tree.new desk.new }
    ensures others { OthersFit S.view S.fits Outer desk.old desk.new }
{
    tree.open(desk, 0)
}

/// Closes a child of the root behind its last stream.
pub fn close_child<S: RowSeat>(tree: &mut Tree<S>, desk: &mut S::Desk, scope: u32)
where
    S::Pay: Finish,
    requires fits { Fits S.view S.fits tree.old desk.old }
    requires main { (width n : ℕ) × (p : Progress S.Pay) × IsMain S.Pay.ends width n (seen S.view tree.old) p × (p.root ≡ None) }
    requires child { (1 ≤ scope) × IsOpenScope (seen S.view tree.old) scope }
    ensures main { (width n : ℕ) (p : Progress S.Pay) → IsMain S.Pay.ends width n (seen S.view tree.old) p → p.root ≡ None → IsMain S.Pay.ends width n (seen S.view tree.new) (reading p (Close scope Succeeded ∷ [])) }
    ensures gives { GivesMore (Close scope Succeeded ∷ []) (seen S.view tree.old) (seen S.view tree.new) }
    ensures guests { KeepsGuests (seen S.view tree.old) (seen S.view tree.new) }
    ensures rows { KeepsRows (seen S.view tree.old).seat (seen S.view tree.new).seat }
    ensures events { TakesEvents 0 (seen S.view tree.old) (seen S.view tree.new) }
    ensures room { TakesRoom 0 0 (seen S.view tree.old) (seen S.view tree.new) }
    ensures fits { Fits S.view S.fits tree.new desk.new }
    ensures others { OthersFit S.view S.fits Outer desk.old desk.new }
{
    tree.close(desk, scope, Exit::Succeeded);
}

/// Leases an open scope for the next stream. Where memory is wanting nothing was done. The main tree
/// is kept where the seats that are out and the leases that wait are as many as the width at most.
pub fn lease_next<S: RowSeat>(
    alloc: Global,
    tree: &mut Tree<S>,
    desk: &mut S::Desk,
    scope: u32,
    stream: u32,
) -> Result<Lease, AllocError>
where
    S::Pay: Finish,
    requires fits { Fits S.view S.fits tree.old desk.old }
    requires main { (width n : ℕ) × (p : Progress S.Pay) × IsMain S.Pay.ends width n (seen S.view tree.old) p × (p.root ≡ None) × (p.leased ≡ stream) × (p.leased < n) }
    requires scope { IsOpenScope (seen S.view tree.old) scope }
    requires free { owed (seen S.view tree.old).seat + 2 ≤ (seen S.view tree.old).seat.spare }
    ensures leases { (width n : ℕ) (p : Progress S.Pay) → IsMain S.Pay.ends width n (seen S.view tree.old) p → p.root ≡ None → p.leased ≡ stream → p.leased < n → length (seen S.view tree.old).seat.out + length p.waits ≤ width → LeasesNext S.Pay.ends width n (seen S.view tree.old) (seen S.view tree.new) p scope result }
    ensures gives { IfOk result (λ l. GivesMore (lease_note stream scope ∷ []) (seen S.view tree.old) (seen S.view tree.new)) }
    ensures scopes { KeepsScopes (seen S.view tree.old) (seen S.view tree.new) }
    ensures guests { KeepsGuests (seen S.view tree.old) (seen S.view tree.new) }
    ensures rows { KeepsRows (seen S.view tree.old).seat (seen S.view tree.new).seat }
    ensures opened { (seen S.view tree.new).seat.opened ≡ (seen S.view tree.old).seat.opened }
    ensures events { TakesEvents 1 (seen S.view tree.old) (seen S.view tree.new) }
    ensures room { TakesRoom 0 0 (seen S.view tree.old) (seen S.view tree.new) }
    ensures fits { Fits S.view S.fits tree.new desk.new }
    ensures others { OthersFit S.view S.fits Outer desk.old desk.new }
{
    let lease = tree.lease(alloc, desk, scope, stream)?;
    Ok(lease)
}

/// Leases the root for the next stream, or closes it as succeeded where none is left. Where memory
/// is wanting for the lease nothing was done. The main tree is kept where the seats that are out and
/// the leases that wait are as many as the width at most.
pub fn pull<S: RowSeat>(
    alloc: Global,
    tree: &mut Tree<S>,
    desk: &mut S::Desk,
    leased: u32,
    streams: u32,
) -> Result<Option<Lease>, AllocError>
where
    S::Pay: Finish,
    requires fits { Fits S.view S.fits tree.old desk.old }
    requires main { (width : ℕ) × (p : Progress S.Pay) × IsMain S.Pay.ends width streams (seen S.view tree.old) p × (p.root ≡ None) × (p.leased ≡ leased) }
    requires free { leased < streams → owed (seen S.view tree.old).seat + 2 ≤ (seen S.view tree.old).seat.spare }
    ensures pulls { (width : ℕ) (p : Progress S.Pay) → IsMain S.Pay.ends width streams (seen S.view tree.old) p → p.root ≡ None → p.leased ≡ leased → length (seen S.view tree.old).seat.out + length p.waits ≤ width → Pulls S.Pay.ends width streams (seen S.view tree.old) (seen S.view tree.new) p result }
    ensures gives { IfOk result (λ o. GivesMore (pulled leased o) (seen S.view tree.old) (seen S.view tree.new)) }
    ensures guests { KeepsGuests (seen S.view tree.old) (seen S.view tree.new) }
    ensures rows { KeepsRows (seen S.view tree.old).seat (seen S.view tree.new).seat }
    ensures events { TakesEvents 1 (seen S.view tree.old) (seen S.view tree.new) }
    ensures fits { Fits S.view S.fits tree.new desk.new }
    ensures others { OthersFit S.view S.fits Outer desk.old desk.new }
{
    if leased < streams {
        let lease = tree.lease(alloc, desk, 0, leased)?;
        Ok(Some(lease))
    } else {
        tree.close(desk, 0, Exit::Succeeded);
        Ok(None)
    }
}

/// Cancels the lease of the next stream, which is never begun.
pub fn cancel_waiting<S: RowSeat>(tree: &mut Tree<S>, desk: &mut S::Desk, lease: Lease)
where
    S::Pay: Finish,
    requires fits { Fits S.view S.fits tree.old desk.old }
    requires main { (width n : ℕ) × (p : Progress S.Pay) × (us : List (ℕ × List ℕ)) × IsMain S.Pay.ends width n (seen S.view tree.old) p × (p.waits ≡ (lessee lease, rows_covered lease) ∷ us) }
    requires free { owed (seen S.view tree.old).seat + 1 + away (rows_covered lease) (seen S.view tree.old).seat.opened ≤ (seen S.view tree.old).seat.spare }
    ensures main { (width n : ℕ) (p : Progress S.Pay) (us : List (ℕ × List ℕ)) → IsMain S.Pay.ends width n (seen S.view tree.old) p → p.waits ≡ (lessee lease, rows_covered lease) ∷ us → IsMain S.Pay.ends width n (seen S.view tree.new) (skipping p us) }
    ensures gives { GivesMore [] (seen S.view tree.old) (seen S.view tree.new) }
    ensures guests { KeepsGuests (seen S.view tree.old) (seen S.view tree.new) }
    ensures rows { KeepsRows (seen S.view tree.old).seat (seen S.view tree.new).seat }
    ensures opened { (seen S.view tree.new).seat.opened ≡ (seen S.view tree.old).seat.opened }
    ensures scopes { KeepsScopes (seen S.view tree.old) (seen S.view tree.new) }
    ensures room { TakesRoom 0 0 (seen S.view tree.old) (seen S.view tree.new) }
    ensures events { TakesEvents (1 + away (rows_covered lease) (seen S.view tree.old).seat.opened) (seen S.view tree.old) (seen S.view tree.new) }
    ensures fits { Fits S.view S.fits tree.new desk.new }
    ensures others { OthersFit S.view S.fits Outer desk.old desk.new }
{
    tree.cancel(desk, lease, Exit::Canceled);
}

/// Closes the root with the exit of the outer stream, which gives no further stream.
pub fn close_outer<S: RowSeat>(tree: &mut Tree<S>, desk: &mut S::Desk, exit: Exit)
where
    S::Pay: Finish,
    requires fits { Fits S.view S.fits tree.old desk.old }
    requires main { (width n : ℕ) × (p : Progress S.Pay) × IsMain S.Pay.ends width n (seen S.view tree.old) p × (p.root ≡ None) }
    ensures main { (width n : ℕ) (p : Progress S.Pay) → IsMain S.Pay.ends width n (seen S.view tree.old) p → p.root ≡ None → IsMain S.Pay.ends width n (seen S.view tree.new) (closing_root p exit) }
    ensures gives { GivesMore [] (seen S.view tree.old) (seen S.view tree.new) }
    ensures guests { KeepsGuests (seen S.view tree.old) (seen S.view tree.new) }
    ensures rows { KeepsRows (seen S.view tree.old).seat (seen S.view tree.new).seat }
    ensures events { TakesEvents 0 (seen S.view tree.old) (seen S.view tree.new) }
    ensures called { Called S.Pay.ends (seen S.view tree.old) [] (seen S.view tree.new) }
    ensures owed { owed (seen S.view tree.new).seat ≡ 0 }
    ensures fits { Fits S.view S.fits tree.new desk.new }
    ensures others { OthersFit S.view S.fits Outer desk.old desk.new }
{
    tree.close(desk, 0, exit);
}
