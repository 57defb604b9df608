//! One row at a time below the root, each in a scope of its own.
ghost use Rattle.std.specs.Prelude.{◌≡◌, ◌≢◌, ℕ, List, ◌+◌, ◌<◌, ◌≤◌, length, [], true, Some, None, IfSome, option_map};
ghost use Rattle.std.specs.Borrow.{sem};
ghost use Rattle.chunk_core.specs.Lists.{IsAmong};
ghost use Rattle.res_ledger.specs.Own.{opens, rows};
ghost use Rattle.row_seat.specs.Views.{CanFinish, HasRow, OthersFit};
ghost use Rattle.tree_laws.specs.Alone.{StaysAlone};
ghost use Rattle.tree_laws.specs.Called.{Called};
ghost use Rattle.scope_tree.specs.Calls.{ClosesScope, Seen, IsClosedScope, IsOpenScope, TakesRoom, used};
ghost use Rattle.scope_tree.specs.Rights.{HasNoLeaseBut};
ghost use Rattle.scope_tree.specs.Trace.{owed, trace};
ghost use Rattle.scope_tree.specs.Trees.{Fits, seen};
ghost use Rattle.hot_swap.specs.Lending.{lends_pay};
ghost use Rattle.hot_swap.specs.Swaps.{EndsAll, FitsSwap, IsHolding, IsUnleased, TakesPlace, held, seen_tree};

use chunk_core::{Exit, List};
use row_seat::RowSeat;
use scope_tree::{Finish, Spent, Tree};

/// The row that is held, and its scope.
#[derive(Clone, Copy, Debug, PartialEq, Eq)]
pub struct Held {
    pub row: u32,
    pub scope: u32,
}

/// A tree whose root has one open child at most, which has the row that is current.
pub struct Hotswap<S: RowSeat> {
    tree: Tree<S>,
    held: Option<Held>,
}

impl<S: RowSeat> Hotswap<S>
where
    S::Pay: Finish,
{
    /// Nothing is held.
    pub fn new(tree: Tree<S>) -> Hotswap<S>
        ensures seen { seen_tree S.view result ≡ seen S.view tree }
        ensures none { held result ≡ None }
        ensures holding { opens (trace (seen S.view tree).seat) ≡ [] → IsOpenScope (seen S.view tree) 0 → ((r c : ℕ) → IsAmong (r, c) (rows (trace (seen S.view tree).seat)) → c ≡ 0) → IsHolding (seen_tree S.view result) None }
        ensures fits { (d : S.Desk) → Fits S.view S.fits tree d → FitsSwap S.view S.fits result d }
    {
        Hotswap { tree, held: None }
    }

    /// The row that is held.
    pub fn current(&self) -> Option<u32>
        ensures { result ≡ option_map (λ h. h.row) (held self.now) }
    {
        self.held.map(|held| held.row)
    }

    /// The payload of an open row.
    pub fn pay_mut(&mut self, row: u32) -> &mut S::Pay
        requires row { HasRow (seen_tree S.view self.old).seat.opened row }
        ensures* back { sem 𝓛 (lends_pay S.row S.Pay.row S.Desk.row S.with_pay self.entry row result) }
        ensures value { IsAmong (row, result.now) (seen_tree S.view self.old).seat.opened }
    {
        self.tree.pay_mut(row)
    }

    /// The row takes the place of the one that is held, which is ended as succeeded.
    pub fn swap(&mut self, desk: &mut S::Desk, row: u32, pay: S::Pay)
        requires fits { FitsSwap S.view S.fits self.old desk.old }
        requires holding { IsHolding (seen_tree S.view self.old) (held self.old) }
        requires scopes { length (opens (trace (seen_tree S.view self.old).seat)) + 1 < (seen_tree S.view self.old).scopes }
        requires row { IsAmong row (seen_tree S.view self.old).seat.empty }
        requires rows { used (seen_tree S.view self.old) + 1 ≤ (seen_tree S.view self.old).rows }
        requires free { owed (seen_tree S.view self.old).seat + 4 ≤ (seen_tree S.view self.old).seat.spare }
        ensures current { option_map (λ h. h.row) (held self.new) ≡ Some row }
        ensures swaps { IsUnleased (seen_tree S.view self.old).seat → IfSome (held self.new) (TakesPlace S.Pay.ends (seen_tree S.view self.old) (held self.old) row pay (seen_tree S.view self.new)) }
        ensures holding { IsHolding (seen_tree S.view self.new) (held self.new) }
        ensures empty { (r : ℕ) → r ≢ row → IsAmong r (seen_tree S.view self.old).seat.empty → IsAmong r (seen_tree S.view self.new).seat.empty }
        ensures alone { StaysAlone (seen_tree S.view self.old).seat (seen_tree S.view self.new).seat }
        ensures free { (seen_tree S.view self.old).seat.spare + owed (seen_tree S.view self.new).seat ≤ (seen_tree S.view self.new).seat.spare + owed (seen_tree S.view self.old).seat + 4 }
        ensures calls { (a : Seen S.Pay) (Cs : List (ℕ × List ℕ)) → Called S.Pay.ends a Cs (seen_tree S.view self.old) → Called S.Pay.ends a Cs (seen_tree S.view self.new) }
        ensures room { TakesRoom 1 1 (seen_tree S.view self.old) (seen_tree S.view self.new) }
        ensures fits { FitsSwap S.view S.fits self.new desk.new }
        ensures others { OthersFit S.view S.fits (seen_tree S.view self.old).seat.by desk.old desk.new }
    {
        let scope = self.tree.open(desk, 0);
        self.tree.acquired(desk, scope, row, pay);
        if let Some(held) = self.held {
            self.tree.close(desk, held.scope, Exit::Succeeded);
        }
        self.held = Some(Held { row, scope });
    }

    /// Closes the root, and with it what is held.
    pub fn end(mut self, desk: &mut S::Desk, exit: Exit) -> (S, List<Spent<S::Pay>>)
        requires fits { FitsSwap S.view S.fits self desk.old }
        requires holding { IsHolding (seen_tree S.view self) (held self) }
        ensures ends { IsUnleased (seen_tree S.view self).seat → EndsAll S.Pay.ends (seen_tree S.view self) (held self) exit (record (seen_tree S.view self) { seat = S.view result.0; shelf = result.1 }) }
        ensures closes { ClosesScope S.Pay.ends (seen_tree S.view self) 0 exit (record (seen_tree S.view self) { seat = S.view result.0; shelf = result.1 }) }
        ensures root { IsClosedScope (record (seen_tree S.view self) { seat = S.view result.0; shelf = result.1 }) 0 }
        ensures none_left { (S.view result.0).opened ≡ [] }
        ensures fits { S.fits result.0 desk.new }
        ensures others { OthersFit S.view S.fits (seen_tree S.view self).seat.by desk.old desk.new }
        ensures finish { (seen_tree S.view self).seat.main ≡ true → (seen_tree S.view self).seat.out ≡ [] → HasNoLeaseBut (seen_tree S.view self).seat [] → CanFinish (S.view result.0) }
    {
        self.tree.close(desk, 0, exit);
        let Hotswap { tree, held: _ } = self;
        tree.end()
    }
}
