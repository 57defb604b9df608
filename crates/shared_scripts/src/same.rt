//! A tree over a shared seat, for the scripts of `tree_scripts`.
ghost use Rattle.std.specs.Prelude.{IfOk};
ghost use Rattle.row_shared.specs.Seats.{SharedFits, shown};
ghost use Rattle.scope_tree.specs.Trees.{Fits, seen};
ghost use Rattle.tree_scripts.specs.Scripts.{IsThreeOfSome};

use res_ledger::StreamNo;
use row_shared::{SharedSeat, TableRef};
use scope_tree::{Room, Tree};
use std::alloc::{AllocError, Global};
use tree_scripts::scripts::{Coin, three_rows};

/// Three rows of a shared seat, where the row in the middle has this outcome and the others succeed.
pub fn three_shared_coins(
    alloc: Global,
    middle: bool,
) -> Result<(Tree<SharedSeat<Coin>>, TableRef<Coin>), AllocError>
    ensures three { IfOk result (λ t. IsThreeOfSome (seen shown t.0)) }
    ensures fits { IfOk result (λ t. Fits shown SharedFits t.0 t.1) }
{
    let (seat, mut desk) = SharedSeat::new(alloc, StreamNo::Outer, 3, 1, 16)?;
    let room = Room::new(alloc, 4, 3)?;
    let good = Coin { good: true };
    let tree = three_rows(seat, room, &mut desk, good, Coin { good: middle }, good);
    Ok((tree, desk))
}
