//! The ends that are told.
ghost use Rattle.std.specs.Prelude.{◌≡◌, ◌≤◌, ℕ, Some, [], length, vec_capacity};
ghost use Rattle.chunk_core.specs.Totals.{IsAt};
ghost use Rattle.chunk_core.specs.declared.code.How.{How as AHow};
ghost use Rattle.tee_prints.specs.Printed.{AreAllTold};

use chunk_core::How;

/// The ends of all branches, in this room.
pub(crate) fn tell_all(told: &Vec<Option<How>>, room: Vec<How>) -> Vec<How>
    requires told { AreAllTold told.now.items }
    requires empty { room.items ≡ [] }
    requires capacity { length told.now.items ≤ vec_capacity room }
    ensures count { length result.items ≡ length told.now.items }
    ensures each { (i : ℕ) (h : AHow) → IsAt result.items i h → IsAt told.now.items i (Some h) }
{
    let mut ends = room;
    for i in 0..told.len() {
        match told[i] {
            Some(how) => ends.push_reserved(how),
            None => unreachable!(),
        }
    }
    ends
}
