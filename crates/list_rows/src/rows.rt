//! The next line of a list in a row.
ghost use Rattle.std.specs.Prelude.{◌≡◌, ℕ, List, [], true};
ghost use Rattle.chunk_core.specs.Feed.{Meaning};
ghost use Rattle.chunk_core.specs.Lists.{IsAmong};
ghost use Rattle.device_port.specs.declared.device.Mode.TheVariants as mode;
ghost use Rattle.join_tree.specs.Given.{GivesMore};
ghost use Rattle.join_tree.specs.Mains.{IsMain};
ghost use Rattle.join_tree.specs.Progress.{Progress};
ghost use Rattle.join_tree.specs.Steps.{KeepsGuests, TakesEvents};
ghost use Rattle.list_lines.specs.Lists.{GivesLines, IsAt};
ghost use Rattle.pull_stepper.specs.Held.{FinishesDevice};
ghost use Rattle.row_seat.specs.Views.{HasRow};
ghost use Rattle.scope_tree.specs.Calls.{KeepsScopes, TakesRoom};
ghost use Rattle.scope_tree.specs.Trees.{Fits, seen};
ghost use Rattle.list_rows.specs.Reading.{KeepsRowsBut, ReadsLine};

use chunk_core::Feed;
use device_port::Device;
use list_lines::{ListLines, Listed};
use pull_stepper::Held;
use row_seat::RowSeat;
use scope_tree::Tree;
use std::alloc::Global;

/// The next line of the list whose device is in this row, or how the list is over.
pub fn next_line<V: Device, S: RowSeat<Pay = Held<V>>, F: Feed>(
    alloc: Global,
    tree: &mut Tree<S>,
    row: u32,
    list: &mut ListLines<F>,
) -> Listed
    requires row { HasRow (seen S.view tree.old).seat.opened row }
    requires at { (m : Meaning) × (given : List (List ℕ)) × GivesLines m × ((d : V) → IsAmong (row, d) (seen S.view tree.old).seat.opened → IsAt F.stands m (V.told d) given list.old) }
    requires open { (d : V) → IsAmong (row, d) (seen S.view tree.old).seat.opened → (V.told d).is_open ≡ true }
    requires mode { (d : V) → IsAmong (row, d) (seen S.view tree.old).seat.opened → (V.told d).place.mode ≡ mode.Read }
    ensures reads { (m : Meaning) (given : List (List ℕ)) → GivesLines m → ((d : V) → IsAmong (row, d) (seen S.view tree.old).seat.opened → IsAt F.stands m (V.told d) given list.old) → ReadsLine V.told F.stands row m given (seen S.view tree.old) (seen S.view tree.new) list.new result }
    ensures main { (width n : ℕ) (q : Progress V) → IsMain (FinishesDevice V.told) width n (seen S.view tree.old) q → IsMain (FinishesDevice V.told) width n (seen S.view tree.new) q }
    ensures rows { KeepsRowsBut row (seen S.view tree.old).seat (seen S.view tree.new).seat }
    ensures guests { KeepsGuests (seen S.view tree.old) (seen S.view tree.new) }
    ensures scopes { KeepsScopes (seen S.view tree.old) (seen S.view tree.new) }
    ensures room { TakesRoom 0 0 (seen S.view tree.old) (seen S.view tree.new) }
    ensures events { TakesEvents 0 (seen S.view tree.old) (seen S.view tree.new) }
    ensures gives { GivesMore [] (seen S.view tree.old) (seen S.view tree.new) }
    ensures fits { (d : S.Desk) → Fits S.view S.fits tree.old d → Fits S.view S.fits tree.new d }
{
    list.next(alloc, tree.pay_mut(row).device_mut())
}
