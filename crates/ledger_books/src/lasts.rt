//! By when the rows of each stream are final, told ahead.
ghost use Rattle.std.specs.Prelude.{◌≡◌, ◌∷◌, ◌++◌, [], ℕ, List, OnOk, true};
ghost use Rattle.res_ledger.specs.declared.event.Event.{Event};
ghost use Rattle.res_ledger.specs.declared.event.What.TheVariants.{Acquire};
ghost use Rattle.res_ledger.specs.Ledger.{IsFinalized, Notes};
ghost use Rattle.ledger_books.specs.Ends.{Foretells, final_of};
ghost use Rattle.ledger_books.specs.Lasts.{HasLasts};
ghost use Rattle.ledger_books.specs.Keyed.{number_of};
ghost use Rattle.ledger_books.specs.Untils.{latest_of};

use crate::ends::Ends;
use crate::index::Index;
use crate::untils::{latest_by, raise};
use res_ledger::{Event, StreamNo, What};
use std::alloc::AllocError;

/// Keeps of an event by when a row that it acquires is final.
pub fn add_last(lasts: &mut Index, ends: &Ends, event: Event) -> Result<(), AllocError>
    ensures { OnOk result ((P : List Event) → HasLasts lasts.old ends.now P → HasLasts lasts.new ends.now (P ++ event ∷ [])) }
{
    match event.what {
        What::Acquire { row, .. } => raise(lasts, event.by, ends.last(row)),
        _ => Ok(()),
    }
}

/// Whether the rows of the stream are final by now, as was told ahead.
pub fn are_over(lasts: &Index, ends: &Ends, past: &[Event], by: StreamNo) -> bool
    requires ends { Foretells ends.now past.now }
    requires lasts { HasLasts lasts.now ends.now past.now }
    ensures { result ≡ true → (r s : ℕ) → Notes past.now by (Acquire r s) → IsFinalized past.now r }
{
    let latest = latest_by(lasts, by);
    if latest < past.len() as u64 {
        return true;
    }
    false
}
