//! Whether all was ended in a legal ledger.
ghost use Rattle.std.specs.Prelude.{◌≡◌, ◌↔◌, true};
ghost use Rattle.res_ledger.specs.declared.event.Event.{Event};
ghost use Rattle.res_ledger.specs.Ledger.{IsLegal};
ghost use Rattle.res_ledger.specs.Whole.{IsComplete};
ghost use Rattle.ledger_books.specs.Kept.{Keeps};
ghost use Rattle.ledger_audit.specs.Complete.{IsAnswered};

use ledger_books::Books;
use ledger_books::books::is_final;
use ledger_books::leases::is_canceled;
use ledger_books::scopes::is_closed;
use res_ledger::{Event, What};

/// Whether what the event began was ended.
fn is_answered(books: &Books, past: &[Event], event: Event) -> bool
    requires keeps { Keeps books.now past.now }
    requires legal { IsLegal past.now }
    ensures { (result ≡ true) ↔ IsAnswered past.now event.by event.what }
{
    let by = event.by;
    match event.what {
        What::Open { scope, .. } => is_closed(&books.ends, past, by, scope),
        What::Acquire { row, .. } => {
            if !is_final(&books.index, past, row) {
                return false;
            }
            is_closed(&books.ends, past, by, 0)
        }
        What::Lease { stream, .. } => is_canceled(&books.index, past, stream),
        _ => true,
    }
}

/// Whether all was ended.
pub fn is_complete(books: &Books, events: &[Event]) -> bool
    requires keeps { Keeps books.now events.now }
    requires legal { IsLegal events.now }
    ensures { (result ≡ true) ↔ IsComplete events.now }
{
    for event in events {
        if !is_answered(books, events, *event) {
            return false;
        }
    }
    true
}
