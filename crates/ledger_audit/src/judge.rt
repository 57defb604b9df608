//! The verdict on a ledger.
ghost use Rattle.std.specs.Prelude.{◌≡◌, IfOk, List};
ghost use Rattle.res_ledger.specs.declared.event.Event.{Event};
ghost use Rattle.res_ledger.specs.Ledger.{IsLegal};
ghost use Rattle.ledger_books.specs.Keyed.{IsFirstIllegal};
ghost use Rattle.ledger_books.specs.Kept.{Keeps};
ghost use Rattle.ledger_verdict.specs.Verdict.{IsVerdict};

use crate::complete::is_complete;
use crate::order::first_disordered;
use ledger_books::{Books, first_illegal};
use ledger_verdict::{Rule, Verdict};
use res_ledger::{Event, Ledger};
use std::alloc::{AllocError, Global};

/// What is kept of all events of a legal ledger.
fn books_of(alloc: Global, events: &[Event]) -> Result<Books, AllocError>
    requires { IsLegal events.now }
    ensures { IfOk result (λ b. Keeps b events.now) }
{
    let mut books = Books::of(alloc, events)?;
    for (i, event) in events.iter().enumerate() {
        books.note(*event, i as u64)?;
    }
    Ok(books)
}

/// The verdict on a legal ledger.
fn of_legal(alloc: Global, events: &[Event]) -> Result<Verdict, AllocError>
    requires { IsLegal events.now }
    ensures { IfOk result (IsVerdict events.now) }
{
    let books = books_of(alloc, events)?;
    if let Some(place) = first_disordered(alloc, &books, events)? {
        return Ok(Verdict::Broken(place, Rule::Ordered));
    }
    if !is_complete(&books, events) {
        return Ok(Verdict::Broken(events.len() as u64, Rule::Complete));
    }
    Ok(Verdict::Clean)
}

/// The verdict on a ledger that is legal up to a place.
fn of_illegal(alloc: Global, events: &[Event], place: u64) -> Result<Verdict, AllocError>
    requires { IsFirstIllegal events.now place }
    ensures { IfOk result (IsVerdict events.now) }
{
    let front = &events[..place as usize];
    let books = books_of(alloc, front)?;
    if let Some(place) = first_disordered(alloc, &books, front)? {
        return Ok(Verdict::Broken(place, Rule::Ordered));
    }
    Ok(Verdict::Broken(place, Rule::Legal))
}

/// The verdict on a ledger: the first event that breaks a rule, and the rule; where none does,
/// whether all was ended.
pub fn audit(alloc: Global, ledger: &Ledger) -> Result<Verdict, AllocError>
    ensures { IfOk result (IsVerdict ledger.now) }
{
    let events = ledger.as_slice();
    match first_illegal(alloc, events)? {
        None => of_legal(alloc, events),
        Some(place) => of_illegal(alloc, events, place),
    }
}
