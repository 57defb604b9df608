//! By when the leases behind each row are canceled, told ahead.
ghost use Rattle.std.specs.Prelude.{◌≡◌, ◌↔◌, IfOk, OnOk};
ghost use Rattle.res_ledger.specs.declared.event.Event.{Event};
ghost use Rattle.ledger_books.specs.Keyed.{number_of};
ghost use Rattle.ledger_books.specs.Untils.{Raises, RaisesFor, SetsUntil, Settles, cancel_of, latest_of};

use crate::index::{Index, Key};
use crate::scopes::number;
use res_ledger::{Event, StreamNo, What};
use std::alloc::{AllocError, Global};

/// Where the lease for the stream is canceled; the greatest number where it isn't.
fn cancel(firsts: &Index, stream: u32) -> u64
    ensures { result ≡ cancel_of firsts.now stream }
{
    firsts.find(Key::Canceled(stream)).unwrap_or(u64::MAX)
}

/// By when the leases are canceled that the stream noted; 0 where it noted none.
pub fn latest_by(latest: &Index, by: StreamNo) -> u64
    ensures { result ≡ latest_of latest.now (number_of by) }
{
    latest.find(Key::Begun(number(by))).unwrap_or(0)
}

/// Keeps that the stream noted a lease that is canceled then.
pub fn raise(latest: &mut Index, by: StreamNo, until: u64) -> Result<(), AllocError>
    ensures { OnOk result (Raises latest.old latest.new (number_of by) until) }
{
    if until <= latest_by(latest, by) {
        return Ok(());
    }
    latest.add(Key::Begun(number(by)), until)
}

/// Keeps of an event what it leases.
fn add_lease(latest: &mut Index, firsts: &Index, event: Event) -> Result<(), AllocError>
    ensures { OnOk result (RaisesFor latest.old latest.new firsts.now event.by event.what) }
{
    match event.what {
        What::Lease { stream, .. } => raise(latest, event.by, cancel(firsts, stream)),
        _ => Ok(()),
    }
}

/// Keeps of an event which row it acquires.
fn add_row(rows: &mut Index, event: Event, until: u64) -> Result<(), AllocError>
    ensures { OnOk result (SetsUntil rows.old rows.new until event.what) }
{
    match event.what {
        What::Acquire { row, .. } => rows.add(Key::Acquired(row), until),
        _ => Ok(()),
    }
}

/// By when the leases are canceled that are noted behind each row by its stream.
pub fn untils_of(alloc: Global, events: &[Event], firsts: &Index) -> Result<Index, AllocError>
    ensures { IfOk result (λ x. Settles x firsts.now events.now) }
{
    let mut latest = Index::new(alloc);
    let mut rows = Index::new(alloc);
    let mut n = events.len();
    while n > 0 {
        n -= 1;
        let event = events[n];
        let until = latest_by(&latest, event.by);
        add_row(&mut rows, event, until)?;
        add_lease(&mut latest, firsts, event)?;
    }
    Ok(rows)
}
