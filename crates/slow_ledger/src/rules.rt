//! Whether an event may stand behind others, and the verdict on a ledger.
use crate::covers::leases_of;
use crate::places::{
    acquired, canceler_of, close_of, has_begun, is_final, is_open, leased, parent_of,
};
use crate::teardown::{Due, due_of};
use printed_parts::{Event, What, Who};
use std::alloc::{AllocError, Global};

/// Whether a Final of the row may stand next.
fn may_finish(front: &[Event], k: Who, row: usize) -> bool {
    let Some(begun) = acquired(front, row) else {
        return false;
    };
    let leases = leases_of(front, row, k);
    close_of(front, begun.by, begun.scope).is_some()
        && !is_final(front, row)
        && !leases.held
        && (begun.by == k || leases.handed)
}

/// Whether each row that the stream acquired is final.
fn are_final(front: &[Event], k: Who) -> bool {
    front.iter().all(|event| match event.what {
        What::Acquire(row, _) => event.by != k || is_final(front, row),
        _ => true,
    })
}

fn may_cancel(front: &[Event], k: Who, stream: usize) -> bool {
    let Some(lease) = leased(front, stream) else {
        return false;
    };
    if canceler_of(front, stream).is_some() {
        return false;
    }
    if k == Some(stream) {
        return are_final(front, k);
    }
    k == lease.by && !has_begun(front, Some(stream))
}

/// Whether the event is lawful behind the front.
pub fn is_lawful(front: &[Event], event: &Event) -> bool {
    let k = event.by;
    match event.what {
        What::OpenScope(scope, parent) => {
            scope != 0 && parent_of(front, k, scope).is_none() && is_open(front, k, parent)
        }
        What::Acquire(row, scope) => acquired(front, row).is_none() && is_open(front, k, scope),
        What::Lease(stream, scope) => {
            leased(front, stream).is_none() && k != Some(stream) && is_open(front, k, scope)
        }
        What::Close(scope, _) => is_open(front, k, scope),
        What::Final(row, _, _) => may_finish(front, k, row),
        What::Cancel(stream, _) => may_cancel(front, k, stream),
    }
}

/// Whether the event may stand next among those of its stream: of the rows that its last Close or Cancel is to be followed by the next one
/// that may not be left out, with the exit; or another event where none is left that has to come.
pub fn keeps_order(alloc: Global, front: &[Event], event: &Event) -> Result<bool, AllocError> {
    let due = due_of(alloc, front, event.by)?;
    Ok(fits_due(&due, event))
}

fn fits_due(due: &Due, event: &Event) -> bool {
    let What::Final(row, exit, _) = event.what else {
        return due.rows.iter().all(|(_, may_lack)| *may_lack);
    };
    for (other, may_lack) in &due.rows {
        if *other == row {
            return exit == due.exit;
        }
        if !may_lack {
            return false;
        }
    }
    false
}

/// Whether what the event begins was ended.
fn is_ended(events: &[Event], event: &Event) -> bool {
    match event.what {
        What::Acquire(row, _) => is_final(events, row) && !is_open(events, event.by, 0),
        What::Lease(stream, _) => canceler_of(events, stream).is_some(),
        What::OpenScope(scope, _) => !is_open(events, event.by, scope),
        _ => true,
    }
}

/// What an audit says of the events.
#[derive(Clone, Copy, PartialEq, Eq)]
pub enum Verdict {
    Good,
    Unlawful(usize),
    Unordered(usize),
    Incomplete,
}

/// The verdict on a ledger.
pub fn verdict_of(alloc: Global, events: &[Event]) -> Result<Verdict, AllocError> {
    for (place, event) in events.iter().enumerate() {
        let front = &events[..place];
        if !is_lawful(front, event) {
            return Ok(Verdict::Unlawful(place));
        }
        if !keeps_order(alloc, front, event)? {
            return Ok(Verdict::Unordered(place));
        }
    }
    let is_complete = events.iter().all(|event| is_ended(events, event));
    Ok(if is_complete {
        Verdict::Good
    } else {
        Verdict::Incomplete
    })
}
