//! A slow judge of ledgers: the definitions of the rules, front by front.
use crate::blocks::is_ordered;
use crate::facts::{
    cancels_of, covers, finals_of, home_of, is_closed, is_released, is_row_closed, is_usable,
    lease_of, parent_of,
};
use ledger_verdict::{Rule, Verdict};
use res_ledger::{Event, StreamNo, What};
use std::alloc::{AllocError, Global};

/// Whether the stream is that of the lease, and each row that it acquired is final.
fn is_finished(past: &[Event], by: StreamNo, stream: u32) -> bool {
    if by != StreamNo::Inner(stream) {
        return false;
    }
    for event in past {
        if event.by == by {
            if let What::Acquire { row, .. } = event.what {
                if finals_of(past, row) == 0 {
                    return false;
                }
            }
        }
    }
    true
}

/// Whether the stream noted the lease, and the one that it is for noted nothing.
fn is_unstarted(past: &[Event], by: StreamNo, stream: u32) -> bool {
    for event in past {
        if event.by == StreamNo::Inner(stream) {
            return false;
        }
    }
    match lease_of(past, stream) {
        Some((_, leaser, _)) => leaser == by,
        None => false,
    }
}

/// Whether the stream canceled a lease that covers the row.
fn is_inherited(past: &[Event], by: StreamNo, row: u32) -> bool {
    for event in past {
        if event.by == by {
            if let What::Cancel { stream, .. } = event.what {
                if covers(past, stream, row) {
                    return true;
                }
            }
        }
    }
    false
}

/// Whether the row is closed, free of leases and not final.
fn is_handed(past: &[Event], row: u32) -> bool {
    is_row_closed(past, row) && is_released(past, past, row) && finals_of(past, row) == 0
}

fn has_acquired(past: &[Event], by: StreamNo, row: u32) -> bool {
    match home_of(past, row) {
        Some((owner, _)) => owner == by,
        None => false,
    }
}

/// Whether the event meets its condition on those in front of it.
fn may_follow(past: &[Event], event: Event) -> bool {
    let by = event.by;
    match event.what {
        What::Open { scope, parent } => {
            scope != 0 && parent_of(past, by, scope).is_none() && is_usable(past, by, parent)
        }
        What::Acquire { row, scope } => {
            home_of(past, row).is_none() && is_usable(past, by, scope)
        }
        What::Lease { stream, scope } => {
            lease_of(past, stream).is_none()
                && by != StreamNo::Inner(stream)
                && is_usable(past, by, scope)
        }
        What::Cancel { stream, .. } => {
            lease_of(past, stream).is_some()
                && cancels_of(past, stream) == 0
                && (is_finished(past, by, stream) || is_unstarted(past, by, stream))
        }
        What::Close { scope, .. } => is_usable(past, by, scope),
        What::Final { row, .. } => {
            is_handed(past, row) && (has_acquired(past, by, row) || is_inherited(past, by, row))
        }
    }
}

/// Whether what has to stand in the ledger for the event does, and in front of it.
fn is_answered(events: &[Event], past: &[Event], event: Event) -> bool {
    match event.what {
        What::Open { scope, .. } => is_closed(events, event.by, scope),
        What::Acquire { row, .. } => {
            finals_of(events, row) == 1 && is_closed(events, event.by, 0)
        }
        What::Lease { stream, .. } => cancels_of(events, stream) == 1,
        What::Final { row, .. } => is_row_closed(past, row) && is_released(events, past, row),
        _ => true,
    }
}

fn is_complete(events: &[Event]) -> bool {
    for (i, event) in events.iter().enumerate() {
        if !is_answered(events, &events[..i], *event) {
            return false;
        }
    }
    true
}

/// The first event that breaks a rule, and the rule; where none does, whether all was ended.
pub(crate) fn judged(alloc: Global, events: &[Event]) -> Result<Verdict, AllocError> {
    for (i, event) in events.iter().enumerate() {
        if !may_follow(&events[..i], *event) {
            return Ok(Verdict::Broken(i as u64, Rule::Legal));
        }
        if !is_ordered(alloc, &events[..i + 1], true)? {
            return Ok(Verdict::Broken(i as u64, Rule::Ordered));
        }
    }
    if !is_complete(events) {
        return Ok(Verdict::Broken(events.len() as u64, Rule::Complete));
    }
    Ok(Verdict::Clean)
}
