//! Whether what a stream noted stands in blocks: each Close and Cancel with the Finals that follow it
//! directly.
ghost use Rattle.std.specs.Prelude.{◌≤◌, length};

use crate::facts::{covers, is_covered};
use crate::teardowns::teardown;
use chunk_core::Exit;
use res_ledger::{Event, StreamNo, What};
use std::alloc::{AllocError, Global};

/// What the stream noted.
fn own_of(alloc: Global, events: &[Event], by: StreamNo) -> Result<Vec<What>, AllocError> {
    let mut own = Vec::new(alloc);
    for event in events {
        if event.by == by {
            own.push(event.what)?;
        }
    }
    Ok(own)
}

/// The exit of a Close, a Cancel or a Final.
fn exit_of(what: What) -> Option<Exit> {
    match what {
        What::Close { exit, .. } | What::Cancel { exit, .. } | What::Final { exit, .. } => Some(
            exit,
        ),
        _ => None,
    }
}

/// Whether each Final directly follows a Close, a Cancel or a Final with its exit.
fn are_behind(own: &[What]) -> bool {
    let mut before = None;
    for what in own {
        let exit = exit_of(*what);
        if let What::Final { .. } = *what {
            if before != exit {
                return false;
            }
        }
        before = exit;
    }
    true
}

/// The rows of the Finals at the head of the list.
fn run_at(alloc: Global, own: &[What]) -> Result<Vec<u32>, AllocError> {
    let mut rows = Vec::new(alloc);
    for what in own {
        let What::Final { row, .. } = *what else {
            break;
        };
        rows.push(row)?;
    }
    Ok(rows)
}

/// The rows that the lease for the stream covers, the latest acquired first.
fn kept_rows(alloc: Global, events: &[Event], stream: u32) -> Result<Vec<u32>, AllocError> {
    let mut rows = Vec::new(alloc);
    for event in events.iter().rev() {
        if let What::Acquire { row, .. } = event.what {
            if covers(events, stream, row) {
                rows.push(row)?;
            }
        }
    }
    Ok(rows)
}

/// Whether the rows of the run stand in those that are due, in that order, and what is left out may
/// be: at a Close what a lease covers, at a Cancel any row. A run that goes on may have the rest yet.
fn is_picked(events: &[Event], run: &[u32], due: &[u32], at_close: bool, goes_on: bool) -> bool {
    let mut left = run.len();
    let mut rows = run.iter();
    let mut next = rows.next();
    for row in due {
        if next == Some(row) {
            next = rows.next();
            left = left.saturating_sub(1);
        } else if left == 0 && goes_on {
            return true;
        } else if at_close && !is_covered(events, *row) {
            return false;
        }
    }
    left == 0
}

/// Whether the Close or the Cancel at the place has the run of Finals that it should.
fn is_block(
    alloc: Global,
    events: &[Event],
    own: &[What],
    place: usize,
    may_go_on: bool,
) -> Result<bool, AllocError>
    requires { place ≤ length own.now }
{
    let (past, rest) = own.split_at(place);
    let Some((head, behind)) = rest.split_first() else {
        return Ok(true);
    };
    let run = run_at(alloc, behind)?;
    let goes_on = may_go_on && run.len() == behind.len();
    match *head {
        What::Close { scope, .. } => {
            let due = teardown(alloc, past, scope)?;
            Ok(is_picked(events, run.as_slice(), due.as_slice(), true, goes_on))
        }
        What::Cancel { stream, .. } => {
            let due = kept_rows(alloc, events, stream)?;
            Ok(is_picked(events, run.as_slice(), due.as_slice(), false, goes_on))
        }
        _ => Ok(true),
    }
}

/// Whether what the stream noted stands in blocks; where its last one may go on, it may lack Finals.
fn is_in_order(
    alloc: Global,
    events: &[Event],
    by: StreamNo,
    may_go_on: bool,
) -> Result<bool, AllocError> {
    let own = own_of(alloc, events, by)?;
    if !are_behind(own.as_slice()) {
        return Ok(false);
    }
    for place in 0..own.len() {
        if !is_block(alloc, events, own.as_slice(), place, may_go_on)? {
            return Ok(false);
        }
    }
    Ok(true)
}

/// Whether what each stream noted does.
pub(crate) fn is_ordered(
    alloc: Global,
    events: &[Event],
    may_go_on: bool,
) -> Result<bool, AllocError> {
    for event in events {
        if !is_in_order(alloc, events, event.by, may_go_on)? {
            return Ok(false);
        }
    }
    Ok(true)
}
