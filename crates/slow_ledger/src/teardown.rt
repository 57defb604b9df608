//! Which Finals are to follow a Close or a Cancel.
use crate::covers::{covers, leases_of};
use crate::places::{close_of, is_around};
use printed_parts::{Event, What, Who};
use std::alloc::{AllocError, Global};

/// A row, and whether its Final may be left out.
type Row = (usize, bool);

/// The rows of which Finals are still to come, in order, and their exit.
#[derive(Drop)]
pub struct Due {
    pub rows: Vec<Row>,
    pub exit: &'static str,
}

/// The scopes of a stream, each before those within it, and of two that one scope has within it the one that was opened first.
fn scopes_of(alloc: Global, front: &[Event], k: Who) -> Result<Vec<usize>, AllocError> {
    let mut scopes = vec![in alloc; 0]?;
    for event in front {
        if let (true, What::OpenScope(scope, parent)) = (event.by == k, event.what) {
            let last = scopes
                .iter()
                .rposition(|other| is_around(front, k, parent, *other));
            let end = last.map_or(0, |place| place.saturating_add(1));
            scopes.insert(end.min(scopes.len()), scope)?;
        }
    }
    Ok(scopes)
}

/// Appends the rows that the stream acquired in this scope, the latest first.
fn add_rows(front: &[Event], k: Who, scope: usize, rows: &mut Vec<Row>) -> Result<(), AllocError> {
    for event in front.iter().rev() {
        if event.by != k {
            continue;
        }
        if let What::Acquire(row, home) = event.what {
            if home == scope {
                rows.push((row, leases_of(front, row, k).any))?;
            }
        }
    }
    Ok(())
}

/// The rows that a Close of the scope takes down, in order.
fn rows_of_close(
    alloc: Global,
    front: &[Event],
    k: Who,
    outer: usize,
) -> Result<Vec<Row>, AllocError> {
    let mut rows = Vec::new(alloc);
    for scope in scopes_of(alloc, front, k)?.iter().rev() {
        if is_around(front, k, outer, *scope) && close_of(front, k, *scope).is_none() {
            add_rows(front, k, *scope, &mut rows)?;
        }
    }
    Ok(rows)
}

/// The rows of a lease, the latest acquired first.
fn rows_of_cancel(alloc: Global, front: &[Event], stream: usize) -> Result<Vec<Row>, AllocError> {
    let mut rows = Vec::new(alloc);
    for event in front.iter().rev() {
        if let What::Acquire(row, _) = event.what {
            if covers(front, stream, row) {
                rows.push((row, true))?;
            }
        }
    }
    Ok(rows)
}

/// How many of the rows are behind by the last Final of the stream among these events.
fn count_past(behind: &[Event], k: Who, rows: &[Row]) -> usize {
    let mut past = 0;
    for event in behind {
        if let (true, What::Final(row, _, _)) = (event.by == k, event.what) {
            let place = rows.iter().position(|(other, _)| *other == row);
            past = past.max(place.map_or(0, |place| place.saturating_add(1)));
        }
    }
    past
}

/// What stands before the last event of a stream that is no Final, and from it on.
fn split_last(front: &[Event], k: Who) -> Option<(&[Event], &[Event])> {
    let is_last = |event: &Event| event.by == k && !matches!(event.what, What::Final(..));
    let place = front.iter().rposition(|event| is_last(event))?;
    Some((front.get(..place)?, front.get(place..)?))
}

/// What is to follow now among the events of a stream.
pub fn due_of(alloc: Global, front: &[Event], k: Who) -> Result<Due, AllocError> {
    let (before, behind) = split_last(front, k).unwrap_or((front, &[]));
    let (rows, exit) = match behind.first().map(|event| event.what) {
        Some(What::Close(scope, exit)) => (rows_of_close(alloc, before, k, scope)?, exit),
        Some(What::Cancel(stream, exit)) => (rows_of_cancel(alloc, before, stream)?, exit),
        _ => (Vec::new(alloc), ""),
    };
    let past = count_past(behind, k, &rows);
    let rows = Vec::from_slice(alloc, rows.get(past..).unwrap_or(&[]))?;
    Ok(Due { rows, exit })
}
