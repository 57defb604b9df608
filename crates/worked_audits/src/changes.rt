//! Ledgers with one event changed.
ghost use Rattle.std.specs.Prelude.{◌≤◌, length};

use chunk_core::Exit;
use res_ledger::{Event, Ledger, StreamNo, What};
use std::alloc::{AllocError, Global};

/// What a stream did.
pub(crate) type Step = (StreamNo, What);

/// The steps of a list of events.
pub(crate) fn steps_of(alloc: Global, events: &[Event]) -> Result<Vec<Step>, AllocError> {
    let mut steps = Vec::new(alloc);
    for event in events {
        steps.push((event.by, event.what))?;
    }
    Ok(steps)
}

/// The ledger of these steps.
pub(crate) fn ledger_of(alloc: Global, steps: &[Step]) -> Result<Ledger, AllocError> {
    let mut events = Vec::new(alloc);
    for (by, what) in steps {
        let stamp = events.len() as u64;
        events.push(Event {
            stamp,
            by: *by,
            what: *what,
        })?;
    }
    Ok(Ledger::of_events(events))
}

/// The steps, with others in place of the one at the place.
pub(crate) fn with_others(
    alloc: Global,
    steps: &[Step],
    place: usize,
    others: &[Step],
) -> Result<Vec<Step>, AllocError> {
    let mut changed = Vec::new(alloc);
    for (i, step) in steps.iter().enumerate() {
        if i == place {
            changed.extend_from_slice(others)?;
        } else {
            changed.push(*step)?;
        }
    }
    Ok(changed)
}

/// The steps, with one more at the place.
pub(crate) fn with_one_at(
    alloc: Global,
    steps: &[Step],
    place: usize,
    more: Step,
) -> Result<Vec<Step>, AllocError>
    requires { place ≤ length steps.now }
{
    let (front, behind) = steps.split_at(place);
    let mut changed = Vec::from_slice(alloc, front)?;
    changed.push(more)?;
    changed.extend_from_slice(behind)?;
    Ok(changed)
}

/// The first number of what was done.
fn first_of(what: What) -> u32 {
    match what {
        What::Open { scope, .. } | What::Close { scope, .. } => scope,
        What::Acquire { row, .. } | What::Final { row, .. } => row,
        What::Lease { stream, .. } | What::Cancel { stream, .. } => stream,
    }
}

/// The same with another first number.
fn with_first(what: What, number: u32) -> What {
    match what {
        What::Open { parent, .. } => What::Open {
            scope: number,
            parent,
        },
        What::Acquire { scope, .. } => What::Acquire { row: number, scope },
        What::Lease { scope, .. } => What::Lease {
            stream: number,
            scope,
        },
        What::Cancel { exit, .. } => What::Cancel {
            stream: number,
            exit,
        },
        What::Close { exit, .. } => What::Close {
            scope: number,
            exit,
        },
        What::Final { exit, ok, .. } => What::Final {
            row: number,
            exit,
            ok,
        },
    }
}

/// The same with another second number, where it has one.
fn with_second(what: What, number: u32) -> What {
    match what {
        What::Open { scope, .. } => What::Open {
            scope,
            parent: number,
        },
        What::Acquire { row, .. } => What::Acquire { row, scope: number },
        What::Lease { stream, .. } => What::Lease {
            stream,
            scope: number,
        },
        _ => what,
    }
}

/// The same with another exit, where it has one.
fn with_exit(what: What, exit: Exit) -> What {
    match what {
        What::Cancel { stream, .. } => What::Cancel { stream, exit },
        What::Close { scope, .. } => What::Close { scope, exit },
        What::Final { row, ok, .. } => What::Final { row, exit, ok },
        _ => what,
    }
}

/// The steps that differ from this in one number, in the stream or in the exit; the step itself, where
/// it lacks what would be changed.
pub(crate) fn near(step: Step) -> [Step; 12] {
    let (by, what) = step;
    let first = first_of(what);
    [
        (by, with_first(what, first.saturating_add(1))),
        (by, with_first(what, first.saturating_sub(1))),
        (by, with_second(what, 0)),
        (by, with_second(what, 1)),
        (by, with_second(what, 2)),
        (by, with_exit(what, Exit::Succeeded)),
        (by, with_exit(what, Exit::Errored)),
        (by, with_exit(what, Exit::Canceled)),
        (StreamNo::Outer, what),
        (StreamNo::Inner(0), what),
        (StreamNo::Inner(1), what),
        (StreamNo::Inner(2), what),
    ]
}
