//! Where scopes, rows and leases begin and end. `front` is what stands before an event, and `k` who notes something.
use printed_parts::{Event, What, Who};

/// The scope around this one.
pub(crate) fn parent_of(front: &[Event], k: Who, scope: usize) -> Option<usize> {
    front.iter().find_map(|event| match event.what {
        What::OpenScope(child, parent) if event.by == k && child == scope => Some(parent),
        _ => None,
    })
}

/// Whether the first scope is the second or around it.
pub(crate) fn is_around(front: &[Event], k: Who, outer: usize, scope: usize) -> bool {
    let mut at = scope;
    for _ in front {
        if at == outer || at == 0 {
            break;
        }
        match parent_of(front, k, at) {
            Some(parent) => at = parent,
            None => return false,
        }
    }
    at == outer
}

/// Where the scope was closed, or one around it.
pub(crate) fn close_of(front: &[Event], k: Who, scope: usize) -> Option<usize> {
    front.iter().position(|event| match event.what {
        What::Close(closed, _) => event.by == k && is_around(front, k, closed, scope),
        _ => false,
    })
}

pub(crate) fn is_open(front: &[Event], k: Who, scope: usize) -> bool {
    let is_there = scope == 0 || parent_of(front, k, scope).is_some();
    is_there && close_of(front, k, scope).is_none()
}

/// Where a row was acquired or a lease made, by whom and in which scope.
#[derive(Clone, Copy)]
pub(crate) struct Begun {
    pub(crate) place: usize,
    pub(crate) by: Who,
    pub(crate) scope: usize,
}

pub(crate) fn acquired(front: &[Event], row: usize) -> Option<Begun> {
    let mut events = front.iter().enumerate();
    events.find_map(|(place, event)| match event.what {
        What::Acquire(other, scope) if other == row => Some(Begun {
            place,
            by: event.by,
            scope,
        }),
        _ => None,
    })
}

pub(crate) fn leased(front: &[Event], stream: usize) -> Option<Begun> {
    let mut events = front.iter().enumerate();
    events.find_map(|(place, event)| match event.what {
        What::Lease(other, scope) if other == stream => Some(Begun {
            place,
            by: event.by,
            scope,
        }),
        _ => None,
    })
}

/// Who cancelled a lease.
pub(crate) fn canceler_of(front: &[Event], stream: usize) -> Option<Who> {
    front.iter().find_map(|event| match event.what {
        What::Cancel(other, _) if other == stream => Some(event.by),
        _ => None,
    })
}

pub(crate) fn is_final(front: &[Event], row: usize) -> bool {
    front.iter().any(|event| matches!(event.what, What::Final(other, _, _) if other == row))
}

/// Whether somebody noted something.
pub(crate) fn has_begun(front: &[Event], k: Who) -> bool {
    front.iter().any(|event| event.by == k)
}
