//! Which rows a lease covers.
use crate::places::{acquired, canceler_of, close_of, is_around, leased, parent_of};
use printed_parts::{Event, What, Who};

/// Whether the lease for a stream covers a row: one of the scope, of those around it or of its children, acquired and not closed when it
/// was leased.
pub(crate) fn covers(front: &[Event], stream: usize, row: usize) -> bool {
    let (Some(lease), Some(begun)) = (leased(front, stream), acquired(front, row)) else {
        return false;
    };
    let (k, home) = (begun.by, begun.scope);
    if k != lease.by || begun.place > lease.place {
        return false;
    }
    if close_of(front, k, home).is_some_and(|closed| closed < lease.place) {
        return false;
    }
    is_around(front, k, home, lease.scope)
        || home != 0 && parent_of(front, k, home) == Some(lease.scope)
}

/// What there is of leases that cover a row: any, one that isn't cancelled, and one that this one cancelled.
#[derive(Clone, Copy)]
pub(crate) struct Leases {
    pub(crate) any: bool,
    pub(crate) held: bool,
    pub(crate) handed: bool,
}

pub(crate) fn leases_of(front: &[Event], row: usize, k: Who) -> Leases {
    let mut leases = Leases {
        any: false,
        held: false,
        handed: false,
    };
    for event in front {
        if let What::Lease(stream, _) = event.what {
            if covers(front, stream, row) {
                let canceler = canceler_of(front, stream);
                leases.any = true;
                leases.held |= canceler.is_none();
                leases.handed |= canceler == Some(k);
            }
        }
    }
    leases
}
