//! What a list of events says of scopes, rows and leases, each found by going through the list.
use res_ledger::{Event, StreamNo, What};

/// The scope under which the stream opened another.
pub(crate) fn parent_of(events: &[Event], by: StreamNo, scope: u32) -> Option<u32> {
    for event in events {
        if event.by == by {
            if let What::Open {
                scope: opened,
                parent,
            } = event.what
            {
                if opened == scope {
                    return Some(parent);
                }
            }
        }
    }
    None
}

/// Whether the scope is the other or lies below it. A way up is no longer than the list.
fn lies_within(events: &[Event], by: StreamNo, scope: u32, above: u32) -> bool {
    let mut here = scope;
    for _ in events {
        if here == above {
            return true;
        }
        let Some(parent) = parent_of(events, by, here) else {
            return false;
        };
        here = parent;
    }
    here == above
}

/// Whether the stream closed the scope or one above it.
pub(crate) fn is_closed(events: &[Event], by: StreamNo, scope: u32) -> bool {
    for event in events {
        if event.by == by {
            if let What::Close { scope: closed, .. } = event.what {
                if lies_within(events, by, scope, closed) {
                    return true;
                }
            }
        }
    }
    false
}

/// Whether the scope is the stream's root or was opened, and isn't closed.
pub(crate) fn is_usable(events: &[Event], by: StreamNo, scope: u32) -> bool {
    if scope != 0 && parent_of(events, by, scope).is_none() {
        return false;
    }
    !is_closed(events, by, scope)
}

/// The stream that acquired the row, and the scope in which it did.
pub(crate) fn home_of(events: &[Event], row: u32) -> Option<(StreamNo, u32)> {
    for event in events {
        if let What::Acquire {
            row: acquired,
            scope,
        } = event.what
        {
            if acquired == row {
                return Some((event.by, scope));
            }
        }
    }
    None
}

/// Whether the scope in which the row was acquired is closed.
pub(crate) fn is_row_closed(events: &[Event], row: u32) -> bool {
    match home_of(events, row) {
        Some((by, scope)) => is_closed(events, by, scope),
        None => false,
    }
}

/// How many Finals the row has.
pub(crate) fn finals_of(events: &[Event], row: u32) -> u64 {
    let mut count = 0u64;
    for event in events {
        if let What::Final { row: ended, .. } = event.what {
            if ended == row {
                count = count.saturating_add(1);
            }
        }
    }
    count
}

/// How many Cancels the lease for the stream has.
pub(crate) fn cancels_of(events: &[Event], stream: u32) -> u64 {
    let mut count = 0u64;
    for event in events {
        if let What::Cancel {
            stream: canceled,
            ..
        } = event.what
        {
            if canceled == stream {
                count = count.saturating_add(1);
            }
        }
    }
    count
}

/// The events in front of the lease for the stream, who noted it, and the scope that it is on.
pub(crate) fn lease_of(events: &[Event], stream: u32) -> Option<(&[Event], StreamNo, u32)> {
    for (i, event) in events.iter().enumerate() {
        if let What::Lease {
            stream: leased,
            scope,
        } = event.what
        {
            if leased == stream {
                return Some((&events[..i], event.by, scope));
            }
        }
    }
    None
}

/// Whether the lease for the stream covers the row: who noted it had acquired the row in its scope,
/// in a child of that or in one above it, and the row's scope wasn't closed.
pub(crate) fn covers(events: &[Event], stream: u32, row: u32) -> bool {
    let Some((past, by, leased)) = lease_of(events, stream) else {
        return false;
    };
    let Some((owner, scope)) = home_of(past, row) else {
        return false;
    };
    if owner != by || is_closed(past, by, scope) {
        return false;
    }
    parent_of(past, by, scope) == Some(leased) || lies_within(past, by, leased, scope)
}

/// Whether some lease covers the row.
pub(crate) fn is_covered(events: &[Event], row: u32) -> bool {
    for event in events {
        if let What::Lease { stream, .. } = event.what {
            if covers(events, stream, row) {
                return true;
            }
        }
    }
    false
}

/// Whether each lease that covers the row in the ledger has its Cancel in a front of that.
pub(crate) fn is_released(ledger: &[Event], front: &[Event], row: u32) -> bool {
    for event in ledger {
        if let What::Lease { stream, .. } = event.what {
            if covers(ledger, stream, row) && cancels_of(front, stream) == 0 {
                return false;
            }
        }
    }
    true
}
