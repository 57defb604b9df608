//! Where a lease likely stands that covers the rows of a scope.
use crate::index::{Index, Key};
use crate::scopes::number;
use res_ledger::{Event, StreamNo, What};
use std::alloc::{AllocError, Global};

/// Of each scope the lease that was noted last on it or below it, and the one that was noted last on
/// its parent in front of its own Close. They are guesses: no contract says what they are, and who
/// takes one asks whether it covers the row.
#[derive(Drop)]
pub struct Lenders {
    within: Index,
    lasts: Index,
    beside: Index,
}

/// Keeps the place, unless a later one is kept.
fn raise_place(places: &mut Index, key: Key, place: u64) -> Result<(), AllocError> {
    if let Some(other) = places.find(key)
        && place <= other
    {
        return Ok(());
    }
    places.add(key, place)
}

/// Keeps of an event, those behind it being known, which lease stands last on a scope or below it.
fn add_within(within: &mut Index, event: Event, place: u64) -> Result<(), AllocError> {
    let stream = number(event.by);
    match event.what {
        What::Lease { scope, .. } => raise_place(within, Key::Opened(stream, scope), place),
        What::Open { scope, parent } => match within.find(Key::Opened(stream, scope)) {
            Some(last) => raise_place(within, Key::Opened(stream, parent), last),
            None => Ok(()),
        },
        _ => Ok(()),
    }
}

/// The last lease on each scope or below it.
fn within_of(alloc: Global, events: &[Event]) -> Result<Index, AllocError> {
    let mut within = Index::new(alloc);
    let mut n = events.len();
    while n > 0 {
        n -= 1;
        add_within(&mut within, events[n], n as u64)?;
    }
    Ok(within)
}

impl Lenders {
    /// Of these events.
    pub fn of(alloc: Global, events: &[Event]) -> Result<Lenders, AllocError> {
        let mut lenders = Lenders {
            within: within_of(alloc, events)?,
            lasts: Index::new(alloc),
            beside: Index::new(alloc),
        };
        for (i, event) in events.iter().enumerate() {
            lenders.note(events, *event, i as u64)?;
        }
        Ok(lenders)
    }

    fn parent(&self, events: &[Event], stream: u64, scope: u32) -> Option<u32> {
        let place = self.beside.find(Key::Opened(stream, scope))?;
        match events.get(place as usize)?.what {
            What::Open { parent, .. } => Some(parent),
            _ => None,
        }
    }

    /// The last lease so far on the scope's parent.
    fn last_beside(&self, events: &[Event], stream: u64, scope: u32) -> Option<u64> {
        let parent = self.parent(events, stream, scope)?;
        self.lasts.find(Key::Opened(stream, parent))
    }

    fn note(&mut self, events: &[Event], event: Event, place: u64) -> Result<(), AllocError> {
        let stream = number(event.by);
        match event.what {
            What::Open { scope, .. } => self.beside.add_first(Key::Opened(stream, scope), place),
            What::Lease { scope, .. } => self.lasts.add(Key::Opened(stream, scope), place),
            What::Close { scope, .. } => {
                let last = self.last_beside(events, stream, scope).unwrap_or(0);
                self.beside.add_first(Key::Closed(stream, scope), last)
            }
            _ => Ok(()),
        }
    }

    /// The place of the last lease on the scope or below it.
    pub fn within(&self, by: StreamNo, scope: u32) -> Option<u64> {
        self.within.find(Key::Opened(number(by), scope))
    }

    /// The place of the last lease on the scope's parent in front of the scope's own Close.
    pub fn beside(&self, events: &[Event], by: StreamNo, scope: u32) -> Option<u64> {
        let stream = number(by);
        match self.beside.find(Key::Closed(stream, scope)) {
            Some(last) => Some(last),
            None => self.last_beside(events, stream, scope),
        }
    }
}
