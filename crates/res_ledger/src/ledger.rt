//! The list of events.
ghost use Rattle.std.specs.Prelude.{◌≡◌, ◌==◌, [], length, slice_get};
ghost use Rattle.std.specs.Option.{option_copied};
ghost use Rattle.res_ledger.specs.Ledger.{IsStamped};
ghost use Rattle.res_ledger.specs.Limits.{IsLedger, IsSmallEvent};

use crate::event::{Event, StreamNo, What};
use std::alloc::Global;
use std::marker::Model;

/// The events of a run, in order. The event at place i has the stamp i. Contracts see the list.
#[derive(Drop)]
pub struct Ledger {
    events: Vec<Event>,
}

impl Model for Ledger {
    ghost use Rattle.std.specs.Prelude.{List};
    ghost use Rattle.res_ledger.specs.declared.event.Event.{Event};
    ghost use Rattle.res_ledger.specs.Limits.{IsLedger};

    ghost Value = { List Event };

    ghost view = { λ ledger. ledger.events.items };

    ghost invariant = { λ ledger. IsLedger ledger.events.items };
}

/// Reads each number of an event: so a proof learns that it fits its type.
fn look_at(event: Event)
    ensures { IsSmallEvent event }
{
    match event.by {
        StreamNo::Outer | StreamNo::Inner(_) => {}
    }
    match event.what {
        What::Open { .. } | What::Acquire { .. } | What::Lease { .. } => {}
        What::Cancel { .. } | What::Close { .. } | What::Final { .. } => {}
    }
}

impl Ledger {
    /// A ledger without events, which takes no memory.
    pub fn empty(alloc: Global) -> Ledger
        ensures { result ≡ [] }
    {
        Ledger {
            events: Vec::new(alloc),
        }
    }

    /// The ledger of these events, whose stamps are their places.
    pub fn of_events(events: Vec<Event>) -> Ledger
        requires { IsStamped events.items }
        ensures { result ≡ events.items }
    {
        for event in &events {
            look_at(*event);
        }
        Ledger { events }
    }

    pub fn len(&self) -> u64
        ensures { result ≡ length self.now }
    {
        self.events.len() as u64
    }

    pub fn is_empty(&self) -> bool
        ensures { result ≡ (length self.now == 0) }
    {
        self.events.is_empty()
    }

    /// The event at a place, from 0.
    pub fn get(&self, i: u64) -> Option<&Event>
        ensures { option_copied result ≡ slice_get self.now i }
    {
        self.events.get(i as usize)
    }

    pub fn as_slice(&self) -> &[Event]
        ensures items { result.now ≡ self.now }
        ensures stamped { IsStamped self.now }
        ensures ledger { IsLedger self.now }
    {
        self.events.as_slice()
    }
}
