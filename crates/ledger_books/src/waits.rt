//! Which rows wait for no lease any more.
ghost use Rattle.std.specs.Prelude.{◌≡◌, ◌∷◌, ◌++◌, [], ℕ, List, IfOk, IfSome, OnOk, length, true};
ghost use Rattle.res_ledger.specs.declared.event.Event.{Event};
ghost use Rattle.res_ledger.specs.declared.event.StreamNo.{StreamNo};
ghost use Rattle.res_ledger.specs.declared.event.What.TheVariants.{Acquire};
ghost use Rattle.res_ledger.specs.Ledger.{Covers, IsCanceled, IsLegal};
ghost use Rattle.ledger_books.specs.Keyed.{NotesAt, number_of};
ghost use Rattle.ledger_books.specs.Rooms.{room_of};
ghost use Rattle.ledger_books.specs.Waits.{CanSit, HasNone, HasWaits, IsWithin, Leaves, Raised, Shuts, Sits, next_of, until_of};

use crate::ends::Ends;
use crate::index::{Index, Key};
use crate::peaks::Peaks;
use crate::rooms::Rooms;
use crate::scopes::number;
use res_ledger::{Event, StreamNo, What};
use std::alloc::{AllocError, Global};

/// The leases that aren't canceled, each in its seat, in the room of its scope: the greatest of their
/// places in a room tells whether a row of the scope waits for one of them.
///
/// `nexts` keeps of each scope the seat behind those of its leases so far, and `shuts`, of each scope
/// that has a Close of its own, that seat of its parent as it was at the Close. Where the seats, which
/// are guesses, don't fit what is noted, `fits` is false and nothing is told.
#[derive(Drop)]
pub struct Waits {
    rooms: Rooms,
    nexts: Index,
    shuts: Index,
    peaks: Peaks,
    fits: bool,
}

/// How many leases are noted.
fn leases_of(events: &[Event]) -> usize {
    let mut count = 0usize;
    for event in events {
        if let What::Lease { .. } = event.what {
            count = count.saturating_add(1);
        }
    }
    count
}

/// Keeps the seat behind one that is taken, unless one further behind is kept.
fn raise_next(nexts: &mut Index, key: Key, behind: u64) -> Result<(), AllocError>
    ensures { OnOk result (Raised nexts.old nexts.new key behind) }
{
    if behind <= nexts.find(key).unwrap_or(0) {
        return Ok(());
    }
    nexts.add(key, behind)
}

impl Waits {
    /// In front of the first of these events.
    pub fn of(alloc: Global, events: &[Event], ends: &Ends) -> Result<Waits, AllocError>
        ensures { IfOk result (λ w. HasWaits w []) }
    {
        Ok(Waits {
            rooms: Rooms::of(alloc, events, ends)?,
            nexts: Index::new(alloc),
            shuts: Index::new(alloc),
            peaks: Peaks::new(alloc, leases_of(events))?,
            fits: true,
        })
    }

    /// The seat behind those of the scope's leases so far.
    fn next(&self, by: StreamNo, scope: u32) -> u64
        ensures { result ≡ next_of self.now (number_of by) scope }
    {
        self.nexts.find(Key::Opened(number(by), scope)).unwrap_or(0)
    }

    /// Whether the scope's room lies in the parent's.
    fn is_within(&self, by: StreamNo, scope: u32, parent: u32) -> bool
        ensures { result ≡ true → IsWithin self.now.rooms (number_of by) scope parent }
    {
        let room = self.rooms.room(by, scope);
        let above = self.rooms.room(by, parent);
        if room.parent != parent {
            return false;
        }
        if room.from < above.from {
            return false;
        }
        if above.to < room.to {
            return false;
        }
        true
    }

    /// The seat of the lease, if it lies in the scope's room and is free.
    fn free_seat(&self, by: StreamNo, stream: u32, scope: u32) -> Option<u64>
        ensures { IfSome result (CanSit self.now (number_of by) stream scope) }
    {
        let seat = self.rooms.seat(stream)?;
        let room = self.rooms.room(by, scope);
        if seat < room.from {
            return None;
        }
        if room.to <= seat {
            return None;
        }
        if self.peaks.len() as u64 <= seat {
            return None;
        }
        if self.peaks.at(seat as usize) != 0 {
            return None;
        }
        Some(seat)
    }

    /// Seats the lease, which is noted at the place.
    fn sit(&mut self, by: StreamNo, stream: u32, scope: u32, place: u64) -> Result<(), AllocError>
        ensures { OnOk result (Sits self.old self.new (number_of by) stream scope place) }
    {
        let Some(seat) = self.free_seat(by, stream, scope) else {
            self.fits = false;
            return Ok(());
        };
        let Some(behind) = seat.checked_add(1) else {
            self.fits = false;
            return Ok(());
        };
        let Some(mark) = place.checked_add(1) else {
            self.fits = false;
            return Ok(());
        };
        self.peaks.set(seat as usize, mark);
        raise_next(&mut self.nexts, Key::Opened(number(by), scope), behind)
    }

    /// Takes the lease from its seat.
    fn leave(&mut self, stream: u32)
        ensures { Leaves self.old self.new stream }
    {
        let Some(seat) = self.rooms.seat(stream) else {
            return;
        };
        self.peaks.set(seat as usize, 0);
    }

    /// Keeps up to which seat the leases of the scope's parent were noted in front of its Close.
    fn shut(&mut self, by: StreamNo, scope: u32) -> Result<(), AllocError>
        ensures { OnOk result (Shuts self.old self.new (number_of by) scope) }
    {
        let room = self.rooms.room(by, scope);
        let next = self.next(by, room.parent);
        self.shuts.add(Key::Closed(number(by), scope), next)
    }

    /// Keeps that the scope was opened.
    fn open(&mut self, by: StreamNo, scope: u32, parent: u32)
        ensures { self.new.fits ≡ true → (self.new ≡ self.old) × IsWithin self.old.rooms (number_of by) scope parent }
    {
        if self.is_within(by, scope, parent) {
            return;
        }
        self.fits = false;
    }

    /// Keeps one event more, which stands at the place.
    pub fn note(&mut self, event: Event, place: u64) -> Result<(), AllocError>
        ensures { OnOk result ((P : List Event) → length P ≡ place → IsLegal (P ++ event ∷ []) → HasWaits self.old P → HasWaits self.new (P ++ event ∷ [])) }
    {
        match event.what {
            What::Open { scope, parent } => {
                self.open(event.by, scope, parent);
                Ok(())
            }
            What::Lease { stream, scope } => self.sit(event.by, stream, scope, place),
            What::Cancel { stream, .. } => {
                self.leave(stream);
                Ok(())
            }
            What::Close { scope, .. } => self.shut(event.by, scope),
            _ => Ok(()),
        }
    }

    /// Whether no lease in the room of the scope was noted behind the place.
    fn is_free_within(&self, by: StreamNo, scope: u32, at: u64) -> bool
        ensures { result ≡ true → HasNone self.now (room_of self.now.rooms (number_of by) scope).from (room_of self.now.rooms (number_of by) scope).to at }
    {
        let room = self.rooms.room(by, scope);
        let most = self.peaks.most(room.from as usize, room.to as usize);
        if most > at {
            return false;
        }
        true
    }

    /// Whether no lease of the scope's parent that the scope was open at was noted behind the place.
    fn is_free_beside(&self, by: StreamNo, scope: u32, at: u64) -> bool
        ensures { result ≡ true → HasNone self.now (room_of self.now.rooms (number_of by) (room_of self.now.rooms (number_of by) scope).parent).from (until_of self.now (number_of by) scope) at }
    {
        let room = self.rooms.room(by, scope);
        let above = self.rooms.room(by, room.parent);
        let next = self.next(by, room.parent);
        let until = self
            .shuts
            .find(Key::Closed(number(by), scope))
            .unwrap_or(next);
        let most = self.peaks.most(above.from as usize, until as usize);
        if most > at {
            return false;
        }
        true
    }

    /// Whether each lease that covers the row is canceled. Where it isn't told, one may be.
    pub fn are_over(&self, past: &[Event], row: u32, at: u64, owner: StreamNo, of: u32) -> bool
        requires waits { HasWaits self.now past.now }
        requires legal { IsLegal past.now }
        requires row { NotesAt past.now at owner (Acquire row of) }
        ensures { result ≡ true → (j : ℕ) (k : StreamNo) → Covers past.now j k row → IsCanceled past.now j }
    {
        if !self.fits {
            return false;
        }
        if !self.is_free_within(owner, of, at) {
            return false;
        }
        if !self.is_free_beside(owner, of, at) {
            return false;
        }
        true
    }
}
