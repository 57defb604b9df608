//! Rooms of seats for the scopes of a ledger, told ahead.
ghost use Rattle.std.specs.Prelude.{◌≡◌};
ghost use Rattle.ledger_books.specs.Rooms.{room_of, seat_of};
ghost use Rattle.ledger_books.specs.Keyed.{number_of};

use crate::ends::Ends;
use crate::index::{Index, Key};
use crate::scopes::number;
use res_ledger::{Event, StreamNo, What};
use std::alloc::{AllocError, Global};
use std::collections::HashMap;

/// The seats of a scope, from one to in front of another, and the scope that it was opened under.
#[derive(Clone, Copy, Debug, PartialEq, Eq)]
pub struct Room {
    pub parent: u32,
    pub from: u64,
    pub to: u64,
}

/// A room for each scope, within its parent's, and in it a seat for each lease of the scope, those
/// that were noted first in front. They are guesses, told ahead of a ledger that may break rules: no
/// contract says where they are, and who rests on one asks whether it fits.
#[derive(Drop)]
pub struct Rooms {
    at: HashMap<Key, Room>,
    seats: Index,
}

/// Adds so many to what is kept.
fn add_seats(counts: &mut Index, key: Key, more: u64) -> Result<(), AllocError> {
    let count = counts.find(key).unwrap_or(0);
    counts.add(key, count.saturating_add(more))
}

/// Keeps of an event, those behind it being known, how many leases are noted on a scope or below it.
fn add_width(widths: &mut Index, ends: &Ends, event: Event, place: u64) -> Result<(), AllocError> {
    let stream = number(event.by);
    match event.what {
        What::Lease { scope, .. } => add_seats(widths, Key::Opened(stream, scope), 1),
        What::Open { scope, parent } => {
            if ends.opened(event.by, scope) != Some(place) {
                return Ok(());
            }
            match widths.find(Key::Opened(stream, scope)) {
                Some(width) => add_seats(widths, Key::Opened(stream, parent), width),
                None => Ok(()),
            }
        }
        _ => Ok(()),
    }
}

/// How many leases are noted on each scope or below it.
fn widths_of(alloc: Global, events: &[Event], ends: &Ends) -> Result<Index, AllocError> {
    let mut widths = Index::new(alloc);
    let mut n = events.len();
    while n > 0 {
        n -= 1;
        add_width(&mut widths, ends, events[n], n as u64)?;
    }
    Ok(widths)
}

/// What is kept while seats are told.
#[derive(Drop)]
struct Seating {
    rooms: Rooms,
    widths: Index,
    fronts: Index,
    backs: Index,
    top: u64,
}

impl Seating {
    fn width(&self, stream: u64, scope: u32) -> u64 {
        self.widths.find(Key::Opened(stream, scope)).unwrap_or(0)
    }

    /// Gives the scope the seats in front of one.
    fn give(&mut self, stream: u64, scope: u32, parent: u32, to: u64) -> Result<u64, AllocError> {
        let from = to.saturating_sub(self.width(stream, scope));
        let key = Key::Opened(stream, scope);
        put_room(&mut self.rooms.at, key, Room { parent, from, to })?;
        self.fronts.add(key, from)?;
        self.backs.add(key, to)?;
        Ok(from)
    }

    /// Gives the root of a stream seats behind all that were given.
    fn give_root(&mut self, stream: u64) -> Result<(), AllocError> {
        if self.backs.has(Key::Opened(stream, 0)) {
            return Ok(());
        }
        let width = self.width(stream, 0);
        self.top = self.top.saturating_add(width);
        let top = self.top;
        self.give(stream, 0, 0, top)?;
        Ok(())
    }

    /// Gives what an event opens or leases its seats.
    fn note(&mut self, ends: &Ends, event: Event, place: u64) -> Result<(), AllocError> {
        let stream = number(event.by);
        match event.what {
            What::Open { scope, parent } => {
                if ends.opened(event.by, scope) != Some(place) {
                    return Ok(());
                }
                self.give_root(stream)?;
                let above = Key::Opened(stream, parent);
                let to = self.backs.find(above).unwrap_or(0);
                let from = self.give(stream, scope, parent, to)?;
                self.backs.add(above, from)
            }
            What::Lease { stream: to, scope } => {
                self.give_root(stream)?;
                let key = Key::Opened(stream, scope);
                let seat = self.fronts.find(key).unwrap_or(0);
                self.rooms.seats.add_first(Key::Leased(to), seat)?;
                self.fronts.add(key, seat.saturating_add(1))
            }
            _ => Ok(()),
        }
    }
}

fn put_room(rooms: &mut HashMap<Key, Room>, key: Key, room: Room) -> Result<(), AllocError> {
    let Ok(_) = rooms.insert(key, room) else {
        return Err(AllocError);
    };
    Ok(())
}

impl Rooms {
    /// Of these events.
    pub fn of(alloc: Global, events: &[Event], ends: &Ends) -> Result<Rooms, AllocError> {
        let mut seating = Seating {
            rooms: Rooms {
                at: HashMap::new(alloc),
                seats: Index::new(alloc),
            },
            widths: widths_of(alloc, events, ends)?,
            fronts: Index::new(alloc),
            backs: Index::new(alloc),
            top: 0,
        };
        for (i, event) in events.iter().enumerate() {
            seating.note(ends, *event, i as u64)?;
        }
        let Seating { rooms, .. } = seating;
        Ok(rooms)
    }

    /// The room of the scope.
    pub fn room(&self, by: StreamNo, scope: u32) -> Room
        ensures { result ≡ room_of self.now (number_of by) scope }
    {
        self.at
            .get(&Key::Opened(number(by), scope))
            .copied()
            .unwrap_or(Room {
                parent: 0,
                from: 0,
                to: 0,
            })
    }

    /// The seat of the lease for the stream.
    pub fn seat(&self, stream: u32) -> Option<u64>
        ensures { result ≡ seat_of self.now stream }
    {
        self.seats.find(Key::Leased(stream))
    }
}
