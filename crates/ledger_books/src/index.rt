//! Where each thing was noted.
ghost use Rattle.std.specs.Prelude.{◌≡◌, Some, None, OnOk, is_some, if◌then◌else◌};
ghost use Rattle.ledger_books.specs.Key.{place_of, same_key};
ghost use Rattle.ledger_books.specs.Keyed.{KeepsFirst, key_of};
ghost use Rattle.ledger_books.specs.declared.index.Key.{Key};

use crate::scopes::number;
use res_ledger::{StreamNo, What};
use std::alloc::{AllocError, Global};
use std::collections::HashMap;

/// What an event notes, or what begins with it. Streams are told by their numbers: 0 is the outer
/// one, 1 + k stream k.
#[derive(Clone, Copy, Debug, PartialEq, Eq, Hash)]
pub enum Key {
    /// The stream noted something.
    Begun(u64),
    Opened(u64, u32),
    Closed(u64, u32),
    Acquired(u32),
    Leased(u32),
    Canceled(u32),
    Finalized(u32),
}

/// The key of what the stream notes.
pub fn key_for(by: StreamNo, what: What) -> Key
    ensures { result ≡ key_of by what }
{
    match what {
        What::Open { scope, .. } => Key::Opened(number(by), scope),
        What::Acquire { row, .. } => Key::Acquired(row),
        What::Lease { stream, .. } => Key::Leased(stream),
        What::Cancel { stream, .. } => Key::Canceled(stream),
        What::Close { scope, .. } => Key::Closed(number(by), scope),
        What::Final { row, .. } => Key::Finalized(row),
    }
}

/// The place of each event by what it notes.
#[derive(Drop)]
pub struct Index {
    at: HashMap<Key, u64>,
}

impl Index {
    pub fn new(alloc: Global) -> Index
        ensures { (q : Key) → place_of result q ≡ None }
    {
        Index {
            at: HashMap::new(alloc),
        }
    }

    pub fn find(&self, key: Key) -> Option<u64>
        ensures { result ≡ place_of self.now key }
    {
        self.at.get(&key).copied()
    }

    pub fn has(&self, key: Key) -> bool
        ensures { result ≡ is_some (place_of self.now key) }
    {
        self.find(key).is_some()
    }

    pub fn add(&mut self, key: Key, place: u64) -> Result<(), AllocError>
        ensures { OnOk result ((q : Key) → place_of self.new q ≡ (if same_key key q then Some place else place_of self.old q)) }
    {
        let Ok(_) = self.at.insert(key, place) else {
            return Err(AllocError);
        };
        Ok(())
    }

    /// Adds the place, unless there is one.
    pub fn add_first(&mut self, key: Key, place: u64) -> Result<(), AllocError>
        ensures { OnOk result (KeepsFirst self.old self.new key place) }
    {
        if self.has(key) {
            return Ok(());
        }
        self.add(key, place)
    }
}
