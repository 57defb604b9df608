//! Lists of numbers, one for each scope of each stream.
ghost use Rattle.std.specs.Prelude.{◌≡◌, ℕ, List, [], ◌∷◌, ◌++◌, Some, None, OnOk, unwrap_or, if◌then◌else◌};
ghost use Rattle.std.specs.HashMap.{get};
ghost use Rattle.ledger_audit.specs.Lists.{IsList, adds, count_of, item_of, same_item, same_slot};
ghost use Rattle.ledger_audit.specs.declared.lists.Item.{Item};
ghost use Rattle.ledger_audit.specs.declared.lists.Slot.{Slot};

use std::alloc::{AllocError, Global};
use std::collections::HashMap;

/// A scope of a stream, which is told by its number.
#[derive(Clone, Copy, Debug, PartialEq, Eq, Hash)]
pub enum Slot {
    Of(u64, u32),
}

/// A place in the list of a scope.
#[derive(Clone, Copy, Debug, PartialEq, Eq, Hash)]
pub enum Item {
    At(u64, u32, u64),
}

/// A list for each scope of each stream: how many it has, and the one at each place.
#[derive(Drop)]
pub struct Lists {
    counts: HashMap<Slot, u64>,
    items: HashMap<Item, u32>,
}

impl Lists {
    /// Each list is empty.
    pub fn new(alloc: Global) -> Lists
        ensures { (k s : ℕ) → IsList result k s [] }
    {
        Lists {
            counts: HashMap::new(alloc),
            items: HashMap::new(alloc),
        }
    }

    /// How many the list of the scope has.
    pub fn count(&self, stream: u64, scope: u32) -> u64
        ensures { result ≡ unwrap_or (count_of self.now stream scope) 0 }
    {
        self.counts
            .get(&Slot::Of(stream, scope))
            .copied()
            .unwrap_or(0)
    }

    /// The one at a place of the list of the scope.
    pub fn at(&self, stream: u64, scope: u32, place: u64) -> Option<u32>
        ensures { result ≡ item_of self.now stream scope place }
    {
        self.items.get(&Item::At(stream, scope, place)).copied()
    }

    /// Adds a number to the list of the scope.
    pub fn add(&mut self, stream: u64, scope: u32, number: u32) -> Result<(), AllocError>
        ensures { OnOk result ((k s : ℕ) (xs : List ℕ) → IsList self.old k s xs → IsList self.new k s (if adds stream scope k s then xs ++ number ∷ [] else xs)) }
    {
        let count = self.count(stream, scope);
        let Some(more) = count.checked_add(1) else {
            return Err(AllocError);
        };
        put_item(&mut self.items, Item::At(stream, scope, count), number)?;
        put_count(&mut self.counts, Slot::Of(stream, scope), more)
    }
}

/// Sets the one at a place.
fn put_item(items: &mut HashMap<Item, u32>, at: Item, number: u32) -> Result<(), AllocError>
    ensures { OnOk result ((q : Item) → get same_item items.new q ≡ (if same_item at q then Some number else get same_item items.old q)) }
{
    let Ok(_) = items.insert(at, number) else {
        return Err(AllocError);
    };
    Ok(())
}

/// Sets how many a list has.
fn put_count(counts: &mut HashMap<Slot, u64>, of: Slot, count: u64) -> Result<(), AllocError>
    ensures { OnOk result ((q : Slot) → get same_slot counts.new q ≡ (if same_slot of q then Some count else get same_slot counts.old q)) }
{
    let Ok(_) = counts.insert(of, count) else {
        return Err(AllocError);
    };
    Ok(())
}
