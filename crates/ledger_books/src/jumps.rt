//! From each scope the one above it, and one far above it.
ghost use Rattle.std.specs.Prelude.{◌≡◌, ◌⊎◌, ◌∷◌, ◌++◌, [], List, Some, None, IfSome, OnOk, true, if◌then◌else◌};
ghost use Rattle.res_ledger.specs.declared.event.Event.{Event};
ghost use Rattle.res_ledger.specs.Ledger.{LiesWithin};
ghost use Rattle.ledger_books.specs.Jumps.{LeadsUp, jump_of};
ghost use Rattle.ledger_books.specs.Key.{same_key};
ghost use Rattle.ledger_books.specs.Keyed.{number_of};
ghost use Rattle.ledger_books.specs.declared.index.Key.{Key};
ghost use Rattle.ledger_books.specs.declared.index.Key.TheVariants.{Opened};

use crate::index::Key;
use crate::scopes::number;
use res_ledger::{Event, StreamNo, What};
use std::alloc::{AllocError, Global};
use std::collections::HashMap;

/// The way up from a scope: its parent, one above it, and how deep it and that one lie.
#[derive(Clone, Copy, Debug, PartialEq, Eq)]
pub struct Jump {
    pub parent: u32,
    pub above: u32,
    pub depth: u64,
    pub reached: u64,
}

impl Jump {
    /// The scope above to which to go on towards one of that depth.
    fn next(self, depth: u64) -> u32
        ensures { (result ≡ self.parent) ⊎ (result ≡ self.above) }
    {
        if self.reached < depth {
            return self.parent;
        }
        self.above
    }
}

/// The way up from each scope that was opened. The scopes above are chosen so that any scope above
/// another is reached in a few steps for each doubling of the depth.
#[derive(Drop)]
pub struct Jumps {
    at: HashMap<Key, Jump>,
}

impl Jumps {
    /// Of no event.
    pub fn new(alloc: Global) -> Jumps
        ensures { (q : Key) → jump_of result q ≡ None }
    {
        Jumps {
            at: HashMap::new(alloc),
        }
    }

    /// The way up from the scope, if it was opened.
    fn find(&self, by: StreamNo, scope: u32) -> Option<Jump>
        ensures { result ≡ jump_of self.now (Opened (number_of by) scope) }
    {
        self.at.get(&Key::Opened(number(by), scope)).copied()
    }

    /// The way up from the scope that a way leads to, where the two reach equally far.
    fn leap(&self, by: StreamNo, first: Jump) -> Option<Jump>
        ensures { IfSome result (λ j. jump_of self.now (Opened (number_of by) first.above) ≡ Some j) }
    {
        let second = self.find(by, first.above)?;
        let far = first.depth.saturating_sub(first.reached);
        if far != first.reached.saturating_sub(second.reached) {
            return None;
        }
        Some(second)
    }

    /// The way up from a scope below the parent.
    fn way(&self, by: StreamNo, parent: u32) -> Jump
        ensures parent { result.parent ≡ parent }
        ensures above { (P : List Event) → LeadsUp self.now P → LiesWithin P by parent result.above }
    {
        let Some(first) = self.find(by, parent) else {
            return Jump {
                parent,
                above: parent,
                depth: 1,
                reached: 0,
            };
        };
        let depth = first.depth.saturating_add(1);
        let Some(second) = self.leap(by, first) else {
            return Jump {
                parent,
                above: parent,
                depth,
                reached: first.depth,
            };
        };
        Jump {
            parent,
            above: second.above,
            depth,
            reached: second.reached,
        }
    }

    fn put(&mut self, key: Key, jump: Jump) -> Result<(), AllocError>
        ensures { OnOk result ((q : Key) → jump_of self.new q ≡ (if same_key key q then Some jump else jump_of self.old q)) }
    {
        let Ok(_) = self.at.insert(key, jump) else {
            return Err(AllocError);
        };
        Ok(())
    }

    /// Keeps that the scope was opened.
    fn open(&mut self, by: StreamNo, scope: u32, parent: u32) -> Result<(), AllocError>
        ensures { OnOk result ((j : Jump) × (j.parent ≡ parent) × ((P : List Event) → LeadsUp self.old P → LiesWithin P by parent j.above) × ((q : Key) → jump_of self.new q ≡ (if same_key (Opened (number_of by) scope) q then Some j else jump_of self.old q))) }
    {
        let jump = self.way(by, parent);
        self.put(Key::Opened(number(by), scope), jump)
    }

    /// Keeps one event more.
    pub fn note(&mut self, event: Event) -> Result<(), AllocError>
        ensures { OnOk result ((P : List Event) → LeadsUp self.old P → LeadsUp self.new (P ++ event ∷ [])) }
    {
        match event.what {
            What::Open { scope, parent } => self.open(event.by, scope, parent),
            _ => Ok(()),
        }
    }

    /// How deep the scope lies.
    fn depth(&self, by: StreamNo, scope: u32) -> u64 {
        match self.find(by, scope) {
            Some(jump) => jump.depth,
            None => 0,
        }
    }

    /// Whether the way up from the scope comes to the other one.
    pub fn lead(&self, past: &[Event], by: StreamNo, scope: u32, above: u32) -> bool
        requires { LeadsUp self.now past.now }
        ensures { result ≡ true → LiesWithin past.now by scope above }
    {
        let depth = self.depth(by, above);
        let mut at = scope;
        for _ in 0..128u32 {
            if at == above {
                return true;
            }
            let Some(jump) = self.find(by, at) else {
                return false;
            };
            if jump.depth <= depth {
                return false;
            }
            at = jump.next(depth);
        }
        false
    }
}
