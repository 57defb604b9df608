//! The scopes and rows of each stream, and what a Close takes down of them.
ghost use Rattle.std.specs.Prelude.{◌≡◌, ◌≤◌, ℕ, List, [], ◌∷◌, ◌++◌, OnOk, filter, length, reverse, take};
ghost use Rattle.res_ledger.specs.declared.event.Event.{Event};
ghost use Rattle.res_ledger.specs.Ledger.{IsLegal};
ghost use Rattle.res_ledger.specs.Own.{own, teardown};
ghost use Rattle.ledger_books.specs.Keyed.{Indexes, number_of};
ghost use Rattle.ledger_audit.specs.Lists.{IsList};
ghost use Rattle.ledger_audit.specs.Trees.{HasTrees, is_unshut};

use crate::lists::Lists;
use ledger_books::index::Index;
use ledger_books::scopes::{is_unclosed_before, number};
use res_ledger::{Event, StreamNo, What};
use std::alloc::{AllocError, Global};

/// Of each scope the scopes below it and its rows, in the order in which they came.
#[derive(Drop)]
pub struct Trees {
    kids: Lists,
    rows: Lists,
}

impl Trees {
    /// Of no event.
    pub fn new(alloc: Global) -> Trees
        ensures { HasTrees result [] }
    {
        Trees {
            kids: Lists::new(alloc),
            rows: Lists::new(alloc),
        }
    }

    /// Keeps one event more.
    pub fn note(&mut self, event: Event) -> Result<(), AllocError>
        ensures { OnOk result ((P : List Event) → HasTrees self.old P → HasTrees self.new (P ++ event ∷ [])) }
    {
        let stream = number(event.by);
        match event.what {
            What::Open { scope, parent } => self.kids.add(stream, parent, scope),
            What::Acquire { row, scope } => self.rows.add(stream, scope, row),
            _ => Ok(()),
        }
    }
}

/// Appends the list of a scope.
fn add_rows(rows: &Lists, stream: u64, scope: u32, out: &mut Vec<u32>) -> Result<(), AllocError>
    ensures { OnOk result ((xs : List ℕ) → IsList rows.now stream scope xs → out.new.items ≡ out.old.items ++ xs) }
{
    let count = rows.count(stream, scope);
    let mut n = 0;
    while n < count {
        let Some(row) = rows.at(stream, scope, n) else {
            return Ok(());
        };
        out.push(row)?;
        n += 1;
    }
    Ok(())
}

/// Appends the scopes below one that weren't closed in front of the place, those that were opened
/// last in front.
fn add_unshut(
    index: &Index,
    past: &[Event],
    kids: &Lists,
    by: StreamNo,
    scope: u32,
    place: u64,
    out: &mut Vec<u32>,
) -> Result<(), AllocError>
    requires index { Indexes index.now past.now }
    requires legal { IsLegal past.now }
    requires within { place ≤ length past.now }
    ensures { OnOk result ((xs : List ℕ) → IsList kids.now (number_of by) scope xs → out.new.items ≡ out.old.items ++ reverse (filter (is_unshut (take place past.now) by) xs)) }
{
    let stream = number(by);
    let mut n = kids.count(stream, scope);
    while n > 0 {
        n -= 1;
        let Some(kid) = kids.at(stream, scope, n) else {
            return Ok(());
        };
        if is_unclosed_before(index, past, by, kid, place) {
            out.push(kid)?;
        }
    }
    Ok(())
}

impl Trees {
    /// Appends what a Close of the scope at the place takes down, what comes first as the last.
    pub fn add_torn(
        &self,
        alloc: Global,
        index: &Index,
        past: &[Event],
        by: StreamNo,
        scope: u32,
        place: u64,
        out: &mut Vec<u32>,
    ) -> Result<(), AllocError>
        requires index { Indexes index.now past.now }
        requires legal { IsLegal past.now }
        requires within { place ≤ length past.now }
        requires trees { HasTrees self.now (take place past.now) }
        ensures { OnOk result (out.new.items ≡ out.old.items ++ reverse (teardown (own by (take place past.now)) scope)) }
    {
        let mut left = Vec::new(alloc);
        left.push(scope)?;
        while let Some(next) = left.pop() {
            add_rows(&self.rows, number(by), next, out)?;
            add_unshut(index, past, &self.kids, by, next, place, &mut left)?;
        }
        Ok(())
    }
}
