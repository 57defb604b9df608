//! Where the scopes of a ledger are closed, and by when its leases are canceled, told ahead.
ghost use Rattle.std.specs.Prelude.{◌≡◌, ◌<◌, ◌^◌, List, [], ◌∷◌, ◌++◌, IfOk, OnOk};
ghost use Rattle.res_ledger.specs.declared.event.Event.{Event};
ghost use Rattle.res_ledger.specs.Ledger.{IsLegal};
ghost use Rattle.ledger_books.specs.Ends.{Foresees, IsFirsts, OpensEnd, close_of, end_of, final_of, until_of};
ghost use Rattle.ledger_books.specs.Keyed.{number_of};

use crate::index::{Index, Key, key_for};
use crate::scopes::number;
use crate::untils::untils_of;
use res_ledger::{Event, StreamNo, What};
use std::alloc::{AllocError, Global};

/// Where each scope that was opened so far is closed, by a Close of its own or of a scope above it,
/// in a ledger of which all events are known, and by when the leases behind each row are canceled.
#[derive(Drop)]
pub struct Ends {
    firsts: Index,
    untils: Index,
    ends: Index,
}

/// Where each thing is noted first.
fn firsts_of(alloc: Global, events: &[Event]) -> Result<Index, AllocError>
    ensures { IfOk result (λ x. IsFirsts x events.now) }
{
    let mut firsts = Index::new(alloc);
    for (i, event) in events.iter().enumerate() {
        firsts.add_first(key_for(event.by, event.what), i as u64)?;
    }
    Ok(firsts)
}

impl Ends {
    /// In front of the first of these events.
    pub fn of(alloc: Global, events: &[Event]) -> Result<Ends, AllocError>
        ensures { IfOk result (λ x. Foresees x events.now []) }
    {
        let firsts = firsts_of(alloc, events)?;
        let untils = untils_of(alloc, events, &firsts)?;
        Ok(Ends {
            firsts,
            untils,
            ends: Index::new(alloc),
        })
    }

    /// Where the scope has a Close of its own; the greatest number where it has none.
    fn close(&self, by: StreamNo, scope: u32) -> u64
        ensures { result ≡ close_of self.now (number_of by) scope }
    {
        self.firsts
            .find(Key::Closed(number(by), scope))
            .unwrap_or(u64::MAX)
    }

    /// Where the scope is closed; the greatest number where it isn't.
    pub fn end(&self, by: StreamNo, scope: u32) -> u64
        ensures { result ≡ end_of self.now (number_of by) scope }
    {
        let close = self.close(by, scope);
        self.ends
            .find(Key::Opened(number(by), scope))
            .unwrap_or(close)
    }

    /// By when the leases are canceled that the stream of the row noted behind it; the greatest
    /// number where one isn't.
    pub fn until(&self, row: u32) -> u64
        ensures { result ≡ until_of self.now row }
    {
        self.untils.find(Key::Acquired(row)).unwrap_or(u64::MAX)
    }

    /// Where the scope was opened first.
    pub fn opened(&self, by: StreamNo, scope: u32) -> Option<u64> {
        self.firsts.find(Key::Opened(number(by), scope))
    }

    /// Where the row is final; the greatest number where it isn't.
    pub fn last(&self, row: u32) -> u64
        ensures { result ≡ final_of self.now row }
    {
        self.firsts.find(Key::Finalized(row)).unwrap_or(u64::MAX)
    }

    /// Keeps that the scope was opened.
    fn open(&mut self, by: StreamNo, scope: u32, parent: u32) -> Result<(), AllocError>
        ensures { OnOk result (OpensEnd self.old self.new (number_of by) scope parent) }
    {
        let close = self.close(by, scope);
        let above = self.end(by, parent);
        let end = if above < close { above } else { close };
        self.ends.add(Key::Opened(number(by), scope), end)
    }

    /// Keeps one event more.
    pub fn note(&mut self, event: Event) -> Result<(), AllocError>
        ensures firsts { OnOk result (self.new.firsts ≡ self.old.firsts) }
        ensures foresees { OnOk result ((L P Q : List Event) → L ≡ P ++ event ∷ Q → IsLegal (P ++ event ∷ []) → Foresees self.old L P → Foresees self.new L (P ++ event ∷ [])) }
    {
        match event.what {
            What::Open { scope, parent } => self.open(event.by, scope, parent),
            _ => Ok(()),
        }
    }
}
