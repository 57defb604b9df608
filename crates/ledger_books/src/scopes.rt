//! The scopes of a stream, by an index of the events so far.
ghost use Rattle.std.specs.Prelude.{◌≡◌, ◌↔◌, ◌⊎◌, ◌<◌, true, false, MatchOption};
ghost use Rattle.res_ledger.specs.declared.event.Event.{Event};
ghost use Rattle.res_ledger.specs.declared.event.StreamNo.{StreamNo};
ghost use Rattle.res_ledger.specs.declared.event.StreamNo.TheVariants.{Inner};
ghost use Rattle.res_ledger.specs.declared.event.What.TheVariants.{Open};
ghost use Rattle.res_ledger.specs.Ledger.{IsClosed, IsLegal, IsOpened, IsUsable, LiesWithin};
ghost use Rattle.ledger_books.specs.Ends.{Foretells};
ghost use Rattle.ledger_books.specs.Jumps.{LeadsUp};
ghost use Rattle.ledger_books.specs.Keyed.{Indexes, IsUnclosedBefore, NotesAt, number_of};

use crate::ends::Ends;
use crate::index::{Index, Key};
use crate::jumps::Jumps;
use res_ledger::{Event, StreamNo, What};

/// The number that tells a stream in a key.
pub fn number(stream: StreamNo) -> u64
    ensures { result ≡ number_of stream }
{
    match stream {
        StreamNo::Outer => 0,
        StreamNo::Inner(k) => u64::from(k) + 1,
    }
}

/// Where the stream opened the scope, and under which parent.
pub fn opened(index: &Index, past: &[Event], by: StreamNo, scope: u32) -> Option<(u64, u32)>
    requires { Indexes index.now past.now }
    ensures { MatchOption result (¬ (IsOpened past.now by scope)) (λ p. NotesAt past.now p.0 by (Open scope p.1)) }
{
    let place = index.find(Key::Opened(number(by), scope))?;
    let event = past.get(place as usize)?;
    match event.what {
        What::Open { parent, .. } => Some((place, parent)),
        _ => None,
    }
}

/// Whether the stream closed the scope or one above it.
pub fn is_closed(ends: &Ends, past: &[Event], by: StreamNo, scope: u32) -> bool
    requires { Foretells ends.now past.now }
    ensures { (result ≡ true) ↔ IsClosed past.now by scope }
{
    ends.end(by, scope) < past.len() as u64
}

/// Whether the scope is the root or was opened.
pub fn is_known(index: &Index, past: &[Event], by: StreamNo, scope: u32) -> bool
    requires { Indexes index.now past.now }
    ensures { (result ≡ true) ↔ (scope ≡ 0 ⊎ IsOpened past.now by scope) }
{
    if scope == 0 {
        return true;
    }
    opened(index, past, by, scope).is_some()
}

/// Whether the scope is the root or was opened, and isn't closed.
pub fn is_usable(index: &Index, ends: &Ends, past: &[Event], by: StreamNo, scope: u32) -> bool
    requires index { Indexes index.now past.now }
    requires ends { Foretells ends.now past.now }
    ensures { (result ≡ true) ↔ IsUsable past.now by scope }
{
    if !is_known(index, past, by, scope) {
        return false;
    }
    !is_closed(ends, past, by, scope)
}

/// Whether the scope is the other one or lies below it, by a walk from parent to parent.
fn walks_up(index: &Index, past: &[Event], by: StreamNo, scope: u32, above: u32) -> bool
    requires index { Indexes index.now past.now }
    requires legal { IsLegal past.now }
    ensures { (result ≡ true) ↔ LiesWithin past.now by scope above }
{
    let mut at = scope;
    let mut below = past.len() as u64;
    while at != above {
        let Some((place, parent)) = opened(index, past, by, at) else {
            return false;
        };
        if place >= below {
            return false;
        }
        below = place;
        at = parent;
    }
    true
}

/// Whether the scope is the other one or lies below it. Where it does, that is found in a few steps;
/// where it doesn't, by a walk.
pub fn lies_within(
    index: &Index,
    jumps: &Jumps,
    past: &[Event],
    by: StreamNo,
    scope: u32,
    above: u32,
) -> bool
    requires index { Indexes index.now past.now }
    requires jumps { LeadsUp jumps.now past.now }
    requires legal { IsLegal past.now }
    ensures { (result ≡ true) ↔ LiesWithin past.now by scope above }
{
    if jumps.lead(past, by, scope, above) {
        return true;
    }
    walks_up(index, past, by, scope, above)
}

/// Whether the scope has no Close of its own in front of the place.
pub fn is_unclosed_before(
    index: &Index,
    past: &[Event],
    by: StreamNo,
    scope: u32,
    place: u64,
) -> bool
    requires index { Indexes index.now past.now }
    requires legal { IsLegal past.now }
    ensures { (result ≡ true) ↔ IsUnclosedBefore past.now by scope place }
{
    let Some(closed) = index.find(Key::Closed(number(by), scope)) else {
        return true;
    };
    if closed < place {
        return false;
    }
    true
}
