//! The leases, by an index of the events so far.
ghost use Rattle.chunk_core.specs.declared.code.Exit.{Exit};
ghost use Rattle.std.specs.Prelude.{◌≡◌, ◌↔◌, ◌<◌, ℕ, true, false, MatchOption};
ghost use Rattle.chunk_core.specs.Lists.{IsAmong};
ghost use Rattle.res_ledger.specs.declared.event.Event.{Event};
ghost use Rattle.res_ledger.specs.declared.event.StreamNo.{StreamNo};
ghost use Rattle.res_ledger.specs.declared.event.What.TheVariants.{Acquire, Cancel, Lease, Open};
ghost use Rattle.res_ledger.specs.Ledger.{IsCanceled, IsLeased, IsLegal, NotesCancel};
ghost use Rattle.ledger_books.specs.Jumps.{LeadsUp};
ghost use Rattle.ledger_books.specs.Keyed.{CoversAt, Indexes, IsUnclosedBefore, NotesAt};

use crate::index::{Index, Key};
use crate::jumps::Jumps;
use crate::scopes::{is_unclosed_before, lies_within, number, opened};
use chunk_core::Exit;
use res_ledger::{Event, StreamNo, What};

/// Where the lease for the stream was noted, by which stream and on which scope.
pub fn leased(index: &Index, past: &[Event], stream: u32) -> Option<(u64, StreamNo, u32)>
    requires { Indexes index.now past.now }
    ensures { MatchOption result (¬ (IsLeased past.now stream)) (λ t. NotesAt past.now t.0 t.1 (Lease stream t.2)) }
{
    let place = index.find(Key::Leased(stream))?;
    let event = past.get(place as usize)?;
    match event.what {
        What::Lease { scope, .. } => Some((place, event.by, scope)),
        _ => None,
    }
}

/// Where the lease for the stream was canceled, by which stream, and how it ended.
pub fn canceled(index: &Index, past: &[Event], stream: u32) -> Option<(u64, StreamNo, Exit)>
    requires { Indexes index.now past.now }
    ensures { MatchOption result (¬ (IsCanceled past.now stream)) (λ t. NotesAt past.now t.0 t.1 (Cancel stream t.2)) }
{
    let place = index.find(Key::Canceled(stream))?;
    let event = past.get(place as usize)?;
    match event.what {
        What::Cancel { exit, .. } => Some((place, event.by, exit)),
        _ => None,
    }
}

/// Whether the stream opened the scope under that parent, and didn't close it in front of the place.
fn is_child_before(
    index: &Index,
    past: &[Event],
    by: StreamNo,
    scope: u32,
    parent: u32,
    place: u64,
) -> bool
    requires index { Indexes index.now past.now }
    requires legal { IsLegal past.now }
    ensures { (result ≡ true) ↔ (((n : ℕ) × NotesAt past.now n by (Open scope parent)) × IsUnclosedBefore past.now by scope place) }
{
    let Some((_, above)) = opened(index, past, by, scope) else {
        return false;
    };
    if above != parent {
        return false;
    }
    is_unclosed_before(index, past, by, scope, place)
}

/// Whether the lease at a place, on a scope, covers the row.
pub fn covers(
    index: &Index,
    jumps: &Jumps,
    past: &[Event],
    place: u64,
    by: StreamNo,
    scope: u32,
    row: u32,
    at: u64,
    owner: StreamNo,
    of: u32,
) -> bool
    requires index { Indexes index.now past.now }
    requires jumps { LeadsUp jumps.now past.now }
    requires legal { IsLegal past.now }
    requires row { NotesAt past.now at owner (Acquire row of) }
    ensures { (j : ℕ) → NotesAt past.now place by (Lease j scope) → (result ≡ true) ↔ CoversAt past.now place by scope row }
{
    if number(by) != number(owner) {
        return false;
    }
    if at >= place {
        return false;
    }
    if is_child_before(index, past, by, of, scope, place) {
        return true;
    }
    lies_within(index, jumps, past, by, scope, of)
}

/// The lease that stands at the place.
pub fn lease_at(past: &[Event], place: u64) -> Option<(StreamNo, u32, u32)>
    ensures { MatchOption result ((k : StreamNo) (j s : ℕ) → ¬ (NotesAt past.now place k (Lease j s))) (λ t. NotesAt past.now place t.0 (Lease t.1 t.2)) }
{
    let event = past.get(place as usize)?;
    match event.what {
        What::Lease { stream, scope } => Some((event.by, stream, scope)),
        _ => None,
    }
}

/// Whether the lease for the stream is canceled.
pub fn is_canceled(index: &Index, past: &[Event], stream: u32) -> bool
    requires { Indexes index.now past.now }
    ensures { (result ≡ true) ↔ IsCanceled past.now stream }
{
    canceled(index, past, stream).is_some()
}

/// Whether the stream canceled the lease.
pub fn is_canceled_by(index: &Index, past: &[Event], stream: u32, by: StreamNo) -> bool
    requires index { Indexes index.now past.now }
    requires legal { IsLegal past.now }
    ensures { (result ≡ true) ↔ NotesCancel past.now by stream }
{
    let Some((_, canceler, _)) = canceled(index, past, stream) else {
        return false;
    };
    if number(by) != number(canceler) {
        return false;
    }
    true
}

/// Whether each of these leases is canceled.
pub fn are_canceled(index: &Index, past: &[Event], streams: &[u32]) -> bool
    requires { Indexes index.now past.now }
    ensures { (result ≡ true) ↔ ((j : ℕ) → IsAmong j streams.now → IsCanceled past.now j) }
{
    for stream in streams {
        if !is_canceled(index, past, *stream) {
            return false;
        }
    }
    true
}
