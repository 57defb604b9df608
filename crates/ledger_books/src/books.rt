//! What may follow the events so far.
ghost use Rattle.chunk_core.specs.declared.code.Exit.{Exit};
ghost use Rattle.std.specs.Prelude.{Bool, ◌≡◌, ◌≢◌, ◌↔◌, ◌<◌, ℕ, true, false, MatchOption, IfOk, OnOk, List, length, [], ◌∷◌, ◌++◌, if◌then◌else◌};
ghost use Rattle.chunk_core.specs.Lists.{IsAmong};
ghost use Rattle.res_ledger.specs.declared.event.Event.{Event};
ghost use Rattle.res_ledger.specs.declared.event.StreamNo.{StreamNo};
ghost use Rattle.res_ledger.specs.declared.event.StreamNo.TheVariants.{Inner};
ghost use Rattle.res_ledger.specs.declared.event.What.TheVariants.{Acquire, Cancel, Final, Lease, Open};
ghost use Rattle.res_ledger.specs.Ledger.{Covers, IsAcquired, IsCanceled, IsFinalized, IsLegal, MayFollow, Notes, NotesCancel};
ghost use Rattle.res_ledger.specs.Streams.{HasRight};
ghost use Rattle.ledger_books.specs.Keyed.{IsFirst, IsFirstIllegal, Indexes, IsSomeCover, NotesAt, is_acquire as is_acquire_of, is_lease as is_lease_of};
ghost use Rattle.ledger_books.specs.Kept.{Follows, Keeps};

use crate::ends::Ends;
use crate::index::{Index, Key, key_for};
use crate::jumps::Jumps;
use crate::lasts::{add_last, are_over};
use crate::leases::{are_canceled, covers, is_canceled, is_canceled_by, lease_at, leased};
use crate::scopes::{is_closed, is_usable, number, opened};
use crate::waits::Waits;
use res_ledger::{Event, StreamNo, What};
use std::alloc::{AllocError, Global};

/// What an audit keeps of the events so far: where each is noted, and where leases and rows are.
#[derive(Drop)]
pub struct Books {
    pub index: Index,
    pub jumps: Jumps,
    pub ends: Ends,
    pub lasts: Index,
    pub waits: Waits,
    pub leases: Vec<u64>,
    pub rows: Vec<u64>,
}

/// Where the row was acquired, by which stream and in which scope.
pub fn acquired(index: &Index, past: &[Event], row: u32) -> Option<(u64, StreamNo, u32)>
    requires { Indexes index.now past.now }
    ensures { MatchOption result (¬ (IsAcquired past.now row)) (λ t. NotesAt past.now t.0 t.1 (Acquire row t.2)) }
{
    let place = index.find(Key::Acquired(row))?;
    let event = past.get(place as usize)?;
    match event.what {
        What::Acquire { scope, .. } => Some((place, event.by, scope)),
        _ => None,
    }
}

/// Whether the row has its Final.
pub fn is_final(index: &Index, past: &[Event], row: u32) -> bool
    requires { Indexes index.now past.now }
    ensures { (result ≡ true) ↔ IsFinalized past.now row }
{
    index.has(Key::Finalized(row))
}

/// Whether the stream with this number noted something.
fn has_begun(index: &Index, past: &[Event], stream: u32) -> bool
    requires { Indexes index.now past.now }
    ensures { (result ≡ false) ↔ ((e : Event) → IsAmong e past.now → e.by ≢ Inner stream) }
{
    index.has(Key::Begun(u64::from(stream) + 1))
}

/// The streams whose leases cover the row.
pub fn covering(
    alloc: Global,
    books: &Books,
    past: &[Event],
    row: u32,
    at: u64,
    owner: StreamNo,
    of: u32,
) -> Result<Vec<u32>, AllocError>
    requires keeps { Keeps books.now past.now }
    requires legal { IsLegal past.now }
    requires row { NotesAt past.now at owner (Acquire row of) }
    ensures { IfOk result (λ js. (j : ℕ) → IsAmong j js.items ↔ IsSomeCover past.now j row) }
{
    let mut found = Vec::new(alloc);
    let mut n = books.leases.len();
    while n > 0 {
        n -= 1;
        let place = books.leases[n];
        if place <= at {
            return Ok(found);
        }
        let Some((by, stream, scope)) = lease_at(past, place) else {
            return Ok(found);
        };
        if covers(
            &books.index,
            &books.jumps,
            past,
            place,
            by,
            scope,
            row,
            at,
            owner,
            of,
        ) {
            found.push(stream)?;
        }
    }
    Ok(found)
}

/// Whether each lease that covers the row is canceled: so it is where those are that its stream
/// noted behind it, and where none sits in the rooms that matter; else the leases are gone through.
fn is_free(
    alloc: Global,
    books: &Books,
    past: &[Event],
    row: u32,
    at: u64,
    owner: StreamNo,
    of: u32,
) -> Result<bool, AllocError>
    requires keeps { Keeps books.now past.now }
    requires legal { IsLegal past.now }
    requires row { NotesAt past.now at owner (Acquire row of) }
    ensures { IfOk result (λ b. (b ≡ true) ↔ ((j : ℕ) (k : StreamNo) → Covers past.now j k row → IsCanceled past.now j)) }
{
    if books.ends.until(row) < past.len() as u64 {
        return Ok(true);
    }
    if books.waits.are_over(past, row, at, owner, of) {
        return Ok(true);
    }
    let leases = covering(alloc, books, past, row, at, owner, of)?;
    Ok(are_canceled(&books.index, past, &leases))
}

/// Whether the stream canceled its own lease, which covers the row.
fn has_inherited(
    books: &Books,
    past: &[Event],
    stream: u32,
    row: u32,
    at: u64,
    owner: StreamNo,
    of: u32,
) -> bool
    requires keeps { Keeps books.now past.now }
    requires legal { IsLegal past.now }
    requires row { NotesAt past.now at owner (Acquire row of) }
    ensures { (result ≡ true) ↔ ((q : StreamNo) × Covers past.now stream q row × NotesCancel past.now (Inner stream) stream) }
{
    let Some((place, lessor, scope)) = leased(&books.index, past, stream) else {
        return false;
    };
    if !covers(
        &books.index,
        &books.jumps,
        past,
        place,
        lessor,
        scope,
        row,
        at,
        owner,
        of,
    ) {
        return false;
    }
    is_canceled_by(&books.index, past, stream, StreamNo::Inner(stream))
}

/// Whether the stream acquired the row, or canceled a lease that covers it. A stream that canceled
/// the lease of another one had noted it, and so had acquired what it covers.
fn has_right(
    books: &Books,
    past: &[Event],
    by: StreamNo,
    row: u32,
    at: u64,
    owner: StreamNo,
    of: u32,
) -> bool
    requires keeps { Keeps books.now past.now }
    requires legal { IsLegal past.now }
    requires row { NotesAt past.now at owner (Acquire row of) }
    ensures { (result ≡ true) ↔ HasRight past.now by row }
{
    if number(by) == number(owner) {
        return true;
    }
    match by {
        StreamNo::Outer => false,
        StreamNo::Inner(stream) => has_inherited(books, past, stream, row, at, owner, of),
    }
}

/// Whether the stream may note the Final of the row.
fn may_end(
    alloc: Global,
    books: &Books,
    past: &[Event],
    by: StreamNo,
    row: u32,
) -> Result<bool, AllocError>
    requires keeps { Keeps books.now past.now }
    requires legal { IsLegal past.now }
    ensures { IfOk result (λ b. (x : Exit) (ok : Bool) → (b ≡ true) ↔ MayFollow past.now by (Final row x ok)) }
{
    let Some((at, owner, of)) = acquired(&books.index, past, row) else {
        return Ok(false);
    };
    if is_final(&books.index, past, row) {
        return Ok(false);
    }
    if !is_closed(&books.ends, past, owner, of) {
        return Ok(false);
    }
    if !is_free(alloc, books, past, row, at, owner, of)? {
        return Ok(false);
    }
    Ok(has_right(books, past, by, row, at, owner, of))
}

/// The row that was acquired at the place.
fn row_at(past: &[Event], place: u64) -> Option<(StreamNo, u32, u32)>
    ensures { MatchOption result ((k : StreamNo) (r s : ℕ) → ¬ (NotesAt past.now place k (Acquire r s))) (λ t. NotesAt past.now place t.0 (Acquire t.1 t.2)) }
{
    let event = past.get(place as usize)?;
    match event.what {
        What::Acquire { row, scope } => Some((event.by, row, scope)),
        _ => None,
    }
}

/// Whether the row that was acquired at the place is final, if it is the stream's.
fn row_is_final(index: &Index, past: &[Event], place: u64, stream: u32) -> bool
    requires { Indexes index.now past.now }
    ensures { (result ≡ true) ↔ ((r s : ℕ) → NotesAt past.now place (Inner stream) (Acquire r s) → IsFinalized past.now r) }
{
    let Some((by, row, _)) = row_at(past, place) else {
        return true;
    };
    if number(by) != number(StreamNo::Inner(stream)) {
        return true;
    }
    is_final(index, past, row)
}

/// Whether each row that the stream acquired is final, by a walk over the rows since it began.
fn rows_are_final(books: &Books, past: &[Event], stream: u32) -> bool
    requires { Keeps books.now past.now }
    ensures { (result ≡ true) ↔ ((r s : ℕ) → Notes past.now (Inner stream) (Acquire r s) → IsFinalized past.now r) }
{
    let Some(first) = books.index.find(Key::Begun(u64::from(stream) + 1)) else {
        return true;
    };
    let mut n = books.rows.len();
    while n > 0 {
        n -= 1;
        let place = books.rows[n];
        if place < first {
            return true;
        }
        if !row_is_final(&books.index, past, place, stream) {
            return false;
        }
    }
    true
}

/// Whether each row that the stream acquired is final. Where that is told ahead it is one look-up,
/// and else a walk.
fn are_final(books: &Books, past: &[Event], stream: u32) -> bool
    requires { Keeps books.now past.now }
    ensures { (result ≡ true) ↔ ((r s : ℕ) → Notes past.now (Inner stream) (Acquire r s) → IsFinalized past.now r) }
{
    if are_over(&books.lasts, &books.ends, past, StreamNo::Inner(stream)) {
        return true;
    }
    rows_are_final(books, past, stream)
}

/// Whether the stream may cancel the lease.
fn may_cancel(books: &Books, past: &[Event], by: StreamNo, stream: u32) -> bool
    requires keeps { Keeps books.now past.now }
    requires legal { IsLegal past.now }
    ensures { (x : Exit) → (result ≡ true) ↔ MayFollow past.now by (Cancel stream x) }
{
    let Some((_, lessor, _)) = leased(&books.index, past, stream) else {
        return false;
    };
    if is_canceled(&books.index, past, stream) {
        return false;
    }
    let own = number(by);
    if own == u64::from(stream) + 1 {
        return are_final(books, past, stream);
    }
    let other = number(lessor);
    if own != other {
        return false;
    }
    !has_begun(&books.index, past, stream)
}

/// Whether a scope may be opened so.
fn may_open(books: &Books, past: &[Event], by: StreamNo, scope: u32, parent: u32) -> bool
    requires keeps { Keeps books.now past.now }
    requires legal { IsLegal past.now }
    ensures { (result ≡ true) ↔ MayFollow past.now by (Open scope parent) }
{
    if scope == 0 {
        return false;
    }
    if opened(&books.index, past, by, scope).is_some() {
        return false;
    }
    is_usable(&books.index, &books.ends, past, by, parent)
}

/// Whether a row may be acquired so.
fn may_acquire(books: &Books, past: &[Event], by: StreamNo, row: u32, scope: u32) -> bool
    requires keeps { Keeps books.now past.now }
    requires legal { IsLegal past.now }
    ensures { (result ≡ true) ↔ MayFollow past.now by (Acquire row scope) }
{
    if acquired(&books.index, past, row).is_some() {
        return false;
    }
    is_usable(&books.index, &books.ends, past, by, scope)
}

/// Whether a scope may be leased so.
fn may_lease(books: &Books, past: &[Event], by: StreamNo, stream: u32, scope: u32) -> bool
    requires keeps { Keeps books.now past.now }
    requires legal { IsLegal past.now }
    ensures { (result ≡ true) ↔ MayFollow past.now by (Lease stream scope) }
{
    if leased(&books.index, past, stream).is_some() {
        return false;
    }
    if number(by) == number(StreamNo::Inner(stream)) {
        return false;
    }
    is_usable(&books.index, &books.ends, past, by, scope)
}

impl Books {
    /// Whether the event may follow those so far.
    pub fn may_follow(
        &self,
        alloc: Global,
        past: &[Event],
        event: Event,
    ) -> Result<bool, AllocError>
        requires keeps { Keeps self.now past.now }
        requires legal { IsLegal past.now }
        ensures { IfOk result (λ b. (b ≡ true) ↔ MayFollow past.now event.by event.what) }
    {
        let by = event.by;
        match event.what {
            What::Open { scope, parent } => Ok(may_open(self, past, by, scope, parent)),
            What::Acquire { row, scope } => Ok(may_acquire(self, past, by, row, scope)),
            What::Lease { stream, scope } => Ok(may_lease(self, past, by, stream, scope)),
            What::Cancel { stream, .. } => Ok(may_cancel(self, past, by, stream)),
            What::Close { scope, .. } => Ok(is_usable(&self.index, &self.ends, past, by, scope)),
            What::Final { row, .. } => may_end(alloc, self, past, by, row),
        }
    }
}

/// The place of the first event that may not follow those before it.
pub fn first_illegal(alloc: Global, events: &[Event]) -> Result<Option<u64>, AllocError>
    ensures { IfOk result (λ o. MatchOption o (IsLegal events.now) (IsFirstIllegal events.now)) }
{
    let mut books = Books::of(alloc, events)?;
    for (i, event) in events.iter().enumerate() {
        if !books.may_follow(alloc, &events[..i], *event)? {
            return Ok(Some(i as u64));
        }
        books.note(*event, i as u64)?;
    }
    Ok(None)
}

/// Adds the event that stands at the place to the index.
fn add_keys(index: &mut Index, event: Event, place: u64) -> Result<(), AllocError>
    ensures index { OnOk result ((P : List Event) → length P ≡ place → Indexes index.old P → Indexes index.new (P ++ event ∷ [])) }
    ensures first { OnOk result ((P : List Event) → length P ≡ place → Indexes index.old P → IsFirst index.old P → IsFirst index.new (P ++ event ∷ [])) }
{
    index.add(key_for(event.by, event.what), place)?;
    index.add_first(Key::Begun(number(event.by)), place)
}

fn is_lease(what: What) -> bool
    ensures { result ≡ is_lease_of what }
{
    matches!(what, What::Lease { .. })
}

fn is_acquire(what: What) -> bool
    ensures { result ≡ is_acquire_of what }
{
    matches!(what, What::Acquire { .. })
}

/// Adds the place to the list where the event passes.
fn add_place(places: &mut Vec<u64>, passes: bool, place: u64) -> Result<(), AllocError>
    ensures { OnOk result (places.new.items ≡ (if passes then places.old.items ++ place ∷ [] else places.old.items)) }
{
    if passes {
        places.push(place)?;
    }
    Ok(())
}

impl Books {
    /// In front of the first of these events.
    pub fn of(alloc: Global, events: &[Event]) -> Result<Books, AllocError>
        ensures { IfOk result (λ b. Follows b events.now []) }
    {
        let ends = Ends::of(alloc, events)?;
        let waits = Waits::of(alloc, events, &ends)?;
        Ok(Books {
            index: Index::new(alloc),
            jumps: Jumps::new(alloc),
            ends,
            lasts: Index::new(alloc),
            waits,
            leases: Vec::new(alloc),
            rows: Vec::new(alloc),
        })
    }

    /// Keeps one event more.
    pub fn note(&mut self, event: Event, place: u64) -> Result<(), AllocError>
        ensures { OnOk result ((L P Q : List Event) → length P ≡ place → L ≡ P ++ event ∷ Q → IsLegal (P ++ event ∷ []) → Follows self.old L P → Follows self.new L (P ++ event ∷ [])) }
    {
        add_keys(&mut self.index, event, place)?;
        self.jumps.note(event)?;
        self.ends.note(event)?;
        add_last(&mut self.lasts, &self.ends, event)?;
        self.waits.note(event, place)?;
        add_place(&mut self.leases, is_lease(event.what), place)?;
        add_place(&mut self.rows, is_acquire(event.what), place)
    }
}
