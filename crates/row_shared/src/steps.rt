//! Each step on the table, alone: one operation on one word, or on a slot that the seat holds.
ghost use Rattle.std.specs.Prelude.{◌≡◌, ◌≢◌, ℕ, ◌+◌, ◌-◌, ◌<◌, ◌≤◌, ◌^◌, true, [], List, Option, Some};
ghost use Rattle.chunk_core.specs.Lists.{IsAmong};
ghost use Rattle.res_ledger.specs.declared.event.What.TheVariants.{Acquire, Lease};
ghost use Rattle.res_ledger.specs.declared.event.StreamNo.TheVariants.{Inner};
ghost use Rattle.res_ledger.specs.Ledger.{IsAcquired, IsClosed, IsLeased, Notes, NotesCancel};
ghost use Rattle.row_seat.specs.Rule.{view_of};
ghost use Rattle.row_seat.specs.Views.{MayNote, IsWithin};
ghost use Rattle.row_seat.specs.Steps.{joined, split_main, split_off, took};
ghost use Rattle.row_shared.specs.Places.{IsOfTable, TookIn, holding, idle};
ghost use Rattle.row_shared.specs.Told.{Closed, Ended, Fetched, Gave, IsIdle, Joined, Leased, Lifted, Met, Placed, Quit, Shut, Taken, Ticked};

use crate::table::{
    About, Cuts, Ends, Fetches, Leases, Lifts, Meets, Merges, Places, Quits, Returns, RowPass,
    RowShared, Shuts, Ticks,
};
use chunk_core::Span;
use res_ledger::{StreamNo, What};
use row_seat::view::Left;
use row_seat::words::{CLOSE, LEASE, OPEN};
use std::marker::Brand;

// What a close finds where no lease stands on the row.
const FREE: u64 = 1;

// What a leave finds where the row is closed and this is its last lease.
const LAST: u64 = 7;

// The word of the next stamp.
pub(crate) const STAMP: usize = 0;

fn tick_as<P, W: About>(table: &RowShared<P>, pass: &mut RowPass<P>, what: What) -> u64
    requires said { (W.what ≡ what) × (W.room ≡ table.now.key.events) }
    requires table { IsOfTable pass.old.table_id table.now.table_id table.now.key }
    requires idle { IsIdle pass.old.me }
    requires room { 1 ≤ pass.old.me.0.token.spare }
    requires event { (hands : List (ℕ × P)) × MayNote (view_of pass.old.me.0.token hands) what }
    ensures table { pass.new.table_id ≡ pass.old.table_id }
    ensures told { Ticked table.now.table_id.slots W.what W.room pass.old.me.0.token result pass.new.me }
{
    let _ = what;
    table.fetch_add::<Ticks<W>>(pass, STAMP, 1)
}

/// Notes an event, and answers its stamp.
pub fn tick<P>(table: &RowShared<P>, pass: &mut RowPass<P>, what: What) -> u64
    requires table { IsOfTable pass.old.table_id table.now.table_id table.now.key }
    requires idle { IsIdle pass.old.me }
    requires room { 1 ≤ pass.old.me.0.token.spare }
    requires event { (hands : List (ℕ × P)) × MayNote (view_of pass.old.me.0.token hands) what }
    ensures table { pass.new.table_id ≡ pass.old.table_id }
    ensures told { Ticked table.now.table_id.slots what table.now.key.events pass.old.me.0.token result pass.new.me }
{
    tick_as::<P, Brand>(table, pass, what)
}

/// Places a row.
pub fn place<P>(table: &RowShared<P>, pass: &mut RowPass<P>, row: u32)
    requires table { IsOfTable pass.old.table_id table.now.table_id table.now.key }
    requires idle { IsIdle pass.old.me }
    requires inside { row < table.now.table_id.slots }
    requires row { IsAmong row pass.old.me.0.token.empty × ((s : ℕ) × Notes pass.old.me.0.token.events pass.old.me.0.token.by (Acquire row s)) }
    ensures table { pass.new.table_id ≡ pass.old.table_id }
    ensures told { Placed table.now.table_id.slots row pass.old.me.0.token pass.new.me }
{
    table.store::<Places>(pass, row as usize + 1, OPEN)
}

fn lease_as<P, W: About>(table: &RowShared<P>, pass: &mut RowPass<P>, stream: u32, row: u32)
    requires said { W.stream ≡ stream }
    requires table { IsOfTable pass.old.table_id table.now.table_id table.now.key }
    requires idle { IsIdle pass.old.me }
    requires main { pass.old.me.0.token.main ≡ true }
    requires inside { row < table.now.table_id.slots }
    requires row { IsAmong row pass.old.me.0.token.opened × ¬ (IsAmong (stream, row) pass.old.me.0.token.pairs) }
    requires stream { ¬ (IsLeased pass.old.me.0.token.events stream) × ¬ (IsAmong stream pass.old.me.0.token.had) }
    ensures table { pass.new.table_id ≡ pass.old.table_id }
    ensures told { Leased table.now.table_id.slots W.stream row pass.old.me.0.token pass.new.me }
{
    let _ = stream;
    table.fetch_add::<Leases<W>>(pass, row as usize + 1, LEASE);
}

/// Adds a lease of a row.
pub fn lease<P>(table: &RowShared<P>, pass: &mut RowPass<P>, stream: u32, row: u32)
    requires table { IsOfTable pass.old.table_id table.now.table_id table.now.key }
    requires idle { IsIdle pass.old.me }
    requires main { pass.old.me.0.token.main ≡ true }
    requires inside { row < table.now.table_id.slots }
    requires row { IsAmong row pass.old.me.0.token.opened × ¬ (IsAmong (stream, row) pass.old.me.0.token.pairs) }
    requires stream { ¬ (IsLeased pass.old.me.0.token.events stream) × ¬ (IsAmong stream pass.old.me.0.token.had) }
    ensures table { pass.new.table_id ≡ pass.old.table_id }
    ensures told { Leased table.now.table_id.slots stream row pass.old.me.0.token pass.new.me }
{
    lease_as::<P, Brand>(table, pass, stream, row)
}

fn quit_as<P, W: About>(table: &RowShared<P>, pass: &mut RowPass<P>, stream: u32, row: u32) -> u64
    requires said { W.stream ≡ stream }
    requires table { IsOfTable pass.old.table_id table.now.table_id table.now.key }
    requires idle { IsIdle pass.old.me }
    requires inside { row < table.now.table_id.slots }
    requires pair { IsAmong (stream, row) pass.old.me.0.token.pairs × NotesCancel pass.old.me.0.token.events pass.old.me.0.token.by stream }
    ensures table { pass.new.table_id ≡ pass.old.table_id }
    ensures told { Quit table.now.table_id.slots W.stream row pass.old.me.0.token result pass.new.me }
{
    let _ = stream;
    table.fetch_sub::<Quits<W>>(pass, row as usize + 1, LEASE)
}

/// Gives up a lease of a row.
pub fn leave<P>(table: &RowShared<P>, pass: &mut RowPass<P>, stream: u32, row: u32) -> Left
    requires table { IsOfTable pass.old.table_id table.now.table_id table.now.key }
    requires idle { IsIdle pass.old.me }
    requires inside { row < table.now.table_id.slots }
    requires pair { IsAmong (stream, row) pass.old.me.0.token.pairs × NotesCancel pass.old.me.0.token.events pass.old.me.0.token.by stream }
    ensures table { pass.new.table_id ≡ pass.old.table_id }
    ensures told { Gave table.now.table_id.slots stream row result pass.old.me.0.token pass.new.me }
{
    let found = quit_as::<P, Brand>(table, pass, stream, row);
    if found == LAST {
        Left::Yours
    } else {
        Left::Stays
    }
}

// The slot that the seat holds gets what is new, and gives what was in it.
fn turn_slot<P>(table: &RowShared<P>, pass: &mut RowPass<P>, row: u32, new: Option<P>) -> Option<P>
    requires table { pass.old.table_id ≡ table.now.table_id }
    requires held { (y : Option P) × (pass.old.me ≡ holding pass.old.me.0.token row y) }
    ensures table { pass.new.table_id ≡ pass.old.table_id }
    ensures was { pass.old.me ≡ holding pass.old.me.0.token row result }
    ensures is { pass.new.me ≡ holding pass.old.me.0.token row new }
{
    table.exchange(pass, row as usize, new)
}

// Takes the slot of an open row.
fn lift<P>(table: &RowShared<P>, pass: &mut RowPass<P>, row: u32)
    requires table { IsOfTable pass.old.table_id table.now.table_id table.now.key }
    requires idle { IsIdle pass.old.me }
    requires inside { row < table.now.table_id.slots }
    requires row { IsAmong row pass.old.me.0.token.opened }
    ensures table { pass.new.table_id ≡ pass.old.table_id }
    ensures told { Lifted row pass.old.me.0.token pass.new.me }
{
    table.load::<Lifts>(pass, row as usize + 1);
}

// Closes a row, and gives its slot back.
fn shut<P>(table: &RowShared<P>, pass: &mut RowPass<P>, row: u32) -> u64
    requires table { IsOfTable pass.old.table_id table.now.table_id table.now.key }
    requires seat { (pass.old.me.0.token.live ≡ true) × ((p : P) × (pass.old.me ≡ holding pass.old.me.0.token row (Some p))) }
    requires inside { row < table.now.table_id.slots }
    requires row { IsAmong row pass.old.me.0.token.opened }
    requires closed { (s : ℕ) × Notes pass.old.me.0.token.events pass.old.me.0.token.by (Acquire row s) × IsClosed pass.old.me.0.token.events pass.old.me.0.token.by s }
    requires named { (j : ℕ) → IsAmong (j, row) pass.old.me.0.token.pairs → (t : ℕ) × Notes pass.old.me.0.token.events pass.old.me.0.token.by (Lease j t) }
    ensures table { pass.new.table_id ≡ pass.old.table_id }
    ensures told { Shut table.now.table_id.slots row pass.old.me result pass.new.me }
{
    table.fetch_or::<Shuts>(pass, row as usize + 1, CLOSE)
}

/// Puts the payload of a row into its slot, and then closes the row.
pub fn close<P: Drop>(table: &RowShared<P>, pass: &mut RowPass<P>, row: u32, pay: P) -> Left
    requires table { IsOfTable pass.old.table_id table.now.table_id table.now.key }
    requires idle { IsIdle pass.old.me }
    requires inside { row < table.now.table_id.slots }
    requires row { IsAmong row pass.old.me.0.token.opened }
    requires closed { (s : ℕ) × Notes pass.old.me.0.token.events pass.old.me.0.token.by (Acquire row s) × IsClosed pass.old.me.0.token.events pass.old.me.0.token.by s }
    requires named { (j : ℕ) → IsAmong (j, row) pass.old.me.0.token.pairs → (t : ℕ) × Notes pass.old.me.0.token.events pass.old.me.0.token.by (Lease j t) }
    ensures table { pass.new.table_id ≡ pass.old.table_id }
    ensures told { Closed table.now.table_id.slots row pay result pass.old.me.0.token pass.new.me }
{
    lift(table, pass, row);
    let _ = turn_slot(table, pass, row, Some(pay));
    let found = shut(table, pass, row);
    if found == FREE {
        Left::Yours
    } else {
        Left::Stays
    }
}

// Takes the slot of a row that was handed over.
fn fetch<P>(table: &RowShared<P>, pass: &mut RowPass<P>, row: u32)
    requires table { IsOfTable pass.old.table_id table.now.table_id table.now.key }
    requires idle { IsIdle pass.old.me }
    requires inside { row < table.now.table_id.slots }
    requires row { IsAmong row pass.old.me.0.token.handed × ¬ (IsAmong row pass.old.me.0.token.taken) }
    ensures table { pass.new.table_id ≡ pass.old.table_id }
    ensures told { Fetched row pass.old.me.0.token pass.new.me }
{
    table.load::<Fetches>(pass, row as usize + 1);
}

// Gives the slot of a row back that was taken.
fn give_back<P>(table: &RowShared<P>, pass: &mut RowPass<P>, row: u32)
    requires table { IsOfTable pass.old.table_id table.now.table_id table.now.key }
    requires seat { (pass.old.me.0.token.live ≡ true) × ((y : Option P) × (pass.old.me ≡ holding pass.old.me.0.token row y)) }
    requires inside { row < table.now.table_id.slots }
    requires row { IsAmong row pass.old.me.0.token.handed × IsAmong row pass.old.me.0.token.taken }
    ensures table { pass.new.table_id ≡ pass.old.table_id }
    ensures told { pass.new.me ≡ idle pass.old.me.0.token }
{
    table.load::<Returns>(pass, row as usize + 1);
}

/// The payload of a row that was handed to the seat.
pub fn take<P: Drop>(table: &RowShared<P>, pass: &mut RowPass<P>, row: u32) -> P
    requires table { IsOfTable pass.old.table_id table.now.table_id table.now.key }
    requires idle { IsIdle pass.old.me }
    requires inside { row < table.now.table_id.slots }
    requires row { IsAmong row pass.old.me.0.token.handed × ¬ (IsAmong row pass.old.me.0.token.taken) }
    ensures table { pass.new.table_id ≡ pass.old.table_id }
    ensures told { Taken row result pass.old.me.0.token pass.new.me }
{
    fetch(table, pass, row);
    let Some(pay) = turn_slot(table, pass, row, None) else {
        unreachable!()
    };
    give_back(table, pass, row);
    pay
}

fn split_as<P, W: About>(
    table: &RowShared<P>,
    pass: &mut RowPass<P>,
    stream: u32,
    rows: Span,
    events: u64,
) -> RowPass<P>
    requires said { (W.stream ≡ stream) × (W.from ≡ rows.from) × (W.to ≡ rows.to) × (W.count ≡ events) }
    requires table { IsOfTable pass.old.table_id table.now.table_id table.now.key }
    requires idle { IsIdle pass.old.me }
    requires main { pass.old.me.0.token.main ≡ true }
    requires stream { (pass.old.me.0.token.by ≢ Inner W.stream) × ¬ (IsAmong W.stream pass.old.me.0.token.had) }
    requires rows { (r : ℕ) → IsWithin W.from W.to r → IsAmong r pass.old.me.0.token.empty × ¬ (IsAcquired pass.old.me.0.token.events r) }
    requires room { W.count ≤ pass.old.me.0.token.spare }
    requires named { (r : ℕ) → IsAmong (W.stream, r) pass.old.me.0.token.pairs → IsLeased pass.old.me.0.token.events W.stream }
    ensures table { (pass.new.table_id ≡ pass.old.table_id) × (result.table_id ≡ pass.old.table_id) }
    ensures main { pass.new.me ≡ idle (split_main pass.old.me.0.token W.stream W.from W.to W.count) }
    ensures other { result.me ≡ idle (split_off pass.old.me.0.token W.stream W.from W.to W.count) }
{
    let _ = (stream, rows, events);
    table.split_seat::<Cuts<W>>(pass)
}

/// Makes the seat of a stream.
pub fn split<P>(
    table: &RowShared<P>,
    pass: &mut RowPass<P>,
    stream: u32,
    rows: Span,
    events: u64,
) -> RowPass<P>
    requires table { IsOfTable pass.old.table_id table.now.table_id table.now.key }
    requires idle { IsIdle pass.old.me }
    requires main { pass.old.me.0.token.main ≡ true }
    requires stream { (pass.old.me.0.token.by ≢ Inner stream) × ¬ (IsAmong stream pass.old.me.0.token.had) }
    requires rows { (r : ℕ) → IsWithin rows.from rows.to r → IsAmong r pass.old.me.0.token.empty × ¬ (IsAcquired pass.old.me.0.token.events r) }
    requires room { events ≤ pass.old.me.0.token.spare }
    requires named { (r : ℕ) → IsAmong (stream, r) pass.old.me.0.token.pairs → IsLeased pass.old.me.0.token.events stream }
    ensures table { (pass.new.table_id ≡ pass.old.table_id) × (result.table_id ≡ pass.old.table_id) }
    ensures main { pass.new.me ≡ idle (split_main pass.old.me.0.token stream rows.from rows.to events) }
    ensures other { result.me ≡ idle (split_off pass.old.me.0.token stream rows.from rows.to events) }
{
    split_as::<P, Brand>(table, pass, stream, rows, events)
}

fn join_as<P, W: About>(
    table: &RowShared<P>,
    pass: &mut RowPass<P>,
    other: RowPass<P>,
    name: StreamNo,
)
    requires said { (W.name ≡ name) × (name ≡ other.me.0.token.by) }
    requires table { IsOfTable pass.old.table_id table.now.table_id table.now.key × (other.table_id ≡ table.now.table_id) }
    requires idle { IsIdle pass.old.me × IsIdle other.me }
    requires main { pass.old.me.0.token.main ≡ true }
    requires two { TookIn (joined pass.old.me.0.token other.me.0.token) pass.old.me.0.token other.me.0.token }
    requires rest { (other.me.0.token.pairs ≡ []) × (other.me.0.token.kept ≡ []) × (other.me.0.token.handed ≡ []) }
    ensures table { pass.new.table_id ≡ pass.old.table_id }
    ensures told { pass.new.me ≡ idle (joined pass.old.me.0.token other.me.0.token) }
{
    let _ = name;
    table.join_seat::<Merges<W>>(pass, other)
}

fn meet_as<P, W: About>(table: &RowShared<P>, pass: &mut RowPass<P>)
    requires said { W.room ≡ table.now.key.events }
    requires table { IsOfTable pass.old.table_id table.now.table_id table.now.key }
    requires idle { IsIdle pass.old.me }
    ensures table { pass.new.table_id ≡ pass.old.table_id }
    ensures told { Met table.now.table_id.slots W.room pass.old.me.0.token pass.new.me }
{
    table.load::<Meets<W>>(pass, STAMP);
}

// Looks at the table after a seat was taken in.
fn meet<P>(table: &RowShared<P>, pass: &mut RowPass<P>)
    requires table { IsOfTable pass.old.table_id table.now.table_id table.now.key }
    requires idle { IsIdle pass.old.me }
    ensures table { pass.new.table_id ≡ pass.old.table_id }
    ensures told { Met table.now.table_id.slots table.now.key.events pass.old.me.0.token pass.new.me }
{
    meet_as::<P, Brand>(table, pass)
}

/// Takes a seat in, and looks at the table.
pub fn join<P>(table: &RowShared<P>, pass: &mut RowPass<P>, other: RowPass<P>, name: StreamNo)
    requires said { name ≡ other.me.0.token.by }
    requires table { IsOfTable pass.old.table_id table.now.table_id table.now.key × (other.table_id ≡ table.now.table_id) }
    requires idle { IsIdle pass.old.me × IsIdle other.me }
    requires main { pass.old.me.0.token.main ≡ true }
    requires two { TookIn (joined pass.old.me.0.token other.me.0.token) pass.old.me.0.token other.me.0.token }
    requires rest { (other.me.0.token.pairs ≡ []) × (other.me.0.token.kept ≡ []) × (other.me.0.token.handed ≡ []) }
    ensures table { pass.new.table_id ≡ pass.old.table_id }
    ensures told { Joined table.now.table_id.slots table.now.key.events pass.old.me.0.token other.me.0.token pass.new.me }
{
    join_as::<P, Brand>(table, pass, other, name);
    meet(table, pass)
}

/// Looks at the table when all seats are in.
pub fn end<P>(table: &RowShared<P>, pass: &mut RowPass<P>)
    requires table { IsOfTable pass.old.table_id table.now.table_id table.now.key }
    requires idle { IsIdle pass.old.me }
    requires main { (pass.old.me.0.token.main ≡ true) × (pass.old.me.0.token.out ≡ []) }
    requires unused { (r : ℕ) → IsAmong r pass.old.me.0.token.empty → ¬ (IsAcquired pass.old.me.0.token.events r) }
    requires rest { (pass.old.me.0.token.opened ≡ []) × (pass.old.me.0.token.pairs ≡ []) × (pass.old.me.0.token.kept ≡ []) × (pass.old.me.0.token.handed ≡ []) }
    ensures told { Ended pass.old.me.0.token pass.new.me }
{
    table.load::<Ends>(pass, STAMP);
}
