//! Threads at one table, each with a seat of its own: they note, or live through rows of their own.
ghost use Rattle.std.specs.Prelude.{◌≡◌, ℕ, ◌+◌, ◌-◌, ◌*◌, ◌≤◌, [], IfOk, OnOk};
ghost use Rattle.std.specs.Thread.{IsSync};
ghost use Rattle.row_shared.specs.Seats.{SharedFits, shown};
ghost use Rattle.seat_bench.specs.Rows.{IsHost};
ghost use Rattle.seat_bench.specs.Workers.{IsReady};

use crate::rows::live_alone;
use chunk_core::Span;
use res_ledger::StreamNo;
use row_seat::RowSeat;
use row_shared::{SharedSeat, TableRef};
use shared_scripts::notes::note_scopes;
use std::alloc::{AllocError, Global};
use std::thread::{Threads, join};
use tree_scripts::scripts::Coin;

/// One thread's notes, with a seat and a handle of its own.
fn note_each(mut seat: SharedSeat<u32>, mut desk: TableRef<u32>, count: u32)
    requires fits { SharedFits seat desk }
    requires start { (shown seat).events ≡ [] }
    requires room { count ≤ (shown seat).spare }
{
    note_scopes(&mut seat, &mut desk, count);
}

/// Two threads' notes.
fn note_in_two<R: Threads + Sync>(
    rt: &R,
    one: SharedSeat<u32>,
    first: TableRef<u32>,
    two: SharedSeat<u32>,
    second: TableRef<u32>,
    count: u32,
)
    requires fits { SharedFits one first × SharedFits two second }
    requires start { ((shown one).events ≡ []) × ((shown two).events ≡ []) }
    requires room { (count ≤ (shown one).spare) × (count ≤ (shown two).spare) }
{
    join(
        rt,
        || -> ()
            requires fits { SharedFits one first }
            requires start { (shown one).events ≡ [] }
            requires room { count ≤ (shown one).spare }
        { note_each(one, first, count) },
        || -> ()
            requires fits { SharedFits two second }
            requires start { (shown two).events ≡ [] }
            requires room { count ≤ (shown two).spare }
        { note_each(two, second, count) },
    );
}

/// Two threads note so many events each at one table.
pub fn two_threads_note<R: Threads + Sync>(
    rt: &R,
    alloc: Global,
    count: u32,
) -> Result<u64, AllocError> {
    let (mut seat, mut desk) = SharedSeat::<u32>::new(
        alloc,
        StreamNo::Outer,
        0,
        3,
        2 * count as u64,
    )?;
    let none = Span { from: 0, to: 0 };
    let one = seat.split(alloc, &mut desk, 1, none, count as u64)?;
    let two = seat.split(alloc, &mut desk, 2, none, count as u64)?;
    let first = desk.share()?;
    let second = desk.share()?;
    note_in_two(rt, one, first, two, second, count);
    Ok(2 * count as u64)
}

/// A thread's seat, with a handle of its own and rows that nobody leases.
#[derive(Drop)]
struct Worker {
    seat: SharedSeat<Coin>,
    desk: TableRef<Coin>,
    rows: Span,
}

impl Worker {
    fn work(self)
        requires { IsReady self }
    {
        let Worker {
            mut seat,
            mut desk,
            rows,
        } = self;
        let pay = Coin { good: true };
        live_alone(&mut seat, &mut desk, rows.from, rows.to, pay);
    }
}

/// Splits the seat of a stream off, with these rows.
fn hire(
    alloc: Global,
    seat: &mut SharedSeat<Coin>,
    desk: &mut TableRef<Coin>,
    stream: u32,
    rows: Span,
) -> Result<Worker, AllocError>
    requires fits { SharedFits seat.old desk.old }
    requires span { rows.from ≤ rows.to }
    requires host { (to room splits : ℕ) × IsHost (shown seat.old) stream rows.from to room (splits + 1) × (rows.to ≤ to) × (7 * (rows.to - rows.from) ≤ room) }
    ensures host { OnOk result ((to room splits : ℕ) → IsHost (shown seat.old) stream rows.from to room (splits + 1) → rows.to ≤ to → 7 * (rows.to - rows.from) ≤ room → IsHost (shown seat.new) (stream + 1) rows.to to (room - 7 * (rows.to - rows.from)) splits) }
    ensures ready { IfOk result IsReady }
    ensures fits { SharedFits seat.new desk.new }
{
    let events = 7 * (rows.to - rows.from) as u64;
    let own = seat.split(alloc, desk, stream, rows, events)?;
    Ok(Worker {
        seat: own,
        desk: desk.share()?,
        rows,
    })
}

fn work_in_two<R: Threads + Sync>(rt: &R, one: Worker, two: Worker)
    requires { IsReady one × IsReady two }
{
    join(
        rt,
        || -> ()
            requires { IsReady one }
        { one.work() },
        || -> ()
            requires { IsReady two }
        { two.work() },
    );
}

fn work_in_four<R: Threads + Sync>(rt: &R, one: Worker, two: Worker, three: Worker, four: Worker)
    requires { IsReady one × IsReady two × IsReady three × IsReady four }
{
    join(
        rt,
        || -> ()
            requires { IsSync R.row × IsReady one × IsReady two }
        { work_in_two(rt, one, two) },
        || -> ()
            requires { IsSync R.row × IsReady three × IsReady four }
        { work_in_two(rt, three, four) },
    );
}

/// So many rows of one seat at a table that threads share, without leases.
pub fn one_works(alloc: Global, count: u32) -> Result<u64, AllocError> {
    let events = 7 * count as u64;
    let (mut seat, mut desk) = SharedSeat::new(alloc, StreamNo::Outer, count, 1, events)?;
    live_alone(&mut seat, &mut desk, 0, count, Coin { good: true });
    Ok(count as u64)
}

/// So many rows at a table that threads share, without leases, a fourth of them in each of four threads.
pub fn four_work<R: Threads + Sync>(rt: &R, alloc: Global, count: u32) -> Result<u64, AllocError> {
    let part = count / 4;
    let events = 7 * count as u64;
    let (mut seat, mut desk) = SharedSeat::new(alloc, StreamNo::Outer, count, 5, events)?;
    let (b, c, d, e) = (part, 2 * part, 3 * part, 4 * part);
    let one = hire(alloc, &mut seat, &mut desk, 1, Span { from: 0, to: b })?;
    let two = hire(alloc, &mut seat, &mut desk, 2, Span { from: b, to: c })?;
    let three = hire(alloc, &mut seat, &mut desk, 3, Span { from: c, to: d })?;
    let four = hire(alloc, &mut seat, &mut desk, 4, Span { from: d, to: e })?;
    work_in_four(rt, one, two, three, four);
    Ok(e as u64)
}
