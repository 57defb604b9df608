//! The tables of a run that gives no stream, by a caller that sees public clauses alone, over devices
//! in memory.
ghost use Rattle.std.specs.Prelude.{◌≡◌, ◌+◌, ◌*◌, ◌^◌, ◌<◌, ◌≤◌, length, vec_len, IfOk};
ghost use Rattle.res_ledger.specs.declared.event.StreamNo.TheVariants.{Outer};
ghost use Rattle.row_seat.specs.Views.{start};
ghost use Rattle.tree_laws.specs.Whole.{IsWholeLedger};
ghost use Rattle.scope_tree.specs.Visible.{row_room};

use crate::asserts::{prints, same};
use chunk_core::{Code, Exit, Line, List, Word};
use csv_pipes::Dicts;
use device_port::{Act, Depot, FileOf, MemDepot, MemDevice, Trip};
use join_tree::{begin, close_outer, settle};
use outer_tables::{NotRead, read_tables};
use pipeline_desc::TableSpec;
use pull_stepper::Held;
use res_ledger::{Ledger, StreamNo};
use row_seat::{PlainSeat, RowSeat};
use scope_tree::{Room, Spent};
use std::alloc::{AllocError, Global};
use std::process::Abort;
use std::test::Fail;

/// What became of the tables of a run that gives no stream.
#[derive(Drop)]
struct Told<V> {
    read: Result<(), NotRead>,
    ledger: Ledger,
    rows: List<Spent<Held<V>>>,
}

/// Reads the tables, and ends the outer stream behind them.
fn read_and_end<D: Depot, S: RowSeat<Pay = Held<D::Dev>>>(
    alloc: Global,
    seat: S,
    room: Room<Held<D::Dev>>,
    desk: &mut S::Desk,
    tables: &[TableSpec],
    depot: &mut D,
) -> Told<D::Dev>
    requires fits { S.fits seat desk.old }
    requires start { S.view seat ≡ start Outer (length tables.now) (2 * length tables.now + 1) (S.view seat).splits }
    requires room { length tables.now ≤ row_room room }
    requires few { length tables.now < 2 ^ 32 }
    ensures { IsWholeLedger result.ledger }
{
    let mut tree = begin(seat, room);
    let mut dicts = Dicts::new(alloc);
    let read = read_tables(alloc, &mut tree, desk, 0, 0, tables, &mut dicts, depot);
    let exit = match read {
        Ok(()) => Exit::Succeeded,
        Err(NotRead::Fault(_)) => Exit::Errored,
        Err(NotRead::Memory) => Exit::Canceled,
    };
    close_outer(&mut tree, desk, exit);
    let (ledger, rows) = settle(tree, desk);
    Told { read, ledger, rows }
}

/// The tables at these paths, each under its path's name.
fn tables_at(alloc: Global, paths: &[&str]) -> Result<Vec<TableSpec>, AllocError>
    ensures { IfOk result (λ tables. vec_len tables ≡ length paths.now) }
{
    let mut tables = Vec::new(alloc);
    for path in paths {
        tables.push(TableSpec {
            name: Word::of(alloc, path)?,
            path: Word::of(alloc, path)?,
        })?;
    }
    Ok(tables)
}

/// Reads the tables at these paths, and ends the outer stream behind them.
fn read_at(
    alloc: Global,
    depot: &mut MemDepot,
    paths: &[&str],
) -> Result<Told<MemDevice>, AllocError>
    requires { length paths.now < 2 ^ 16 }
{
    let tables = tables_at(alloc, paths)?;
    let count = tables.len();
    let (seat, mut desk) = PlainSeat::new(
        alloc,
        StreamNo::Outer,
        count as u32,
        2 * count as u64 + 1,
    )?;
    let room = Room::new(alloc, 1, count as u32)?;
    Ok(read_and_end(alloc, seat, room, &mut desk, &tables, depot))
}

/// The files `t` and `u`, of which the second read of `t` may fail.
fn depot(alloc: Global, t: &[u8], u: &[u8], fails: bool) -> Result<MemDepot, AllocError> {
    let mut files = List::new(alloc);
    files.push(FileOf {
        path: Word::of(alloc, "t")?,
        bytes: Line::copy_of(alloc, t)?,
    })?;
    files.push(FileOf {
        path: Word::of(alloc, "u")?,
        bytes: Line::copy_of(alloc, u)?,
    })?;
    let mut trips = List::new(alloc);
    if fails {
        trips.push(Trip {
            path: Word::of(alloc, "t")?,
            act: Act::Read,
            nth: 2,
        })?;
    }
    MemDepot::new(alloc, files, trips)
}

/// Why the tables weren't read, if they weren't.
fn why_not(told: &Told<MemDevice>) -> Option<NotRead> {
    match told.read {
        Ok(()) => None,
        Err(why) => Some(why),
    }
}

/// Fails the test unless the first of the rows have devices with these numbers, at these places.
fn begin_at(rt: &impl Abort, rows: List<Spent<Held<MemDevice>>>, want: &[(u64, usize)]) {
    let mut rows = rows.into_vec();
    for place in want {
        same(rt, next_row(&mut rows), Some(*place));
    }
}

/// The number and the place of the device in the first of the rows that are left.
fn next_row(rows: &mut Vec<Spent<Held<MemDevice>>>) -> Option<(u64, usize)> {
    let Spent { pay, .. } = rows.pop()?;
    let device = pay.into_device();
    Some((device.facts().number, device.facts().at))
}

#[test]
fn the_third_table_is_not_there(rt: HostRuntime) -> Result<(), Fail> {
    let alloc = rt.alloc();
    let mut depot = depot(alloc, b"k,v\n", b"", false)?;
    let told = read_at(alloc, &mut depot, &["t", "u", "w", "t"])?;
    same(&rt, why_not(&told), Some(NotRead::Fault(Code::Open)));
    prints(
        &rt,
        alloc,
        &told.ledger,
        b"ledger 5
outer acquire 0 0
outer acquire 1 0
outer close 0 errored
outer final 1 errored ok
outer final 0 errored ok
",
    )?;
    same(&rt, depot.made().len(), 3);
    same(&rt, depot.retired().len(), 1);
    Ok(())
}

#[test]
fn a_read_fails(rt: HostRuntime) -> Result<(), Fail> {
    let alloc = rt.alloc();
    let long = vec![in alloc; b'x'; 5000]?;
    let mut depot = depot(alloc, &long, b"k,v\n", true)?;
    let told = read_at(alloc, &mut depot, &["u", "t"])?;
    same(&rt, why_not(&told), Some(NotRead::Fault(Code::Read)));
    begin_at(&rt, told.rows, &[(0, 4), (1, 4096)]);
    Ok(())
}
