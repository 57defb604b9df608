//! The room of a rotation, made before its first device.
ghost use Rattle.std.specs.Prelude.{IfOk};
ghost use Rattle.rotate_run.specs.Rooms.{IsRoom};

use pull_stepper::Held;
use res_ledger::StreamNo;
use row_seat::{PlainSeat, PlainTable};
use run_rules::EndOf;
use std::alloc::{AllocError, Global};

/// The most bytes of one read.
const READ_SIZE: usize = 4096;

/// A row for the file that is read, and one for each of the 1,024 files; as many scopes, with the root.
const ROWS: u32 = 1025;

/// Four events for each file, two for the file that is read, and the Close of the root.
const EVENTS: u64 = 4099;

/// A seat with its table, and room for a tree, for the end and for what is read.
#[derive(Drop)]
pub(crate) struct Room<V> {
    pub(crate) seat: PlainSeat<Held<V>>,
    pub(crate) table: PlainTable<Held<V>>,
    pub(crate) scopes: scope_tree::Room<Held<V>>,
    pub(crate) ends: Vec<EndOf>,
    pub(crate) buffer: Vec<u8>,
}

/// Makes the room of a rotation of stream 0.
pub(crate) fn make_room<V: Drop>(alloc: Global) -> Result<Room<V>, AllocError>
    ensures { IfOk result IsRoom }
{
    let ends = Vec::with_capacity(alloc, 1)?;
    let mut buffer = Vec::new(alloc);
    buffer.resize(READ_SIZE, 0)?;
    let scopes = scope_tree::Room::new(alloc, ROWS, ROWS)?;
    let (seat, table) = PlainSeat::new(alloc, StreamNo::Inner(0), ROWS, EVENTS)?;
    Ok(Room {
        seat,
        table,
        scopes,
        ends,
        buffer,
    })
}
