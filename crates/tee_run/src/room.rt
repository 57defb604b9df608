//! What a tee makes before its device.
ghost use Rattle.std.specs.Prelude.{◌≤◌, length, IfOk};
ghost use Rattle.tee_run.specs.Chains.{AreChains};
ghost use Rattle.tee_run.specs.Rooms.{IsReadyForTee};

use crate::chains::chains_of;
use chain_pipes::Chain;
use chunk_core::List;
use lone_stream::{StreamRoom, file_node, make_room};
use pipeline_desc::Step;
use pull_nodes::Node;
use pull_stepper::Held;
use res_ledger::StreamNo;
use row_seat::{PlainSeat, PlainTable};
use run_rules::EndOf;
use std::alloc::{AllocError, Global};
use tee_pump::Room;

/// What a tee makes before its device: the reader's node, its room and table, room for its device and for all ends,
/// and the branches.
#[derive(Drop)]
pub(crate) struct Ready<V> {
    pub(crate) node: Node,
    pub(crate) room: StreamRoom<PlainSeat<Held<V>>, Held<V>>,
    pub(crate) table: PlainTable<Held<V>>,
    pub(crate) devices: Vec<V>,
    pub(crate) ends: Vec<EndOf>,
    pub(crate) branches: Room<Chain>,
}

/// Makes all that takes memory.
pub(crate) fn make_ready<V: Drop>(
    alloc: Global,
    branches: &List<List<Step>>,
) -> Result<Ready<V>, AllocError>
    requires count { (1 ≤ length branches.now) × (length branches.now ≤ 16) }
    requires chains { AreChains branches.now }
    ensures { IfOk result (λ ready. IsReadyForTee branches.now ready) }
{
    let node = file_node(alloc)?;
    let devices = Vec::with_capacity(alloc, 1)?;
    let ends = Vec::with_capacity(alloc, branches.len() + 1)?;
    let (room, table) = make_room(alloc, StreamNo::Outer)?;
    let chains = chains_of(alloc, branches)?;
    let crew = Room::new(alloc, chains)?;
    Ok(Ready {
        node,
        room,
        table,
        devices,
        ends,
        branches: crew,
    })
}
