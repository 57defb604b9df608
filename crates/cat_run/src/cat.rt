//! The command `cat`: one file, printed in frames.
ghost use Rattle.std.specs.Prelude.{◌≡◌, ◌-◌, ◌^◌, ◌<◌, [], ◌∷◌, IfOk};
ghost use Rattle.pull_stepper.specs.Stepping.{IsSupplied};
ghost use Rattle.stream_parts.specs.Retire.{MayReturnAll, Returns, devices_of};
ghost use Rattle.cat_run.specs.Cat.{RunsCat};
ghost use Rattle.cat_run.specs.Ready.{IsReadyForCat};
ghost use Rattle.cat_run.specs.Streams.{RunsStream};

use crate::alone::{Printed, run_alone};
use crate::outcome::Outcome;
use any_pipe::AnyPipe;
use chunk_core::{List, Word};
use device_port::{Depot, Device, Mode, Sink};
use frames::FrameRoom;
use lone_stream::{StreamRoom, file_node, make_room, retire};
use pull_nodes::Node;
use pull_stepper::Held;
use res_ledger::StreamNo;
use row_seat::{PlainSeat, PlainTable};
use run_rules::EndOf;
use std::alloc::{AllocError, Global};

/// What `cat` makes before its device: the node, its room and table, and room for the frames, the end and the device.
#[derive(Drop)]
struct Ready<V> {
    node: Node,
    room: StreamRoom<PlainSeat<Held<V>>, Held<V>>,
    table: PlainTable<Held<V>>,
    frames: FrameRoom,
    ends: Vec<EndOf>,
    devices: Vec<V>,
}

/// Makes the node, room for its frames, end and device, and the room that it runs in.
fn make_ready<V: Drop>(alloc: Global) -> Result<Ready<V>, AllocError>
    ensures { IfOk result IsReadyForCat }
{
    let node = file_node(alloc)?;
    let frames = FrameRoom::new(alloc)?;
    let ends = Vec::with_capacity(alloc, 1)?;
    let devices = Vec::with_capacity(alloc, 1)?;
    let (room, table) = make_room(alloc, StreamNo::Inner(0))?;
    Ok(Ready {
        node,
        room,
        table,
        frames,
        ends,
        devices,
    })
}

/// Prints the file at a path as frames of stream 0, in pieces of at most `chunk` bytes. The room
/// for what is noted and closed is made before the file is opened.
pub fn run_cat<D: Depot, K: Sink>(
    alloc: Global,
    path: &Word,
    chunk: u32,
    depot: &mut D,
    out: &mut K,
) -> Outcome
    requires chunk { 0 < chunk }
    requires room { (K.told out.old).faults < 2 ^ 64 - 1 }
    ensures { RunsCat path.now chunk (D.told depot.old) (D.told depot.new) (K.told out.old) (K.told out.new) result }
{
    let Ok(ready) = make_ready(alloc) else {
        return Outcome::unmade(alloc);
    };
    match depot.make(alloc, path, Mode::Read) {
        Ok(device) => {
            let printed = run_ready(alloc, ready, device, chunk, out);
            give_back(depot, printed)
        }
        Err(AllocError) => Outcome::unmade(alloc),
    }
}

/// Runs stream 0 over its device.
fn run_ready<V: Device + Drop, K: Sink>(
    alloc: Global,
    ready: Ready<V>,
    device: V,
    chunk: u32,
    out: &mut K,
) -> Printed<V>
    requires ready { IsReadyForCat ready }
    requires device { IsSupplied V.told ready.node (device ∷ []) }
    requires chunk { 0 < chunk }
    requires sink { (K.told out.old).faults < 2 ^ 64 - 1 }
    ensures { RunsStream V.told ready.node (device ∷ []) chunk (K.told out.old) (K.told out.new) result }
{
    let Ready {
        node,
        room,
        mut table,
        mut frames,
        ends,
        mut devices,
    } = ready;
    devices.push(device).unwrap();
    let devices = List::of_vec(devices);
    run_alone::<V, PlainSeat<Held<V>>, AnyPipe, K>(
        alloc,
        &mut frames,
        room,
        ends,
        &mut table,
        node,
        devices,
        chunk,
        out,
    )
}

/// Gives the devices of a stream back.
fn give_back<D: Depot>(depot: &mut D, printed: Printed<D::Dev>) -> Outcome
    requires { MayReturnAll (D.told depot.old) (devices_of D.Dev.Device.told printed.shelf printed.unopened) }
    ensures returns { Returns (D.told depot.old) (D.told depot.new) (devices_of D.Dev.Device.told printed.shelf printed.unopened) }
    ensures outcome { result ≡ printed.outcome }
{
    let Printed {
        outcome,
        shelf,
        unopened,
    } = printed;
    retire(depot, shelf, unopened);
    outcome
}
