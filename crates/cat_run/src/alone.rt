//! One stream that runs alone and is printed.
ghost use Rattle.std.specs.Prelude.{◌≡◌, ◌-◌, ◌^◌, ◌<◌, ◌≤◌, [], ◌∷◌, vec_capacity};
ghost use Rattle.res_ledger.specs.declared.event.StreamNo.TheVariants.{Inner};
ghost use Rattle.chunk_core.specs.Tables.{no_values};
ghost use Rattle.pull_nodes.specs.Shape.{places_of};
ghost use Rattle.pull_stepper.specs.Placing.{first_of};
ghost use Rattle.pull_stepper.specs.Stepping.{IsSupplied};
ghost use Rattle.lone_stream.specs.Rooms.{IsRoomFor};
ghost use Rattle.cat_run.specs.Streams.{RunsPrinted, RunsStream};

use crate::outcome::Outcome;
use crate::print::print_all;
use crate::stopped::Stopped;
use chunk_core::{How, List};
use csv_pipes::Dicts;
use device_port::{Device, Sink};
use frames::FrameRoom;
use lone_stream::{Ran, StreamRoom, begin, end};
use pull_nodes::{Node, PipeState};
use pull_stepper::Held;
use res_ledger::StreamNo;
use row_seat::RowSeat;
use run_rules::EndOf;
use scope_tree::Spent;
use std::alloc::Global;

/// What a stream did that was printed, and its devices: those that were opened, and those that never were.
pub(crate) struct Printed<V> {
    pub(crate) outcome: Outcome,
    pub(crate) shelf: List<Spent<Held<V>>>,
    pub(crate) unopened: List<V>,
}

/// Runs a node as stream 0 to its end, in reads of at most `chunk` bytes, and prints each piece that it gives as a frame.
fn print_node<V: Device, S: RowSeat<Pay = Held<V>>, F: PipeState<Tables = Dicts>, K: Sink>(
    alloc: Global,
    frames: &mut FrameRoom,
    room: StreamRoom<S, Held<V>>,
    desk: &mut S::Desk,
    node: Node,
    devices: List<V>,
    chunk: u32,
    out: &mut K,
) -> (Ran<V>, Stopped)
    requires room { IsRoomFor S.view (Inner 0) node room }
    requires fits { S.fits room.seat desk.old }
    requires first { first_of (places_of node) ≡ 0 }
    requires supplied { IsSupplied V.told node devices }
    requires chunk { 1 ≤ chunk }
    requires values { F.values [] ≡ no_values }
    requires sink { (K.told out.old).faults < 2 ^ 64 - 1 }
    ensures { RunsPrinted V.told node devices chunk (K.told out.old) (K.told out.new) result.0 result.1 }
{
    match begin::<V, S, F>(alloc, room, desk, node, devices, chunk) {
        Ok(stepper) => {
            let mut stepper = stepper;
            let stopped = print_all(alloc, frames, &mut stepper, desk, out);
            (end(stepper, desk), stopped)
        }
        Err(ran) => (ran, Stopped::Memory),
    }
}

/// Runs a node as stream 0 in the room that was made for it, prints what it gives, and tells what it did.
pub(crate) fn run_alone<
    V: Device,
    S: RowSeat<Pay = Held<V>>,
    F: PipeState<Tables = Dicts>,
    K: Sink,
>(
    alloc: Global,
    frames: &mut FrameRoom,
    room: StreamRoom<S, Held<V>>,
    ends: Vec<EndOf>,
    desk: &mut S::Desk,
    node: Node,
    devices: List<V>,
    chunk: u32,
    out: &mut K,
) -> Printed<V>
    requires room { IsRoomFor S.view (Inner 0) node room }
    requires none { ends.items ≡ [] }
    requires capacity { vec_capacity ends ≡ 1 }
    requires fits { S.fits room.seat desk.old }
    requires first { first_of (places_of node) ≡ 0 }
    requires supplied { IsSupplied V.told node devices }
    requires chunk { 1 ≤ chunk }
    requires values { F.values [] ≡ no_values }
    requires sink { (K.told out.old).faults < 2 ^ 64 - 1 }
    ensures { RunsStream V.told node devices chunk (K.told out.old) (K.told out.new) result }
{
    let (ran, stopped) = print_node::<V, S, F, K>(
        alloc, frames, room, desk, node, devices, chunk, out,
    );
    let Ran {
        how,
        ledger,
        shelf,
        unopened,
    } = ran;
    Printed {
        outcome: Outcome {
            ends: ends_of(ends, how),
            ledger,
            sink_failed: stopped.is_unwritten(),
            memory: stopped.is_wanting(),
        },
        shelf,
        unopened,
    }
}

/// The end of stream 0, in the room that was made for it.
fn ends_of(ends: Vec<EndOf>, how: How) -> List<EndOf>
    requires none { ends.items ≡ [] }
    requires room { vec_capacity ends ≡ 1 }
    ensures { result ≡ record { who = Inner 0; how = how } ∷ [] }
{
    let mut ends = ends;
    let end = EndOf {
        who: StreamNo::Inner(0),
        how,
    };
    ends.push(end).unwrap();
    List::of_vec(ends)
}
