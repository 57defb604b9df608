//! Runs of nodes over a plain seat, devices in memory and any pipes.
ghost use Rattle.std.specs.Prelude.{◌≡◌, ◌<◌, ◌≤◌, ◌^◌, true, IfOk, IsSome, OnOk, length};
ghost use Rattle.chunk_core.specs.Lists.{IsAmong};
ghost use Rattle.device_port.specs.Records.{record_told};
ghost use Rattle.pull_nodes.specs.Kinds.{node_kind};
ghost use Rattle.pull_nodes.specs.Placed.{is_placed};
ghost use Rattle.pull_nodes.specs.Shape.{EachRead, EachWrite, node_count, places_of};
ghost use Rattle.device_port.specs.declared.device.Mode.TheVariants as mode;
ghost use Rattle.pull_stepper.specs.Stepping.{IsFor};
ghost use Rattle.pull_stepper.specs.Sites.{IsUnused};

use crate::files::{Files, depot};
use crate::narrow::Narrow;
use crate::parts::is_few;
use crate::shown::is_shown;
use crate::uses::{Alone, Pace, run_alone};
use any_pipe::AnyPipe;
use chunk_core::{List, Span, Word};
use csv_pipes::Dicts;
use device_port::{Depot, MemDepot, Mode};
use pull_nodes::Node;
use pull_stepper::Held;
use res_ledger::StreamNo;
use row_seat::PlainSeat;
use scope_tree::Room;
use std::alloc::{AllocError, Global};
use std::process::Abort;

/// Why a node wasn't run.
#[derive(Clone, Copy, Debug)]
pub(crate) enum NoRun {
    Refused(&'static str),
    Memory,
}

impl From<&'static str> for NoRun {
    fn from(why: &'static str) -> NoRun {
        NoRun::Refused(why)
    }
}

impl From<AllocError> for NoRun {
    fn from(_error: AllocError) -> NoRun {
        NoRun::Memory
    }
}

/// Reads of four bytes, and as many turns as are wanted.
pub(crate) const FREELY: Pace = Pace {
    chunk: 4,
    asks: 99,
    turns: 99,
};

/// The node writes the place.
fn writes(node: &Node, place: u32) -> bool {
    match node {
        Node::Nil | Node::Emit(_) | Node::Raise(_) | Node::Read(_) => false,
        Node::Into(at, a) => *at == place || writes(a, place),
        Node::Weak(_, a) | Node::Scope(a) | Node::Through(a, _) | Node::Take(_, a) => {
            writes(a, place)
        }
        Node::Append(a, b) | Node::OnFault(a, b) | Node::Zip(a, b) | Node::Merge(a, b) => {
            writes(a, place) || writes(b, place)
        }
    }
}

/// Devices of these paths, each for writing where the node writes its place, and at most so many bytes
/// a write.
fn devices(
    alloc: Global,
    depot: &mut MemDepot,
    node: &Node,
    paths: &[&str],
    most: usize,
) -> Result<List<Narrow>, AllocError>
    requires paths { length paths.now < 2 ^ 16 }
    requires most { 1 ≤ most }
    ensures count { IfOk result (λ ds. length ds ≡ length paths.now) }
    ensures unused { IfOk result (λ ds. (d : Narrow) → IsAmong d ds → IsUnused (record_told d.device.facts)) }
{
    let mut devices = List::new(alloc);
    for (place, path) in paths.iter().enumerate() {
        let mode = if writes(node, place as u32) {
            Mode::Write
        } else {
            Mode::Read
        };
        let device = depot.make(alloc, &Word::of(alloc, path)?, mode)?;
        devices.push(Narrow::new(device, most))?;
    }
    Ok(devices)
}

/// The same devices of these files.
fn devices_in(
    alloc: Global,
    files: Files<'_>,
    node: &Node,
    paths: &[&str],
) -> Result<List<Narrow>, AllocError>
    requires paths { length paths.now < 2 ^ 16 }
    ensures count { IfOk result (λ ds. length ds ≡ length paths.now) }
    ensures unused { IfOk result (λ ds. (d : Narrow) → IsAmong d ds → IsUnused (record_told d.device.facts)) }
{
    let mut depot = depot(alloc, files)?;
    devices(alloc, &mut depot, node, paths, files.most.max(1))
}

/// The device of the place is for this.
fn is_for(devices: &List<Narrow>, place: u32, mode: Mode) -> bool
    ensures { result ≡ true → IsFor (λ (d : Narrow). record_told d.device.facts) 0 devices.now mode place }
{
    match devices.get(place as usize) {
        Some(device) => device.facts().mode == mode,
        None => false,
    }
}

/// Each device is for what the node does with it.
fn are_for(node: &Node, devices: &List<Narrow>) -> bool
    ensures reads { result ≡ true → EachRead (IsFor (λ (d : Narrow). record_told d.device.facts) 0 devices.now mode.Read) node.now }
    ensures writes { result ≡ true → EachWrite (IsFor (λ (d : Narrow). record_told d.device.facts) 0 devices.now mode.Write) node.now }
{
    match node {
        Node::Nil | Node::Emit(_) | Node::Raise(_) => true,
        Node::Read(place) => is_for(devices, *place, Mode::Read),
        Node::Into(place, a) => is_for(devices, *place, Mode::Write) && are_for(a, devices),
        Node::Weak(_, a) | Node::Scope(a) | Node::Through(a, _) | Node::Take(_, a) => {
            are_for(a, devices)
        }
        Node::Append(a, b) | Node::OnFault(a, b) | Node::Zip(a, b) | Node::Merge(a, b) => {
            are_for(a, devices) && are_for(b, devices)
        }
    }
}

/// Refuses a node whose places aren't the first `count` rows.
fn fits_rows(node: &Node, count: u32) -> Result<(), &'static str>
    requires few { node_count node.now < 2 ^ 16 }
    ensures kind { OnOk result (IsSome (node_kind node.now)) }
    ensures placed { OnOk result (is_placed (record { from = 0; to = count }) node.now ≡ true) }
    ensures count { OnOk result (length (places_of node.now) ≡ count) }
{
    if node.kind().is_err() {
        return Err("the node has no kind");
    }
    if !node.placed(Span { from: 0, to: count }) {
        return Err("the node isn't placed in these rows");
    }
    if node.places() != count {
        return Err("the node has another number of places");
    }
    Ok(())
}

/// Runs a node over devices that nobody used, and these tables.
fn run_on(
    alloc: Global,
    node: Node,
    devices: List<Narrow>,
    tables: Dicts,
    pace: Pace,
) -> Result<Alone<Narrow>, NoRun>
    requires few { node_count node < 2 ^ 16 }
    requires count { length devices < 2 ^ 16 }
    requires unused { (d : Narrow) → IsAmong d devices → IsUnused (record_told d.device.facts) }
    requires pace { (1 ≤ pace.chunk) × (1 ≤ pace.turns) }
{
    fits_rows(&node, devices.len() as u32)?;
    if !are_for(&node, &devices) {
        return Err("a device is for something else".into());
    }
    let (seat, mut desk) = PlainSeat::new(alloc, StreamNo::Inner(0), node.places(), node.events())?;
    let room = Room::new(alloc, node.scopes() + 1, node.places())?;
    Ok(run_alone::<Narrow, PlainSeat<Held<Narrow>>, AnyPipe>(
        alloc, &mut desk, node, seat, room, devices, tables, pace,
    ))
}

/// Refuses what no run begins with.
fn can_run(node: &Node, paths: &[&str], pace: Pace) -> Result<(), &'static str>
    ensures few { OnOk result (node_count node.now < 2 ^ 16) }
    ensures paths { OnOk result (length paths.now < 2 ^ 16) }
    ensures pace { OnOk result ((1 ≤ pace.chunk) × (1 ≤ pace.turns)) }
{
    if !is_few(node) {
        return Err("there are too many nodes");
    }
    if paths.len() > 1000 {
        return Err("there are too many paths");
    }
    if pace.chunk == 0 || pace.turns == 0 {
        return Err("the pace is none");
    }
    Ok(())
}

/// Runs a node, whose places are the first so many rows, over devices of these paths and these
/// tables.
pub(crate) fn run_over(
    alloc: Global,
    files: Files<'_>,
    tables: Dicts,
    node: Node,
    paths: &[&str],
    pace: Pace,
) -> Result<Alone<Narrow>, NoRun> {
    can_run(&node, paths, pace)?;
    let devices = devices_in(alloc, files, &node, paths)?;
    run_on(alloc, node, devices, tables, pace)
}

/// The same over no tables.
pub(crate) fn run(
    alloc: Global,
    files: Files<'_>,
    node: Node,
    paths: &[&str],
    pace: Pace,
) -> Result<Alone<Narrow>, NoRun> {
    run_over(alloc, files, Dicts::new(alloc), node, paths, pace)
}

/// Fails the test unless a run over no tables is shown so.
pub(crate) fn shows(
    rt: &(impl Abort + AllocGlobal),
    files: Files<'_>,
    node: Node,
    paths: &[&str],
    pace: Pace,
    want: &[u8],
) {
    let run = run(rt.alloc(), files, node, paths, pace).expect(rt, "a run");
    is_shown(rt, run, want);
}
