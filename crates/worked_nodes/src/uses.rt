//! Callers that see a stepper's public clauses alone.
ghost use Rattle.std.specs.Prelude.{◌≡◌, ℕ, ◌+◌, ◌*◌, ◌≤◌, [], IfErr, IfOk, OnErr, flat_map, length};
ghost use Rattle.chunk_core.specs.Elements.{elements};
ghost use Rattle.chunk_core.specs.Outcomes.{exit_of};
ghost use Rattle.pull_turns.specs.Around.{Affords};
ghost use Rattle.pull_turns.specs.Led.{TouchesOnly, end_by};
ghost use Rattle.pull_turns.specs.Piping.{standing};
ghost use Rattle.pull_turns.specs.Turned.{SpendsWithin};
ghost use Rattle.pull_turns.specs.declared.rest.Rest.TheVariants as rest;
ghost use Rattle.pull_nodes.specs.Shape.{places_of, scope_count};
ghost use Rattle.res_ledger.specs.declared.event.StreamNo.TheVariants.{Inner};
ghost use Rattle.row_seat.specs.Views.{OthersFit, start};
ghost use Rattle.scope_tree.specs.Calls.{IsClosedScope};
ghost use Rattle.scope_tree.specs.Trees.{Fits, seen};
ghost use Rattle.scope_tree.specs.Visible.{row_room, scope_room};
ghost use Rattle.tree_laws.specs.Alone.{StaysAlone};
ghost use Rattle.tree_laws.specs.Called.{Called};
ghost use Rattle.tree_laws.specs.Whole.{IsWholeLedger};
ghost use Rattle.pull_stepper.specs.Held.{FinishesDevice};
ghost use Rattle.pull_stepper.specs.Placing.{first_of};
ghost use Rattle.pull_stepper.specs.Sites.{Since, around, told_at};
ghost use Rattle.pull_stepper.specs.Steppers.{Works, stepping};
ghost use Rattle.pull_stepper.specs.Stepping.{CanGo, HasRoomFor, IsOver, IsSupplied};
ghost use Rattle.worked_nodes.specs.Uses.{Gathers, HasExit, IsLeft, RanNode};

use chunk_core::{Exit, How, List, Load};
use device_port::Device;
use pull_nodes::{Node, PipeState};
use pull_stepper::{Ended, Held, Stepper, Unconsed, Unmade};
use res_ledger::Ledger;
use row_seat::RowSeat;
use scope_tree::{Room, Spent, Tree};
use std::alloc::{AllocError, Global};

/// The most bytes of a read, how often a run is asked for the first of it, and for how many turns.
#[derive(Drop, Clone, Copy)]
pub struct Pace {
    pub chunk: u32,
    pub asks: u64,
    pub turns: u64,
}

/// What a node gave, how often it was asked and gave nothing, and what is left of its stepper.
pub struct Whole<S: RowSeat, V> {
    pub loads: Vec<Load>,
    pub quiet: Result<u64, AllocError>,
    pub ended: Ended<S, V>,
}

/// Asks for the first of what is left, again and again, and counts how often nothing came.
pub fn gather<V: Device, S: RowSeat<Pay = Held<V>>, F: PipeState>(
    stepper: &mut Stepper<S, V, F>,
    desk: &mut S::Desk,
    out: &mut Vec<Load>,
    pace: Pace,
) -> Result<u64, AllocError>
    requires fits { Works S.view V.told S.fits stepper.old desk.old }
    requires can { CanGo (standing F.stands F.comes) V.told (stepping S.view F.values stepper.old) }
    requires empty { out.old.items ≡ [] }
    requires turns { 1 ≤ pace.turns }
    ensures gathers { Gathers (standing F.stands F.comes) V.told (stepping S.view F.values stepper.old) (stepping S.view F.values stepper.new) (flat_map elements out.new.items) }
    ensures left { IsLeft V.told (stepping S.view F.values stepper.new) }
    ensures spends { SpendsWithin (around V.told (stepping S.view F.values stepper.old).site) (around V.told (stepping S.view F.values stepper.new).site) (stepping S.view F.values stepper.old).rest }
    ensures fits { Works S.view V.told S.fits stepper.new desk.new }
    ensures since { Since V.told (FinishesDevice V.told) (stepping S.view F.values stepper.old).site (stepping S.view F.values stepper.new).site }
    ensures others { OthersFit S.view S.fits (stepping S.view F.values stepper.old).site.tree.seat.by desk.old desk.new }
{
    let mut quiet = 0;
    for _ask in 0..pace.asks {
        match stepper.uncons(desk, pace.turns)? {
            Unconsed::Chunk(load) => out.push(load)?,
            Unconsed::End(_) => return Ok(quiet),
            Unconsed::Again => quiet += 1,
        }
    }
    Ok(quiet)
}

/// Halts a run that hasn't ended.
pub fn close<V: Device, S: RowSeat<Pay = Held<V>>, F: PipeState>(
    stepper: &mut Stepper<S, V, F>,
    desk: &mut S::Desk,
)
    requires fits { Works S.view V.told S.fits stepper.old desk.old }
    requires left { IsLeft V.told (stepping S.view F.values stepper.old) }
    ensures over { IsOver V.told (stepping S.view F.values stepper.new) }
    ensures how { end_by (stepping S.view F.values stepper.new).how ≡ end_by (stepping S.view F.values stepper.old).how }
    ensures tells { TouchesOnly {F = F} (told_at V.told (stepping S.view F.values stepper.old).site) (told_at V.told (stepping S.view F.values stepper.new).site) rest.Nil }
    ensures affords { Affords (around V.told (stepping S.view F.values stepper.old).site) (around V.told (stepping S.view F.values stepper.new).site) }
    ensures fits { Works S.view V.told S.fits stepper.new desk.new }
    ensures since { Since V.told (FinishesDevice V.told) (stepping S.view F.values stepper.old).site (stepping S.view F.values stepper.new).site }
    ensures others { OthersFit S.view S.fits (stepping S.view F.values stepper.old).site.tree.seat.by desk.old desk.new }
{
    if stepper.how().is_none() {
        stepper.halt(desk);
    }
}

/// Runs a node to its end, or halts it.
pub fn run_whole<V: Device, S: RowSeat<Pay = Held<V>>, F: PipeState>(
    alloc: Global,
    desk: &mut S::Desk,
    node: Node,
    tree: Tree<S>,
    devices: List<V>,
    tables: F::Tables,
    pace: Pace,
) -> Result<Whole<S, V>, Unmade<S, V>>
where
    F::Tables: Drop,
    requires fits { Fits S.view S.fits tree desk.old }
    requires supplied { IsSupplied V.told node devices }
    requires room { HasRoomFor (seen S.view tree) node }
    requires pace { (1 ≤ pace.chunk) × (1 ≤ pace.turns) }
    ensures ran { IfOk result (λ r. RanNode V.told (F.values tables) node devices (seen S.view tree) (seen S.view r.ended.tree) (flat_map elements r.loads.items) r.ended.how r.ended.unopened) }
    ensures unmade { IfErr result (λ u. (u.tree ≡ tree) × (u.devices ≡ devices)) }
    ensures fits { IfOk result (λ r. Fits S.view S.fits r.ended.tree desk.new) }
    ensures same { OnErr result (desk.new ≡ desk.old) }
    ensures others { OthersFit S.view S.fits (S.view tree.seat).by desk.old desk.new }
{
    let mut stepper = Stepper::<S, V, F>::new(alloc, node, tree, devices, tables, pace.chunk)?;
    let mut loads = Vec::new(alloc);
    let quiet = gather(&mut stepper, desk, &mut loads, pace);
    close(&mut stepper, desk);
    Ok(Whole {
        loads,
        quiet,
        ended: stepper.end(),
    })
}

/// Runs a node to its end, or closes the tree as canceled where there was no memory to begin.
pub fn run_or_close<V: Device, S: RowSeat<Pay = Held<V>>, F: PipeState>(
    alloc: Global,
    desk: &mut S::Desk,
    node: Node,
    tree: Tree<S>,
    devices: List<V>,
    tables: F::Tables,
    pace: Pace,
) -> Whole<S, V>
where
    F::Tables: Drop,
    requires fits { Fits S.view S.fits tree desk.old }
    requires supplied { IsSupplied V.told node devices }
    requires room { HasRoomFor (seen S.view tree) node }
    requires pace { (1 ≤ pace.chunk) × (1 ≤ pace.turns) }
    ensures calls { Called (FinishesDevice V.told) (seen S.view tree) [] (seen S.view result.ended.tree) }
    ensures alone { StaysAlone (S.view tree.seat) (S.view result.ended.tree.seat) }
    ensures root { IsClosedScope (seen S.view result.ended.tree) 0 }
    ensures exit { HasExit (seen S.view result.ended.tree) (exit_of result.ended.how) }
    ensures fits { Fits S.view S.fits result.ended.tree desk.new }
{
    match run_whole::<V, S, F>(alloc, desk, node, tree, devices, tables, pace) {
        Ok(whole) => whole,
        Err(Unmade { tree, devices }) => {
            let mut tree = tree;
            tree.close(desk, 0, Exit::Canceled);
            let ended = Ended {
                tree,
                how: How::Memory,
                unopened: devices,
            };
            Whole {
                loads: Vec::new(alloc),
                quiet: Ok(0),
                ended,
            }
        }
    }
}

/// What a node gave over a seat of its own, what its stream noted, and where its devices are.
#[derive(Drop)]
pub struct Alone<V> {
    pub loads: Vec<Load>,
    pub quiet: Result<u64, AllocError>,
    pub how: How,
    pub ledger: Ledger,
    pub shelf: List<Spent<Held<V>>>,
    pub unopened: List<V>,
}

/// Runs a node over a seat that has a row for each place and room for as many events as the node
/// counts, and finishes the seat.
pub fn run_alone<V: Device, S: RowSeat<Pay = Held<V>>, F: PipeState>(
    alloc: Global,
    desk: &mut S::Desk,
    node: Node,
    seat: S,
    room: Room<Held<V>>,
    devices: List<V>,
    tables: F::Tables,
    pace: Pace,
) -> Alone<V>
where
    F::Tables: Drop,
    requires fits { S.fits seat desk.old }
    requires supplied { IsSupplied V.told node devices }
    requires first { first_of (places_of node) ≡ 0 }
    requires start { (splits : ℕ) × (S.view seat ≡ start (Inner 0) (length (places_of node)) (2 * length (places_of node) + 2 * scope_count node + 1) splits) }
    requires room { (scope_count node + 1 ≤ scope_room room) × (length (places_of node) ≤ row_room room) }
    requires pace { (1 ≤ pace.chunk) × (1 ≤ pace.turns) }
    ensures whole { IsWholeLedger result.ledger }
{
    let tree = Tree::new(seat, room);
    let Whole {
        loads,
        quiet,
        ended,
    } = run_or_close::<V, S, F>(alloc, desk, node, tree, devices, tables, pace);
    let Ended {
        tree,
        how,
        unopened,
    } = ended;
    let (seat, shelf) = tree.end();
    let ledger = seat.finish(desk);
    Alone {
        loads,
        quiet,
        how,
        ledger,
        shelf,
        unopened,
    }
}
