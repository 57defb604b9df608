//! How one stream is begun and ended.
ghost use Rattle.std.specs.Prelude.{◌≡◌, ◌+◌, ◌≤◌, ℕ, List, [], IfErr, IfOk, Some};
ghost use Rattle.chunk_core.specs.Elements.{Element};
ghost use Rattle.chunk_core.specs.Tables.{no_values};
ghost use Rattle.chunk_core.specs.declared.code.Exit.TheVariants as exit;
ghost use Rattle.chunk_core.specs.declared.code.How.{How as HowOf};
ghost use Rattle.chunk_core.specs.declared.code.How.TheVariants as how;
ghost use Rattle.device_port.specs.Device.{DeviceTold};
ghost use Rattle.pull_nodes.specs.Shape.{places_of};
ghost use Rattle.pull_nodes.specs.declared.node.Node.{Node as NodeOf};
ghost use Rattle.pull_stepper.specs.Held.{FinishesDevice};
ghost use Rattle.pull_stepper.specs.Placing.{first_of};
ghost use Rattle.pull_stepper.specs.Sites.{Since, told_at};
ghost use Rattle.pull_stepper.specs.Steppers.{Works, stepping};
ghost use Rattle.pull_stepper.specs.Stepping.{CanGo, IsOver, IsSupplied, Stepping};
ghost use Rattle.pull_turns.specs.Piping.{standing};
ghost use Rattle.res_ledger.specs.declared.event.StreamNo.{StreamNo as StreamOf};
ghost use Rattle.scope_tree.specs.Calls.{ClosesScope, IsOpenScope, Seen, TakesRoom};
ghost use Rattle.scope_tree.specs.Trace.{owed};
ghost use Rattle.scope_tree.specs.Trees.{Fits, seen};
ghost use Rattle.lone_stream.specs.Nodes.{LeavesNode};
ghost use Rattle.lone_stream.specs.Ran.{ComesHome, RunsLone};
ghost use Rattle.lone_stream.specs.Rooms.{IsFresh, IsRoomFor};
ghost use Rattle.lone_stream.specs.Steps.{HasEnded, IsBegun, IsPast};

use crate::room::StreamRoom;
use chunk_core::{Exit, How, List};
use csv_pipes::Dicts;
use device_port::Device;
use pull_nodes::{Node, PipeState};
use pull_stepper::{Ended, Held, Stepper, Unmade};
use res_ledger::Ledger;
use row_seat::RowSeat;
use scope_tree::{Spent, Tree};
use std::alloc::Global;

/// What a stream did, and its devices: those that were opened, and those that never were.
pub struct Ran<V> {
    pub how: How,
    pub ledger: Ledger,
    pub shelf: List<Spent<Held<V>>>,
    pub unopened: List<V>,
}

/// Begins to run a node that looks up in no table, in the room that was made for it, in reads of at most
/// `chunk` bytes. Where there is no memory to begin, the stream has ended.
pub fn begin<V: Device, S: RowSeat<Pay = Held<V>>, F: PipeState<Tables = Dicts>>(
    alloc: Global,
    room: StreamRoom<S, Held<V>>,
    desk: &mut S::Desk,
    node: Node,
    devices: List<V>,
    chunk: u32,
) -> Result<Stepper<S, V, F>, Ran<V>>
    requires fits { S.fits room.seat desk.old }
    requires room { (who : StreamOf) × IsRoomFor S.view who node room }
    requires first { first_of (places_of node) ≡ 0 }
    requires supplied { IsSupplied V.told node devices }
    requires chunk { 1 ≤ chunk }
    requires values { F.values [] ≡ no_values }
    ensures begun { (who : StreamOf) → IsRoomFor S.view who node room → IfOk result (λ s. IsBegun (standing F.stands F.comes) V.told who node devices chunk (stepping S.view F.values s)) }
    ensures can { IfOk result (λ s. CanGo (standing F.stands F.comes) V.told (stepping S.view F.values s)) }
    ensures works { IfOk result (λ s. Works S.view V.told S.fits s desk.new) }
    ensures unbegun { (who : StreamOf) → IsRoomFor S.view who node room → IfErr result (λ r. (r.how ≡ how.Memory) × RunsLone V.told who node devices [] r) }
{
    let StreamRoom { seat, scopes } = room;
    let tree = Tree::new(seat, scopes);
    let tables = Dicts::new(alloc);
    match Stepper::<S, V, F>::new(alloc, node, tree, devices, tables, chunk) {
        Ok(stepper) => Ok(stepper),
        Err(unmade) => Err(take_apart(close(desk, unmade), desk)),
    }
}

/// Closes the tree on which nothing was begun.
fn close<V: Device, S: RowSeat<Pay = Held<V>>>(
    desk: &mut S::Desk,
    unmade: Unmade<S, V>,
) -> Ended<S, V>
    requires fits { Fits S.view S.fits unmade.tree desk.old }
    requires root { IsOpenScope (seen S.view unmade.tree) 0 }
    ensures closes { ClosesScope (FinishesDevice V.told) (seen S.view unmade.tree) 0 exit.Canceled (seen S.view result.tree) }
    ensures how { result.how ≡ how.Memory }
    ensures unopened { result.unopened ≡ unmade.devices }
    ensures room { TakesRoom 0 0 (seen S.view unmade.tree) (seen S.view result.tree) }
    ensures free { (seen S.view unmade.tree).seat.spare ≤ (seen S.view result.tree).seat.spare + owed (seen S.view unmade.tree).seat }
    ensures owed { owed (seen S.view result.tree).seat ≡ 0 }
    ensures fits { Fits S.view S.fits result.tree desk.new }
{
    let Unmade { mut tree, devices } = unmade;
    tree.close(desk, 0, Exit::Canceled);
    Ended {
        tree,
        how: How::Memory,
        unopened: devices,
    }
}

/// Takes the tree apart on which a node was run to its end, and finishes its seat.
fn take_apart<V: Device, S: RowSeat<Pay = Held<V>>>(
    ended: Ended<S, V>,
    desk: &mut S::Desk,
) -> Ran<V>
    requires fits { Fits S.view S.fits ended.tree desk.old }
    requires leaves { (who : StreamOf) × (n : NodeOf) × (devices : List V) × (home : ℕ → DeviceTold) × (a : Seen V) × IsFresh who n a × LeavesNode V.told n devices home a (seen S.view ended.tree) ended.how ended.unopened }
    ensures how { result.how ≡ ended.how }
    ensures comes { (who : StreamOf) (n : NodeOf) (devices : List V) (home : ℕ → DeviceTold) (a : Seen V) → IsFresh who n a → LeavesNode V.told n devices home a (seen S.view ended.tree) ended.how ended.unopened → ComesHome V.told who n devices home result }
{
    let Ended {
        tree,
        how,
        unopened,
    } = ended;
    let (seat, shelf) = tree.end();
    Ran {
        how,
        ledger: seat.finish(desk),
        shelf,
        unopened,
    }
}

/// Takes a stream apart that has ended, by itself or as it was halted.
pub fn end<V: Device, S: RowSeat<Pay = Held<V>>, F: PipeState<Tables = Dicts>>(
    stepper: Stepper<S, V, F>,
    desk: &mut S::Desk,
) -> Ran<V>
    requires works { Works S.view V.told S.fits stepper desk.old }
    requires over { IsOver V.told (stepping S.view F.values stepper) }
    requires begun { (who : StreamOf) × (n : NodeOf) × (devices : List V) × (chunk : ℕ) × (a : Stepping V F) × IsBegun (standing F.stands F.comes) V.told who n devices chunk a × IsPast V.told a (stepping S.view F.values stepper) }
    ensures how { (stepping S.view F.values stepper).how ≡ Some result.how }
    ensures home { (who : StreamOf) (n : NodeOf) (devices : List V) (chunk : ℕ) (a : Stepping V F) → IsBegun (standing F.stands F.comes) V.told who n devices chunk a → IsPast V.told a (stepping S.view F.values stepper) → ComesHome V.told who n devices (told_at V.told (stepping S.view F.values stepper).site) result }
    ensures ran { (who : StreamOf) (n : NodeOf) (devices : List V) (chunk : ℕ) (a : Stepping V F) (given : List Element) (h : HowOf) → IsBegun (standing F.stands F.comes) V.told who n devices chunk a → Since V.told (FinishesDevice V.told) a.site (stepping S.view F.values stepper).site → (stepping S.view F.values stepper).how ≡ Some h → HasEnded (standing F.stands F.comes) V.told a (stepping S.view F.values stepper) given h → RunsLone V.told who n devices given result }
{
    take_apart(stepper.end(), desk)
}
