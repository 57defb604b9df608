//! The command `tee`: one file, read once for several branches.
ghost use Rattle.std.specs.Prelude.{◌≡◌, ◌-◌, ◌^◌, ◌<◌, ◌≤◌, ◌+◌, [], ◌∷◌, length, vec_capacity, ℕ, List};
ghost use Rattle.chain_pipes.specs.Chains.{Comes, StandsFor};
ghost use Rattle.chunk_core.specs.declared.code.How.TheVariants as how;
ghost use Rattle.pull_nodes.specs.declared.node.Node.{Node as NodeOf};
ghost use Rattle.device_port.specs.Sink.{SinkTold};
ghost use Rattle.pull_stepper.specs.Steppers.{Works, stepping};
ghost use Rattle.pull_stepper.specs.Stepping.{CanGo, IsSupplied};
ghost use Rattle.pull_turns.specs.Piping.{standing};
ghost use Rattle.res_ledger.specs.declared.event.StreamNo.TheVariants.{Outer};
ghost use Rattle.stream_parts.specs.Retire.{MayReturnAll, Returns, devices_of};
ghost use Rattle.lone_stream.specs.Ran.{RunsLone};
ghost use Rattle.lone_stream.specs.Rooms.{IsFileNode};
ghost use Rattle.lone_stream.specs.Steps.{IsBegun};
ghost use Rattle.tee_pump.specs.Making.{IsCrew};
ghost use Rattle.tee_run.specs.Chains.{AreChains, meanings_of};
ghost use Rattle.tee_run.specs.Rooms.{IsReadyForTee};
ghost use Rattle.tee_run.specs.Tee.{RunsTee};
ghost use Rattle.tee_run.specs.Telling.{TeesAll};

use crate::room::{Ready, make_ready};
use crate::scoped::{Teed, run_branches};
use crate::told::{Teeing, ends_of, has_wanted, unbegun_ends};
use any_pipe::AnyPipe;
use cat_run::Outcome;
use chain_pipes::Chain;
use chunk_core::{List, Word};
use csv_pipes::Dicts;
use device_port::{Depot, Device, Gate, Mode, Sink};
use lone_stream::{Ran, begin, end, retire};
use pipeline_desc::Step;
use pull_nodes::PipeState;
use pull_stepper::{Held, Stepper};
use row_seat::{PlainSeat, RowSeat};
use run_rules::EndOf;
use std::alloc::{AllocError, Global};
use std::sync::Wait;
use std::thread::Threads;
use tee_pump::{Room, TeeEnd};

/// Reads the file at a path once, in reads of at most `chunk` bytes, and sends what it gives through each of these
/// chains of steps, whose outputs are printed as frames under the chain's number. All that is noted, closed, sent and
/// told has its room made before the file is opened. Each branch has a thread where one can be started.
pub fn run_tee<R: Threads + Wait + Sync, D: Depot, K: Sink, G: Gate + Sync>(
    rt: &R,
    alloc: Global,
    path: &Word,
    chunk: u32,
    branches: &List<List<Step>>,
    depot: &mut D,
    out: &mut K,
    gate: &G,
) -> Outcome
    requires chunk { 0 < chunk }
    requires branches { (1 ≤ length branches.now) × (length branches.now ≤ 16) }
    requires chains { AreChains branches.now }
    requires room { (K.told out.old).faults < 2 ^ 64 - 1 }
    ensures { RunsTee path.now branches.now (D.told depot.old) (D.told depot.new) (K.told out.old) (K.told out.new) result }
{
    let Ok(ready) = make_ready(alloc, branches) else {
        return Outcome::unmade(alloc);
    };
    match depot.make(alloc, path, Mode::Read) {
        Ok(device) => {
            let teeing = run_ready(rt, alloc, gate, ready, device, chunk, branches, out);
            give_back(depot, teeing)
        }
        Err(AllocError) => Outcome::unmade(alloc),
    }
}

/// Reads the device for the branches, to the end of all.
fn run_ready<R: Threads + Wait + Sync, G: Gate + Sync, V: Device + Drop, K: Sink>(
    rt: &R,
    alloc: Global,
    gate: &G,
    ready: Ready<V>,
    device: V,
    chunk: u32,
    branches: &List<List<Step>>,
    out: &mut K,
) -> Teeing<V>
    requires ready { IsReadyForTee branches.now ready }
    requires few { length branches.now ≤ 16 }
    requires device { IsSupplied V.told ready.node (device ∷ []) }
    requires chunk { 0 < chunk }
    requires sink { (K.told out.old).faults < 2 ^ 64 - 1 }
    ensures { TeesAll V.told branches.now ready.node (device ∷ []) (K.told out.old) (K.told out.new) result }
{
    let Ready {
        node,
        room,
        mut table,
        mut devices,
        ends,
        branches: crew,
    } = ready;
    devices.push(device).unwrap();
    let devices = List::of_vec(devices);
    match begin::<V, PlainSeat<Held<V>>, AnyPipe>(alloc, room, &mut table, node, devices, chunk) {
        Ok(stepper) => run_begun(rt, gate, crew, stepper, table, branches, ends, out),
        Err(ran) => run_unbegun(ran, branches, ends),
    }
}

/// Steps the reader for the branches, to the end of all.
fn run_begun<
    R: Threads + Wait + Sync,
    G: Gate + Sync,
    V: Device + Drop,
    S: RowSeat<Pay = Held<V>> + Drop,
    F: PipeState<Tables = Dicts>,
    K: Sink,
>(
    rt: &R,
    gate: &G,
    crew: Room<Chain>,
    stepper: Stepper<S, V, F>,
    desk: S::Desk,
    branches: &List<List<Step>>,
    ends: Vec<EndOf>,
    out: &mut K,
) -> Teeing<V>
where
    S::Desk: Drop,
    requires works { Works S.view V.told S.fits stepper desk }
    requires can { CanGo (standing F.stands F.comes) V.told (stepping S.view F.values stepper) }
    requires begun { (n : NodeOf) × (devices : List V) × (chunk : ℕ) × IsFileNode n × IsBegun (standing F.stands F.comes) V.told Outer n devices chunk (stepping S.view F.values stepper) }
    requires crew { IsCrew StandsFor Comes (record { topic = crew.shared.topic; hub = crew.shared.hub; board = crew.shared.board }) (meanings_of branches.now) crew.crew }
    requires few { length branches.now ≤ 16 }
    requires none { ends.items ≡ [] }
    requires room { length branches.now + 1 ≤ vec_capacity ends }
    requires sink { (K.told out.old).faults < 2 ^ 64 - 1 }
    ensures { (n : NodeOf) (devices : List V) (chunk : ℕ) → IsFileNode n → IsBegun (standing F.stands F.comes) V.told Outer n devices chunk (stepping S.view F.values stepper) → TeesAll V.told branches.now n devices (K.told out.old) (K.told out.new) result }
{
    let Teed {
        stepper,
        mut desk,
        how,
        end: teed,
    } = run_branches(rt, gate, crew, stepper, desk, out);
    let Ran {
        how: _,
        ledger,
        shelf,
        unopened,
    } = end(stepper, &mut desk);
    let TeeEnd { ends: hows, broken } = teed;
    let memory = has_wanted(how, &hows);
    Teeing {
        outcome: Outcome {
            ends: ends_of(ends, how, &hows),
            ledger,
            sink_failed: broken,
            memory,
        },
        shelf,
        unopened,
    }
}

/// What is told where the reader couldn't be begun for want of memory: no branch was given anything.
fn run_unbegun<V: Device>(ran: Ran<V>, branches: &List<List<Step>>, ends: Vec<EndOf>) -> Teeing<V>
    requires memory { ran.how ≡ how.Memory }
    requires few { length branches.now ≤ 16 }
    requires none { ends.items ≡ [] }
    requires room { length branches.now + 1 ≤ vec_capacity ends }
    ensures { (n : NodeOf) (devices : List V) (start : SinkTold) → RunsLone V.told Outer n devices [] ran → TeesAll V.told branches.now n devices start start result }
{
    let Ran {
        how,
        ledger,
        shelf,
        unopened,
    } = ran;
    Teeing {
        outcome: Outcome {
            ends: unbegun_ends(ends, how, branches.len() as u32),
            ledger,
            sink_failed: false,
            memory: true,
        },
        shelf,
        unopened,
    }
}

/// Gives the devices of the reader back.
fn give_back<D: Depot>(depot: &mut D, teeing: Teeing<D::Dev>) -> Outcome
    requires { MayReturnAll (D.told depot.old) (devices_of D.Dev.Device.told teeing.shelf teeing.unopened) }
    ensures returns { Returns (D.told depot.old) (D.told depot.new) (devices_of D.Dev.Device.told teeing.shelf teeing.unopened) }
    ensures outcome { result ≡ teeing.outcome }
{
    let Teeing {
        outcome,
        shelf,
        unopened,
    } = teeing;
    retire(depot, shelf, unopened);
    outcome
}
