//! A tee in a scope of its own, in which the threads of its branches begin and end.
ghost use Rattle.std.specs.Prelude.{◌≡◌, ◌-◌, ◌^◌, ◌<◌, List, [], None, Some};
ghost use Rattle.chunk_core.specs.Elements.{Bytes};
ghost use Rattle.chunk_core.specs.Feed.{Meaning};
ghost use Rattle.pull_stepper.specs.Steppers.{Works, stepping};
ghost use Rattle.pull_stepper.specs.Stepping.{Stepping};
ghost use Rattle.pull_turns.specs.Piping.{standing};
ghost use Rattle.lone_stream.specs.Steps.{IsStepped};
ghost use Rattle.tee_pump.specs.Making.{IsCrew};
ghost use Rattle.chunk_core.specs.declared.code.How.{How as HowOf};
ghost use Rattle.tee_run.specs.Reading.{HasTeed, told_how};

use crate::read::read_all;
use chunk_core::{Feed, How};
use device_port::{Device, Gate, Sink};
use pull_nodes::PipeState;
use pull_stepper::{Held, Stepper};
use row_seat::RowSeat;
use std::sync::Wait;
use std::sync::atomic::AtomicU64;
use std::thread;
use std::thread::{Scope, Threads};
use tee_pump::{Crew, Pieces, Pump, Room, Shared, TeeEnd};
use tee_texts::Texts;
use tee_workers::Site;

/// What a tee lends to the scope of its threads.
#[derive(Drop)]
pub(crate) struct Lent<'a, S: RowSeat<Pay = Held<V>>, V: Device, F: PipeState, C: Feed, K> {
    pub(crate) stepper: Stepper<S, V, F>,
    pub(crate) desk: S::Desk,
    pub(crate) crew: Crew<C>,
    pub(crate) out: &'a mut K,
}

/// What comes back of it: the reader, which has ended, and what is told of it and of the branches.
#[derive(Drop)]
pub(crate) struct Back<'a, S: RowSeat<Pay = Held<V>>, V: Device, F: PipeState, K> {
    pub(crate) stepper: Stepper<S, V, F>,
    pub(crate) desk: S::Desk,
    pub(crate) how: How,
    pub(crate) end: TeeEnd,
    pub(crate) out: &'a mut K,
}

/// The reader once it has ended, and what is told of it and of the branches.
pub(crate) struct Teed<S: RowSeat<Pay = Held<V>>, V: Device, F: PipeState> {
    pub(crate) stepper: Stepper<S, V, F>,
    pub(crate) desk: S::Desk,
    pub(crate) how: How,
    pub(crate) end: TeeEnd,
}

/// The end that is told of a reader that has ended.
fn end_of<V: Device, S: RowSeat<Pay = Held<V>>, F: PipeState>(
    stepper: &Stepper<S, V, F>,
    memory: bool,
) -> How
    requires ended { (h : HowOf) × ((stepping S.view F.values stepper.now).how ≡ Some h) }
    ensures { (h : HowOf) → (stepping S.view F.values stepper.now).how ≡ Some h → result ≡ told_how memory h }
{
    match (memory, stepper.how()) {
        (true, _) => How::Memory,
        (false, Some(how)) => how,
        (false, None) => unreachable!(),
    }
}

/// Reads all in this scope, and gives it to the branches to their end.
fn run_lent<
    's,
    'a,
    E,
    R: Threads + Wait + Sync + 's,
    G: Gate + Sync + 's,
    V: Device + Drop,
    S: RowSeat<Pay = Held<V>> + Drop,
    F: PipeState,
    C: Feed + Send + 's,
    K: Sink,
>(
    scope: &Scope<'s, E>,
    site: &'s Site<'s, R, G, Pieces, Texts>,
    lent: Lent<'a, S, V, F, C, K>,
) -> Back<'a, S, V, F, K>
where
    S::Desk: Drop,
    F::Tables: Drop,
    requires works { Works S.view V.told S.fits lent.stepper lent.desk }
    requires begun { (a : Stepping V F) × (ms : List Meaning) × IsStepped (standing F.stands F.comes) V.told Bytes a (stepping S.view F.values lent.stepper) [] × ((stepping S.view F.values lent.stepper).how ≡ None) × IsCrew C.stands C.comes (record { topic = site.now.topic.now; hub = site.now.hub.now; board = site.now.board.now }) ms lent.crew }
    requires sink { (K.told lent.out.now).faults < 2 ^ 64 - 1 }
    ensures names { result.out.ghost_name ≡ lent.entry.out.ghost_name }
    ensures teed { (a : Stepping V F) (ms : List Meaning) → IsStepped (standing F.stands F.comes) V.told Bytes a (stepping S.view F.values lent.entry.stepper) [] → (stepping S.view F.values lent.entry.stepper).how ≡ None → IsCrew C.stands C.comes (record { topic = site.now.topic.now; hub = site.now.hub.now; board = site.now.board.now }) ms lent.entry.crew → HasTeed (standing F.stands F.comes) V.told ms a (stepping S.view F.values result.stepper) (K.told lent.entry.out.now) (K.told result.out.now) result.how result.end }
    ensures works { Works S.view V.told S.fits result.stepper result.desk }
{
    let Lent {
        mut stepper,
        mut desk,
        crew,
        out,
    } = lent;
    let mut pump = Pump::begin(scope, site, crew);
    let memory = read_all(site, &mut pump, &mut stepper, &mut desk, out);
    let how = end_of(&stepper, memory);
    let end = pump.finish(site, how, out);
    Back {
        stepper,
        desk,
        how,
        end,
        out,
    }
}

/// Runs what is lent in a scope, in which threads may be begun.
fn run_scoped<
    'x,
    'a,
    R: Threads + Wait + Sync,
    G: Gate + Sync,
    V: Device + Drop,
    S: RowSeat<Pay = Held<V>> + Drop,
    F: PipeState,
    C: Feed + Send,
    K: Sink,
>(rt: &'x R, gate: &'x G, shared: &'x Shared, lent: Lent<'a, S, V, F, C, K>) -> Back<'a, S, V, F, K>
where
    S::Desk: Drop,
    F::Tables: Drop,
    requires works { Works S.view V.told S.fits lent.stepper lent.desk }
    requires begun { (a : Stepping V F) × (ms : List Meaning) × IsStepped (standing F.stands F.comes) V.told Bytes a (stepping S.view F.values lent.stepper) [] × ((stepping S.view F.values lent.stepper).how ≡ None) × IsCrew C.stands C.comes (record { topic = shared.now.topic; hub = shared.now.hub; board = shared.now.board }) ms lent.crew }
    requires sink { (K.told lent.out.now).faults < 2 ^ 64 - 1 }
    ensures names { result.out.ghost_name ≡ lent.entry.out.ghost_name }
    ensures teed { (a : Stepping V F) (ms : List Meaning) → IsStepped (standing F.stands F.comes) V.told Bytes a (stepping S.view F.values lent.entry.stepper) [] → (stepping S.view F.values lent.entry.stepper).how ≡ None → IsCrew C.stands C.comes (record { topic = shared.now.topic; hub = shared.now.hub; board = shared.now.board }) ms lent.entry.crew → HasTeed (standing F.stands F.comes) V.told ms a (stepping S.view F.values result.stepper) (K.told lent.entry.out.now) (K.told result.out.now) result.how result.end }
    ensures works { Works S.view V.told S.fits result.stepper result.desk }
{
    let refused = AtomicU64::new(0);
    let site = Site {
        rt,
        gate,
        topic: &shared.topic,
        hub: &shared.hub,
        board: &shared.board,
        refused: &refused,
    };
    let site = &site;
    thread::scope(
        thread::scope_env(),
        rt,
        move |scope| -> Back<'_, S, V, F, K>
            requires { Works S.view V.told S.fits lent.stepper lent.desk × ((a : Stepping V F) × (ms : List Meaning) × IsStepped (standing F.stands F.comes) V.told Bytes a (stepping S.view F.values lent.stepper) [] × ((stepping S.view F.values lent.stepper).how ≡ None) × IsCrew C.stands C.comes (record { topic = site.now.topic.now; hub = site.now.hub.now; board = site.now.board.now }) ms lent.crew) × ((K.told lent.out.now).faults < 2 ^ 64 - 1) }
            ensures { (result.out.ghost_name ≡ lent.entry.out.ghost_name) × ((a : Stepping V F) (ms : List Meaning) → IsStepped (standing F.stands F.comes) V.told Bytes a (stepping S.view F.values lent.entry.stepper) [] → (stepping S.view F.values lent.entry.stepper).how ≡ None → IsCrew C.stands C.comes (record { topic = site.entry.now.topic.now; hub = site.entry.now.hub.now; board = site.entry.now.board.now }) ms lent.entry.crew → HasTeed (standing F.stands F.comes) V.told ms a (stepping S.view F.values result.stepper) (K.told lent.entry.out.now) (K.told result.out.now) result.how result.end) × Works S.view V.told S.fits result.stepper result.desk }
        { run_lent(scope, site, lent) },
    )
}

/// Reads all, and gives it to branches that have threads of their own, to their end.
pub(crate) fn run_branches<
    R: Threads + Wait + Sync,
    G: Gate + Sync,
    V: Device + Drop,
    S: RowSeat<Pay = Held<V>> + Drop,
    F: PipeState,
    C: Feed + Send,
    K: Sink,
>(
    rt: &R,
    gate: &G,
    room: Room<C>,
    stepper: Stepper<S, V, F>,
    desk: S::Desk,
    out: &mut K,
) -> Teed<S, V, F>
where
    S::Desk: Drop,
    F::Tables: Drop,
    requires works { Works S.view V.told S.fits stepper desk }
    requires begun { (a : Stepping V F) × (ms : List Meaning) × IsStepped (standing F.stands F.comes) V.told Bytes a (stepping S.view F.values stepper) [] × ((stepping S.view F.values stepper).how ≡ None) × IsCrew C.stands C.comes (record { topic = room.shared.topic; hub = room.shared.hub; board = room.shared.board }) ms room.crew }
    requires sink { (K.told out.old).faults < 2 ^ 64 - 1 }
    ensures teed { (a : Stepping V F) (ms : List Meaning) → IsStepped (standing F.stands F.comes) V.told Bytes a (stepping S.view F.values stepper) [] → (stepping S.view F.values stepper).how ≡ None → IsCrew C.stands C.comes (record { topic = room.shared.topic; hub = room.shared.hub; board = room.shared.board }) ms room.crew → HasTeed (standing F.stands F.comes) V.told ms a (stepping S.view F.values result.stepper) (K.told out.old) (K.told out.new) result.how result.end }
    ensures works { Works S.view V.told S.fits result.stepper result.desk }
{
    let Room { shared, crew } = room;
    let lent = Lent {
        stepper,
        desk,
        crew,
        out,
    };
    let Back {
        stepper,
        desk,
        how,
        end,
        out,
    } = run_scoped(rt, gate, &shared, lent);
    let _ = out;
    Teed {
        stepper,
        desk,
        how,
        end,
    }
}
