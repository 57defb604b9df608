//! What a run lends to the scope of its threads.
ghost use Rattle.std.specs.Prelude.{◌≡◌, ◌-◌, ◌^◌, ◌<◌, []};
ghost use Rattle.eval_reader.specs.Reading.{IsGrouping, ReaderWorks, seen_reader};
ghost use Rattle.pull_stepper.specs.Steppers.{Works, stepping};
ghost use Rattle.pull_turns.specs.Piping.{standing};
ghost use Rattle.eval_run.specs.Pumping.{HasPumped};
ghost use Rattle.eval_run.specs.Ready.{IsStaffed};

use crate::pump::pump;
use crate::stop::Stop;
use chunk_core::List;
use device_port::{Device, Gate, Sink};
use eval_hands::{Bells, Crew, Hired, Place};
use eval_reader::Reader;
use par_eval::{Dealer, Hand, PlainLanes, Work};
use pull_nodes::PipeState;
use pull_stepper::{Held, Stepper};
use row_seat::RowSeat;
use std::alloc::Global;
use std::sync::Wait;
use std::sync::atomic::AtomicU64;
use std::thread;
use std::thread::{Scope, Threads};

/// A dealer with its hands, and room for them where they are at work.
#[derive(Drop)]
pub(crate) struct Staff<W: Work> {
    pub(crate) dealer: Dealer,
    pub(crate) hands: List<Hand>,
    pub(crate) room: Vec<Hired<W>>,
}

/// What a run lends to its scope.
#[derive(Drop)]
pub(crate) struct Lent<'a, S: RowSeat<Pay = Held<V>>, V: Device, F: PipeState, K, W: Work> {
    pub(crate) reader: Reader<S, V, F>,
    pub(crate) desk: S::Desk,
    pub(crate) out: &'a mut K,
    pub(crate) staff: Staff<W>,
}

/// What it gets back: the stepper, which has ended, its desk, the sink, and why not all was printed, if so.
#[derive(Drop)]
pub(crate) struct Back<'a, S: RowSeat<Pay = Held<V>>, V: Device, F: PipeState, K> {
    pub(crate) stepper: Stepper<S, V, F>,
    pub(crate) desk: S::Desk,
    pub(crate) out: &'a mut K,
    pub(crate) stop: Option<Stop>,
}

/// A stepper that has ended, its desk, and why not all was printed, if so.
pub(crate) struct Pumped<S: RowSeat<Pay = Held<V>>, V: Device, F: PipeState> {
    pub(crate) stepper: Stepper<S, V, F>,
    pub(crate) desk: S::Desk,
    pub(crate) stop: Option<Stop>,
}

/// Lends all that a run uses to its scope until its threads are joined.
pub(crate) fn pump_lending<
    'x,
    R: Threads + Wait + Sync,
    G: Gate + Sync,
    W: Work + Send + Sync,
    V: Device + Drop,
    S: RowSeat<Pay = Held<V>> + Drop,
    F: PipeState,
    K: Sink,
>(
    rt: &'x R,
    alloc: Global,
    gate: &'x G,
    lanes: &'x PlainLanes,
    work: &'x W,
    bells: &'x Bells,
    jobs: u32,
    size: usize,
    reader: Reader<S, V, F>,
    desk: S::Desk,
    staff: Staff<W>,
    out: &mut K,
) -> Pumped<S, V, F>
where
    S::Desk: Drop,
    F::Tables: Drop,
    requires staff { IsStaffed jobs lanes.now staff }
    requires size { 0 < size }
    requires fits { ReaderWorks S.view V.told S.fits reader desk }
    requires reading { IsGrouping (standing F.stands F.comes) V.told size (stepping S.view F.values reader.stepper) (seen_reader S.view F.values reader) [] }
    requires sink { (K.told out.old).faults < 2 ^ 64 - 1 }
    ensures pumped { HasPumped (standing F.stands F.comes) V.told (W.result_of work.now) size (stepping S.view F.values reader.stepper) (stepping S.view F.values result.stepper) (K.told out.old) (K.told out.new) result.stop }
    ensures fits { Works S.view V.told S.fits result.stepper result.desk }
{
    let lent = Lent {
        reader,
        desk,
        out,
        staff,
    };
    let Back {
        stepper,
        desk,
        out,
        stop,
    } = run_scoped(rt, alloc, gate, lanes, work, bells, jobs, size, lent);
    let _ = out;
    Pumped {
        stepper,
        desk,
        stop,
    }
}

/// Runs what is lent in a scope, in which threads may be begun.
fn run_scoped<
    'x,
    'a,
    R: Threads + Wait + Sync,
    G: Gate + Sync,
    W: Work + Send + Sync,
    V: Device + Drop,
    S: RowSeat<Pay = Held<V>> + Drop,
    F: PipeState,
    K: Sink,
>(
    rt: &'x R,
    alloc: Global,
    gate: &'x G,
    lanes: &'x PlainLanes,
    work: &'x W,
    bells: &'x Bells,
    jobs: u32,
    size: usize,
    lent: Lent<'a, S, V, F, K, W>,
) -> Back<'a, S, V, F, K>
where
    S::Desk: Drop,
    F::Tables: Drop,
    requires staff { IsStaffed jobs lanes.now lent.staff }
    requires size { 0 < size }
    requires fits { ReaderWorks S.view V.told S.fits lent.reader lent.desk }
    requires reading { IsGrouping (standing F.stands F.comes) V.told size (stepping S.view F.values lent.reader.stepper) (seen_reader S.view F.values lent.reader) [] }
    requires sink { (K.told lent.out.now).faults < 2 ^ 64 - 1 }
    ensures name { result.out.ghost_name ≡ lent.entry.out.ghost_name }
    ensures pumped { HasPumped (standing F.stands F.comes) V.told (W.result_of work.now) size (stepping S.view F.values lent.entry.reader.stepper) (stepping S.view F.values result.stepper) (K.told lent.entry.out.now) (K.told result.out.now) result.stop }
    ensures fits { Works S.view V.told S.fits result.stepper result.desk }
{
    let refused = AtomicU64::new(0);
    let place = Place {
        rt,
        alloc,
        gate,
        lanes,
        work,
        bells,
        refused: &refused,
    };
    let place = &place;
    thread::scope(
        thread::scope_env(),
        rt,
        move |scope| -> Back<'_, S, V, F, K>
            requires { IsStaffed jobs place.now.lanes.now lent.staff × (0 < size) × ReaderWorks S.view V.told S.fits lent.reader lent.desk × IsGrouping (standing F.stands F.comes) V.told size (stepping S.view F.values lent.reader.stepper) (seen_reader S.view F.values lent.reader) [] × ((K.told lent.out.now).faults < 2 ^ 64 - 1) }
            ensures { (result.out.ghost_name ≡ lent.entry.out.ghost_name) × HasPumped (standing F.stands F.comes) V.told (W.result_of place.entry.now.work.now) size (stepping S.view F.values lent.entry.reader.stepper) (stepping S.view F.values result.stepper) (K.told lent.entry.out.now) (K.told result.out.now) result.stop × Works S.view V.told S.fits result.stepper result.desk }
        { run_lent(scope, place, jobs, size, lent) },
    )
}

/// Deals all groups to hands that have threads in this scope, and prints what comes of them.
fn run_lent<
    's,
    'a,
    E,
    R: Threads + Wait + Sync + 's,
    G: Gate + Sync + 's,
    W: Work + Send + Sync + 's,
    V: Device + Drop,
    S: RowSeat<Pay = Held<V>> + Drop,
    F: PipeState,
    K: Sink,
>(
    scope: &Scope<'s, E>,
    place: &'s Place<'s, R, G, W>,
    jobs: u32,
    size: usize,
    lent: Lent<'a, S, V, F, K, W>,
) -> Back<'a, S, V, F, K>
where
    S::Desk: Drop,
    F::Tables: Drop,
    requires staff { IsStaffed jobs place.now.lanes.now lent.staff }
    requires size { 0 < size }
    requires fits { ReaderWorks S.view V.told S.fits lent.reader lent.desk }
    requires reading { IsGrouping (standing F.stands F.comes) V.told size (stepping S.view F.values lent.reader.stepper) (seen_reader S.view F.values lent.reader) [] }
    requires sink { (K.told lent.out.now).faults < 2 ^ 64 - 1 }
    ensures name { result.out.ghost_name ≡ lent.entry.out.ghost_name }
    ensures pumped { HasPumped (standing F.stands F.comes) V.told (W.result_of place.entry.now.work.now) size (stepping S.view F.values lent.entry.reader.stepper) (stepping S.view F.values result.stepper) (K.told lent.entry.out.now) (K.told result.out.now) result.stop }
    ensures fits { Works S.view V.told S.fits result.stepper result.desk }
{
    let Lent {
        mut reader,
        mut desk,
        out,
        staff,
    } = lent;
    let Staff {
        dealer,
        hands,
        room,
    } = staff;
    let crew = Crew::begin(scope, place, dealer, hands, room);
    let stop = pump(place, jobs, size, crew, &mut reader, &mut desk, out);
    Back {
        stepper: reader.into_stepper(),
        desk,
        out,
        stop,
    }
}
