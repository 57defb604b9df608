//! Groups are dealt and their results printed, in order.
ghost use Rattle.std.specs.Prelude.{◌≡◌, ◌+◌, ◌-◌, ◌^◌, ◌<◌, ◌≤◌, ◌++◌, ◌∷◌, [], IfSome, List, None, Some, length};
ghost use Rattle.chunk_core.specs.declared.load.Load.{Load as Piece};
ghost use Rattle.device_port.specs.Sink.{SinkTold};
ghost use Rattle.eval_hands.specs.Crews.{IsCrew};
ghost use Rattle.eval_reader.specs.Reading.{IsGrouping, ReaderWorks, seen_reader};
ghost use Rattle.par_eval.specs.declared.work.Worked.{Worked as Result};
ghost use Rattle.pull_stepper.specs.Steppers.{stepping};
ghost use Rattle.pull_turns.specs.Piping.{standing};
ghost use Rattle.eval_run.specs.Pumping.{DealsAll, HasPumped, IsPumping};

use crate::print::print_result;
use crate::stop::Stop;
use device_port::{Device, Gate, Sink};
use eval_hands::{Crew, Place};
use eval_reader::Reader;
use par_eval::Work;
use pull_nodes::PipeState;
use pull_stepper::Held;
use row_seat::RowSeat;
use std::alloc::AllocError;
use std::sync::Wait;
use std::thread::Threads;

/// Takes the next result and prints it, unless something stopped the printing.
fn print_next<R: Wait, G: Gate, W: Work, K: Sink>(
    place: &Place<'_, R, G, W>,
    crew: &mut Crew<W>,
    out: &mut K,
    stop: Option<Stop>,
) -> Option<Stop>
    requires pumping { (first : SinkTold) × (ds : List Piece) × (ws : List Result) × IsPumping W.result_of place.now.work.now place.now.lanes.now crew.old first (K.told out.old) ds ws stop × (length ws < length ds) × (first.faults < 2 ^ 64 - 1) }
    ensures taken { (first : SinkTold) (ds : List Piece) (ws : List Result) → IsPumping W.result_of place.now.work.now place.now.lanes.now crew.old first (K.told out.old) ds ws stop → (w : Result) × IsPumping W.result_of place.now.work.now place.now.lanes.now crew.new first (K.told out.new) ds (ws ++ w ∷ []) result }
    ensures kept { IfSome stop (λ s. result ≡ Some s) }
{
    let worked = crew.take(place);
    match stop {
        Some(stop) => Some(stop),
        None => match print_result(place.alloc, out, &worked) {
            Ok(()) => None,
            Err(stop) => Some(stop),
        },
    }
}

/// Prints the next result where as many are out as there are hands: why nothing may be printed behind it, if so.
fn make_way<R: Wait, G: Gate, W: Work, K: Sink>(
    place: &Place<'_, R, G, W>,
    jobs: u32,
    crew: &mut Crew<W>,
    out: &mut K,
) -> Option<Stop>
    requires some { 0 < jobs }
    requires pumping { (first : SinkTold) × (ds : List Piece) × (ws : List Result) × IsPumping W.result_of place.now.work.now place.now.lanes.now crew.old first (K.told out.old) ds ws None × (length ds ≤ length ws + jobs) × (first.faults < 2 ^ 64 - 1) }
    ensures { (first : SinkTold) (ds : List Piece) (ws : List Result) → IsPumping W.result_of place.now.work.now place.now.lanes.now crew.old first (K.told out.old) ds ws None → length ds ≤ length ws + jobs → (more : List Result) × IsPumping W.result_of place.now.work.now place.now.lanes.now crew.new first (K.told out.new) ds more result × (length ds < length more + jobs) }
{
    if crew.out(place) == jobs {
        print_next(place, crew, out, None)
    } else {
        None
    }
}

/// Deals all groups, and prints results where as many are out as there are hands: why it stopped before the
/// lines ended, if it did.
fn deal_all<R: Wait, G: Gate, W: Work, V: Device, S: RowSeat<Pay = Held<V>>, F: PipeState, K: Sink>(
    place: &Place<'_, R, G, W>,
    jobs: u32,
    size: usize,
    crew: &mut Crew<W>,
    reader: &mut Reader<S, V, F>,
    desk: &mut S::Desk,
    out: &mut K,
) -> Option<Stop>
    requires some { (0 < jobs) × (jobs ≡ length place.now.lanes.now) }
    requires size { 0 < size }
    requires crew { IsCrew W.result_of place.now.work.now place.now.lanes.now crew.old [] [] }
    requires fits { ReaderWorks S.view V.told S.fits reader.old desk.old }
    requires reading { IsGrouping (standing F.stands F.comes) V.told size (stepping S.view F.values reader.old.stepper) (seen_reader S.view F.values reader.old) [] }
    requires sink { (K.told out.old).faults < 2 ^ 64 - 1 }
    ensures deals { DealsAll (standing F.stands F.comes) V.told W.result_of place.now.work.now place.now.lanes.now size (stepping S.view F.values reader.old.stepper) (stepping S.view F.values reader.new.stepper) crew.new (K.told out.old) (K.told out.new) result }
    ensures fits { ReaderWorks S.view V.told S.fits reader.new desk.new }
{
    'groups: for _ in place.rt.forever() {
        match reader.next_group(desk, size) {
            Ok(Some(load)) => {
                if let Some(stop) = make_way(place, jobs, crew, out) {
                    reader.halt(desk);
                    return Some(stop);
                }
                crew.put(place, load);
            }
            Ok(None) => return None,
            Err(AllocError) => return Some(Stop::Memory),
        }
    }
    unreachable!()
}

/// Takes all results that are out, and prints them until something stops that.
fn take_rest<R: Wait, G: Gate, W: Work, K: Sink>(
    place: &Place<'_, R, G, W>,
    crew: &mut Crew<W>,
    out: &mut K,
    stop: Option<Stop>,
) -> Option<Stop>
    requires pumping { (first : SinkTold) × (ds : List Piece) × (ws : List Result) × IsPumping W.result_of place.now.work.now place.now.lanes.now crew.old first (K.told out.old) ds ws stop × (first.faults < 2 ^ 64 - 1) }
    ensures rest { (first : SinkTold) (ds : List Piece) (ws : List Result) → IsPumping W.result_of place.now.work.now place.now.lanes.now crew.old first (K.told out.old) ds ws stop → (more : List Result) × IsPumping W.result_of place.now.work.now place.now.lanes.now crew.new first (K.told out.new) ds more result × (length more ≡ length ds) }
    ensures kept { IfSome stop (λ s. result ≡ Some s) }
{
    let mut left = stop;
    'rest: for _ in place.rt.forever() {
        if crew.out(place) == 0 {
            return left;
        }
        left = print_next(place, crew, out, left);
    }
    unreachable!()
}

/// Deals all groups to a new crew, prints what comes of them, and joins the crew: why not all was printed, if so.
pub(crate) fn pump<
    R: Threads + Wait,
    G: Gate,
    W: Work,
    V: Device,
    S: RowSeat<Pay = Held<V>>,
    F: PipeState,
    K: Sink,
>(
    place: &Place<'_, R, G, W>,
    jobs: u32,
    size: usize,
    mut crew: Crew<W>,
    reader: &mut Reader<S, V, F>,
    desk: &mut S::Desk,
    out: &mut K,
) -> Option<Stop>
    requires some { (0 < jobs) × (jobs ≡ length place.now.lanes.now) }
    requires size { 0 < size }
    requires crew { IsCrew W.result_of place.now.work.now place.now.lanes.now crew [] [] }
    requires fits { ReaderWorks S.view V.told S.fits reader.old desk.old }
    requires reading { IsGrouping (standing F.stands F.comes) V.told size (stepping S.view F.values reader.old.stepper) (seen_reader S.view F.values reader.old) [] }
    requires sink { (K.told out.old).faults < 2 ^ 64 - 1 }
    ensures pumped { HasPumped (standing F.stands F.comes) V.told (W.result_of place.now.work.now) size (stepping S.view F.values reader.old.stepper) (stepping S.view F.values reader.new.stepper) (K.told out.old) (K.told out.new) result }
    ensures fits { ReaderWorks S.view V.told S.fits reader.new desk.new }
{
    let stop = deal_all(place, jobs, size, &mut crew, reader, desk, out);
    let stop = take_rest(place, &mut crew, out, stop);
    crew.finish(place);
    stop
}
