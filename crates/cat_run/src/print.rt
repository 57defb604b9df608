//! What a stream gives, printed piece by piece.
ghost use Rattle.std.specs.Prelude.{◌≡◌, ℕ, ◌-◌, ◌^◌, ◌<◌, None, length};
ghost use Rattle.chunk_core.specs.Elements.{elements};
ghost use Rattle.pull_turns.specs.Around.{Goes};
ghost use Rattle.pull_turns.specs.Piping.{standing};
ghost use Rattle.pull_turns.specs.Turned.{SpendsWithin};
ghost use Rattle.scope_tree.specs.Calls.{IsOpenScope};
ghost use Rattle.pull_stepper.specs.Held.{FinishesDevice};
ghost use Rattle.pull_stepper.specs.Sites.{Since, around, told_at};
ghost use Rattle.pull_stepper.specs.Steppers.{Works, stepping};
ghost use Rattle.pull_stepper.specs.Stepping.{CanGo, Halts, IsOver};
ghost use Rattle.cat_run.specs.Printing.{PrintsAll, PrintsOne};

use crate::stopped::Stopped;
use chunk_core::Load;
use device_port::{Device, Sink};
use frames::{FrameRoom, NotPut, put_load_in};
use pull_nodes::PipeState;
use pull_stepper::{Held, Stepper, Turn};
use row_seat::RowSeat;
use std::alloc::{AllocError, Global};

/// Runs a stream to its end and prints each piece as a frame of stream 0. The stream is halted where a write fails or
/// memory is wanting.
pub(crate) fn print_all<V: Device, S: RowSeat<Pay = Held<V>>, F: PipeState, K: Sink>(
    alloc: Global,
    frames: &mut FrameRoom,
    stepper: &mut Stepper<S, V, F>,
    desk: &mut S::Desk,
    out: &mut K,
) -> Stopped
    requires fits { Works S.view V.told S.fits stepper.old desk.old }
    requires can { CanGo (standing F.stands F.comes) V.told (stepping S.view F.values stepper.old) }
    requires room { (K.told out.old).faults < 2 ^ 64 - 1 }
    ensures prints { PrintsAll (standing F.stands F.comes) V.told 0 (stepping S.view F.values stepper.old) (stepping S.view F.values stepper.new) (K.told out.old) (K.told out.new) result }
    ensures over { IsOver V.told (stepping S.view F.values stepper.new) }
    ensures goes { (p : ℕ) → Goes (told_at V.told (stepping S.view F.values stepper.old).site p) (told_at V.told (stepping S.view F.values stepper.new).site p) }
    ensures spends { SpendsWithin (around V.told (stepping S.view F.values stepper.old).site) (around V.told (stepping S.view F.values stepper.new).site) (stepping S.view F.values stepper.old).rest }
    ensures fits { Works S.view V.told S.fits stepper.new desk.new }
    ensures since { Since V.told (FinishesDevice V.told) (stepping S.view F.values stepper.old).site (stepping S.view F.values stepper.new).site }
{
    'turns: loop {
        match stepper.turn(desk) {
            Ok(Turn::Chunk(load)) => match print_load(alloc, frames, load, out) {
                Ok(()) => {}
                Err(cause) => return stop(stepper, desk, cause),
            },
            Ok(Turn::Quiet) => {}
            Ok(Turn::Done) => return Stopped::Ended,
            Ok(Turn::Fault(_)) => return Stopped::Ended,
            Err(AllocError) => return stop(stepper, desk, Stopped::Memory),
        }
    }
}

/// Halts a stream, and tells why.
fn stop<V: Device, S: RowSeat<Pay = Held<V>>, F: PipeState>(
    stepper: &mut Stepper<S, V, F>,
    desk: &mut S::Desk,
    cause: Stopped,
) -> Stopped
    requires fits { Works S.view V.told S.fits stepper.old desk.old }
    requires runs { (stepping S.view F.values stepper.old).how ≡ None }
    requires root { IsOpenScope (stepping S.view F.values stepper.old).site.tree 0 }
    ensures cause { result ≡ cause }
    ensures halts { Halts V.told (stepping S.view F.values stepper.old) (stepping S.view F.values stepper.new) }
    ensures fits { Works S.view V.told S.fits stepper.new desk.new }
    ensures since { Since V.told (FinishesDevice V.told) (stepping S.view F.values stepper.old).site (stepping S.view F.values stepper.new).site }
{
    stepper.halt(desk);
    cause
}

/// Prints a load as a frame of stream 0. Where nothing may be printed behind it the cause is told.
fn print_load<K: Sink>(
    alloc: Global,
    frames: &mut FrameRoom,
    load: Load,
    out: &mut K,
) -> Result<(), Stopped>
    requires some { 0 < length (elements load) }
    requires room { (K.told out.old).faults < 2 ^ 64 - 1 }
    ensures { PrintsOne (K.told out.old) (K.told out.new) 0 load result }
{
    match put_load_in(alloc, frames, out, 0, &load) {
        Ok(()) => Ok(()),
        Err(NotPut::Unwritten) => Err(Stopped::Unwritten),
        Err(NotPut::Memory) => Err(Stopped::Memory),
    }
}
