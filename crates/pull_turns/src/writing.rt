//! What is written to a device.
ghost use Rattle.std.specs.Prelude.{◌≡◌, ◌<◌, ◌-◌, ◌^◌, IfOk, OnErr};
ghost use Rattle.pull_turns.specs.Around.{IsHeld};
ghost use Rattle.pull_turns.specs.Moves.{CanWrite, WritesAll, WritesTurn};
ghost use Rattle.pull_turns.specs.Turned.{IsLoadOrDone};
ghost use Rattle.device_port.specs.declared.device.Mode.TheVariants as mode;

use crate::outside::Outside;
use crate::turn::Turn;
use chunk_core::{Code, render};
use device_port::Failed;
use known::{Known, Says, know};
use std::alloc::{AllocError, Global};
use std::marker::{Model, PhantomData};

/// What was written to a device, where it tells that. It has no bytes, and only contracts read it.
#[derive(Drop)]
pub struct Written;

impl Model for Written {
    ghost use Rattle.std.specs.Prelude.{ℕ, List, Option, None};
    ghost use Rattle.std.specs.Coded.{codes};

    ghost Value = { Option (List ℕ) };

    ghost view = { λ _. None };

    ghost coded = { Prim.hlevel codes };
}

/// What the device of a place tells.
struct WrittenAt<O> {
    of: PhantomData<O>,
}

impl<'a, O: Outside> Says<(&'a O, u32), Written> for WrittenAt<O> {
    ghost says = { λ x. ((O.seen x.0.now).told x.1).written };
}

/// What was written to the device of a place.
pub(crate) fn written_at<O: Outside>(outside: &O, place: u32) -> Known<Written>
    ensures { result ≡ ((O.seen outside.now).told place).written }
{
    know::<(&O, u32), Written, WrittenAt<O>>(&(outside, place))
}

/// Writes all the bytes to a device that is held. A short write goes on from where it stopped, and
/// nothing is written after a failure.
fn write_all<O: Outside>(
    outside: &mut O,
    desk: &mut O::Desk,
    place: u32,
    bytes: &[u8],
) -> Result<(), Failed>
    requires fits { O.fits outside.old desk.old }
    requires held { IsHeld (O.seen outside.old) place }
    requires mode { ((O.seen outside.old).told place).place.mode ≡ mode.Write }
    requires room { ((O.seen outside.old).told place).write_faults < 2 ^ 64 - 1 }
    ensures all { WritesAll (O.seen outside.old) place bytes.now result (O.seen outside.new) }
    ensures fits { O.fits outside.new desk.new }
    ensures since { O.since outside.old desk.old outside.new desk.new }
{
    let mut at = 0;
    while at < bytes.len() {
        at += outside.write(desk, place, &bytes[at..])?;
    }
    Ok(())
}

/// Writes the load that came from below, and gives nothing on.
pub(crate) fn write_load<O: Outside>(
    alloc: Global,
    outside: &mut O,
    desk: &mut O::Desk,
    place: u32,
    written: &mut Known<Written>,
    below: Turn,
) -> Result<Turn, AllocError>
    requires fits { O.fits outside.old desk.old }
    requires can { CanWrite (O.seen outside.old) place below }
    ensures turn { IfOk result (λ t. WritesTurn O.seen outside.old outside.new place written.old written.new below t) }
    ensures same { OnErr result (outside.new ≡ outside.old) }
    ensures wants { OnErr result (IsLoadOrDone below) }
    ensures fits { O.fits outside.new desk.new }
    ensures since { O.since outside.old desk.old outside.new desk.new }
{
    let Turn::Chunk(load) = below else {
        return Ok(below);
    };
    let text = render(alloc, &load)?;
    match write_all(outside, desk, place, text.as_slice()) {
        Ok(()) => {
            *written = written_at(outside, place);
            Ok(Turn::Quiet)
        }
        Err(Failed) => Ok(Turn::Fault(Code::Write)),
    }
}
