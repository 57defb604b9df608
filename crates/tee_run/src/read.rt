//! What a reader gives goes to the branches.
ghost use Rattle.std.specs.Prelude.{◌≡◌, ◌++◌, List, None, Some};
ghost use Rattle.chunk_core.specs.Elements.{Bytes, Element, elements, kind_of};
ghost use Rattle.chunk_core.specs.Feed.{Meaning};
ghost use Rattle.chunk_core.specs.declared.code.How.TheVariants as how;
ghost use Rattle.device_port.specs.Sink.{SinkTold};
ghost use Rattle.pull_stepper.specs.Steppers.{Works, stepping};
ghost use Rattle.pull_stepper.specs.Stepping.{Stepping};
ghost use Rattle.pull_turns.specs.Piping.{standing};
ghost use Rattle.lone_stream.specs.Steps.{IsStepped};
ghost use Rattle.tee_prints.specs.Printed.{MustStop};
ghost use Rattle.tee_pump.specs.Branches.{SharedSeen};
ghost use Rattle.tee_pump.specs.Pumps.{IsPumping};
ghost use Rattle.tee_run.specs.Reading.{GivesOn, HasRead, IsTeeing};

use chunk_core::{Feed, Load};
use device_port::{Device, Gate, Sink};
use lone_stream::{step, stop};
use pull_nodes::PipeState;
use pull_stepper::{Held, Stepper};
use row_seat::RowSeat;
use std::alloc::AllocError;
use std::sync::Wait;
use tee_pump::{Pieces, Pump};
use tee_texts::Texts;
use tee_workers::Site;

/// Halts the reader where the branches must stop.
fn obey<V: Device, S: RowSeat<Pay = Held<V>>, F: PipeState, C: Feed>(
    pump: &Pump<C>,
    stepper: &mut Stepper<S, V, F>,
    desk: &mut S::Desk,
)
    requires works { Works S.view V.told S.fits stepper.old desk.old }
    requires runs { (stepping S.view F.values stepper.old).how ≡ None }
    requires stepped { (a : Stepping V F) × (given : List Element) × IsStepped (standing F.stands F.comes) V.told Bytes a (stepping S.view F.values stepper.old) given }
    ensures stepped { (a : Stepping V F) (given : List Element) → IsStepped (standing F.stands F.comes) V.told Bytes a (stepping S.view F.values stepper.old) given → IsStepped (standing F.stands F.comes) V.told Bytes a (stepping S.view F.values stepper.new) given }
    ensures halted { (stepping S.view F.values stepper.new).how ≡ Some how.Halted → MustStop pump.now.printer.ends.items pump.now.printer.broken }
    ensures works { Works S.view V.told S.fits stepper.new desk.new }
{
    if pump.is_stopped() {
        stop(stepper, desk);
    }
}

/// Gives a load to the branches. Where they must stop, or memory for it is wanting, the reader is halted.
fn give_load<
    R: Wait,
    G: Gate,
    V: Device,
    S: RowSeat<Pay = Held<V>>,
    F: PipeState,
    C: Feed,
    K: Sink,
>(
    site: &Site<'_, R, G, Pieces, Texts>,
    pump: &mut Pump<C>,
    stepper: &mut Stepper<S, V, F>,
    desk: &mut S::Desk,
    load: &Load,
    out: &mut K,
) -> Result<(), AllocError>
    requires works { Works S.view V.told S.fits stepper.old desk.old }
    requires runs { (stepping S.view F.values stepper.old).how ≡ None }
    requires bytes { kind_of load.now ≡ Bytes }
    requires giving { (a : Stepping V F) × (ms : List Meaning) × (start : SinkTold) × (given : List Element) × IsStepped (standing F.stands F.comes) V.told Bytes a (stepping S.view F.values stepper.old) (given ++ elements load.now) × IsPumping C.stands C.comes (record { topic = site.now.topic.now; hub = site.now.hub.now; board = site.now.board.now }) ms start given (K.told out.old) pump.old }
    ensures gives { (a : Stepping V F) (ms : List Meaning) (start : SinkTold) (given : List Element) → IsStepped (standing F.stands F.comes) V.told Bytes a (stepping S.view F.values stepper.old) (given ++ elements load.now) → IsPumping C.stands C.comes (record { topic = site.now.topic.now; hub = site.now.hub.now; board = site.now.board.now }) ms start given (K.told out.old) pump.old → GivesOn (standing F.stands F.comes) V.told C.stands C.comes (record { topic = site.now.topic.now; hub = site.now.hub.now; board = site.now.board.now }) ms start a (stepping S.view F.values stepper.new) (K.told out.new) pump.new result }
    ensures works { Works S.view V.told S.fits stepper.new desk.new }
{
    match pump.give(site, load, out) {
        Ok(()) => {
            obey(pump, stepper, desk);
            Ok(())
        }
        Err(AllocError) => {
            stop(stepper, desk);
            Err(AllocError)
        }
    }
}

/// One turn of the reader. The answer is an error where memory for the branches was wanting.
fn read_one<R: Wait, G: Gate, V: Device, S: RowSeat<Pay = Held<V>>, F: PipeState, C: Feed, K: Sink>(
    site: &Site<'_, R, G, Pieces, Texts>,
    pump: &mut Pump<C>,
    stepper: &mut Stepper<S, V, F>,
    desk: &mut S::Desk,
    out: &mut K,
) -> Result<(), AllocError>
    requires works { Works S.view V.told S.fits stepper.old desk.old }
    requires runs { (stepping S.view F.values stepper.old).how ≡ None }
    requires teeing { (a : Stepping V F) × (ms : List Meaning) × (start : SinkTold) × IsTeeing (standing F.stands F.comes) V.told C.stands C.comes (record { topic = site.now.topic.now; hub = site.now.hub.now; board = site.now.board.now }) ms start a (stepping S.view F.values stepper.old) (K.told out.old) pump.old }
    ensures gives { (a : Stepping V F) (ms : List Meaning) (start : SinkTold) → IsTeeing (standing F.stands F.comes) V.told C.stands C.comes (record { topic = site.now.topic.now; hub = site.now.hub.now; board = site.now.board.now }) ms start a (stepping S.view F.values stepper.old) (K.told out.old) pump.old → GivesOn (standing F.stands F.comes) V.told C.stands C.comes (record { topic = site.now.topic.now; hub = site.now.hub.now; board = site.now.board.now }) ms start a (stepping S.view F.values stepper.new) (K.told out.new) pump.new result }
    ensures works { Works S.view V.told S.fits stepper.new desk.new }
{
    match step(stepper, desk) {
        Ok(Some(load)) => give_load(site, pump, stepper, desk, &load, out),
        Ok(None) => Ok(()),
        Err(AllocError) => Ok(()),
    }
}

/// Steps a reader to its end, and gives all that it reads to the branches. The answer says whether memory for them was
/// wanting.
pub(crate) fn read_all<
    R: Wait,
    G: Gate,
    V: Device,
    S: RowSeat<Pay = Held<V>>,
    F: PipeState,
    C: Feed,
    K: Sink,
>(
    site: &Site<'_, R, G, Pieces, Texts>,
    pump: &mut Pump<C>,
    stepper: &mut Stepper<S, V, F>,
    desk: &mut S::Desk,
    out: &mut K,
) -> bool
    requires works { Works S.view V.told S.fits stepper.old desk.old }
    requires teeing { (a : Stepping V F) × (ms : List Meaning) × (start : SinkTold) × IsTeeing (standing F.stands F.comes) V.told C.stands C.comes (record { topic = site.now.topic.now; hub = site.now.hub.now; board = site.now.board.now }) ms start a (stepping S.view F.values stepper.old) (K.told out.old) pump.old }
    ensures read { (a : Stepping V F) (ms : List Meaning) (start : SinkTold) → IsTeeing (standing F.stands F.comes) V.told C.stands C.comes (record { topic = site.now.topic.now; hub = site.now.hub.now; board = site.now.board.now }) ms start a (stepping S.view F.values stepper.old) (K.told out.old) pump.old → HasRead (standing F.stands F.comes) V.told C.stands C.comes (record { topic = site.now.topic.now; hub = site.now.hub.now; board = site.now.board.now }) ms start a (stepping S.view F.values stepper.new) (K.told out.new) pump.new result }
    ensures works { Works S.view V.told S.fits stepper.new desk.new }
{
    'turns: for _ in site.rt.forever() {
        if stepper.how().is_some() {
            return false;
        }
        match read_one(site, pump, stepper, desk, out) {
            Ok(()) => {}
            Err(AllocError) => return true,
        }
    }
    unreachable!()
}
