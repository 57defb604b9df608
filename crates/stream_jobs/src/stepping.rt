//! One turn of a stepper, unless its context is interrupted.
ghost use Rattle.std.specs.Prelude.{◌≡◌, ◌+◌, ◌<◌, ◌≤◌, ◌^◌, []};
ghost use Rattle.pull_turns.specs.Piping.{standing};
ghost use Rattle.row_seat.specs.Fronts.{sight_of};
ghost use Rattle.row_seat.specs.Views.{OthersFit};
ghost use Rattle.interrupt_ctx.specs.Ends.{BoardSeen, SeatSeen};
ghost use Rattle.pull_stepper.specs.Held.{FinishesDevice};
ghost use Rattle.pull_stepper.specs.Sites.{Since};
ghost use Rattle.pull_stepper.specs.Steppers.{Works, stepping};
ghost use Rattle.pull_stepper.specs.Stepping.{CanGo};
ghost use Rattle.stream_jobs.specs.Places.{NameBehind};
ghost use Rattle.stream_jobs.specs.Steps.{Interrupts, LooksOnce, Obeys, Stepped};

use chunk_core::{How, Load};
use device_port::Device;
use interrupt_ctx::{Board, BoardSeat, Why};
use pull_nodes::PipeState;
use pull_stepper::{Held, Stepper, Turn};
use row_seat::{MarksFront, RowSeat};
use std::alloc::AllocError;
use std::sync::Wait;
use stop_places::interrupt;

/// Makes one turn, and gives the load that came. Where memory is wanting the stepper is halted.
fn step<V: Device, S: RowSeat<Pay = Held<V>>, F: PipeState>(
    stepper: &mut Stepper<S, V, F>,
    desk: &mut S::Desk,
) -> Option<Load>
    requires fits { Works S.view V.told S.fits stepper.old desk.old }
    requires can { CanGo (standing F.stands F.comes) V.told (stepping S.view F.values stepper.old) }
    ensures stepped { Stepped (standing F.stands F.comes) V.told (stepping S.view F.values stepper.old) (stepping S.view F.values stepper.new) result }
    ensures fits { Works S.view V.told S.fits stepper.new desk.new }
    ensures since { Since V.told (FinishesDevice V.told) (stepping S.view F.values stepper.old).site (stepping S.view F.values stepper.new).site }
    ensures others { OthersFit S.view S.fits (stepping S.view F.values stepper.old).site.tree.seat.by desk.old desk.new }
{
    match stepper.turn(desk) {
        Ok(Turn::Chunk(load)) => Some(load),
        Ok(Turn::Quiet) => None,
        Ok(Turn::Done) => None,
        Ok(Turn::Fault(_)) => None,
        Err(AllocError) => {
            stepper.halt(desk);
            None
        }
    }
}

/// Waits until the stepper's seat sees that the ledger has so many events. The mark keeps what it saw
/// then.
fn see_so_far<R: Wait, V: Device, S: MarksFront + RowSeat<Pay = Held<V>>, F: PipeState>(
    rt: &R,
    stepper: &mut Stepper<S, V, F>,
    desk: &mut S::Desk,
    least: u64,
) -> S::Mark
where
    S::Mark: Drop,
    requires fits { Works S.view V.told S.fits stepper.old desk.old }
    ensures front { least ≤ (S.sight result).front }
    ensures sight { S.sight result ≡ sight_of (stepping S.view F.values stepper.old).site.tree.seat (S.sight result).front }
    ensures marked { S.marked result desk.new }
    ensures same { stepping S.view F.values stepper.new ≡ stepping S.view F.values stepper.old }
    ensures fits { Works S.view V.told S.fits stepper.new desk.new }
    ensures others { OthersFit S.view S.fits (stepping S.view F.values stepper.old).site.tree.seat.by desk.old desk.new }
{
    'looks: for _ in rt.forever() {
        let (front, mark) = stepper.mark(desk);
        if least <= front {
            return mark;
        }
    }
    unreachable!()
}

/// Looks at the stream's context once. Where it is interrupted the stepper is halted, once its seat
/// sees that the ledger is as far as the interruption says; else it makes one turn.
pub(crate) fn look_and_step<
    R: Wait,
    V: Device,
    S: MarksFront + RowSeat<Pay = Held<V>>,
    F: PipeState,
>(
    rt: &R,
    stepper: &mut Stepper<S, V, F>,
    desk: &mut S::Desk,
    seat: &mut BoardSeat,
    board: &Board,
    context: u32,
) -> Option<Load>
where
    S::Mark: Drop,
    requires fits { Works S.view V.told S.fits stepper.old desk.old }
    requires can { CanGo (standing F.stands F.comes) V.told (stepping S.view F.values stepper.old) }
    requires board { seat.old.board ≡ board.now.id }
    requires context { context < board.now.contexts }
    ensures looks { LooksOnce context seat.old seat.new }
    ensures obeys { Obeys (standing F.stands F.comes) V.told seat.new.view.last (stepping S.view F.values stepper.old) (stepping S.view F.values stepper.new) result }
    ensures fits { Works S.view V.told S.fits stepper.new desk.new }
    ensures since { Since V.told (FinishesDevice V.told) (stepping S.view F.values stepper.old).site (stepping S.view F.values stepper.new).site }
    ensures others { OthersFit S.view S.fits (stepping S.view F.values stepper.old).site.tree.seat.by desk.old desk.new }
{
    match seat.look(board, context) {
        Some(stop) => {
            let mark = see_so_far(rt, stepper, desk, stop.at);
            stepper.halt_behind(desk, mark);
            None
        }
        None => step(stepper, desk),
    }
}

/// Interrupts the whole run where a stream has ended in a fault or found no memory, behind all that its
/// seat has noted.
pub(crate) fn interrupt_run<S: MarksFront>(
    seat: &mut S,
    desk: &mut S::Desk,
    at: &mut BoardSeat,
    board: &Board,
    how: How,
)
where
    S::Mark: Drop,
    requires fits { S.fits seat.old desk.old }
    requires board { at.old.board ≡ board.now.id }
    requires context { 0 < board.now.contexts }
    ensures stops { Interrupts how at.old at.new }
    ensures named { at.old.view.set ≡ [] → NameBehind (S.view seat.old).events at.new.view.set }
    ensures view { S.view seat.new ≡ S.view seat.old }
    ensures fits { S.fits seat.new desk.new }
    ensures others { OthersFit S.view S.fits (S.view seat.old).by desk.old desk.new }
{
    match how {
        How::Done | How::Halted => {}
        How::Fault(_) => {
            interrupt(seat, desk, at, board, 0, Why::Fault);
        }
        How::Memory => {
            interrupt(seat, desk, at, board, 0, Why::Memory);
        }
    }
}
