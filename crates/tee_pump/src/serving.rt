//! What is done while the branches are at work.
ghost use Rattle.std.specs.Prelude.{◌≡◌, ◌<◌, ◌≤◌, ℕ, List, [], length, vec_capacity};
ghost use Rattle.chunk_core.specs.Feed.{Meaning};
ghost use Rattle.device_port.specs.Sink.{SinkTold};
ghost use Rattle.interrupt_ctx.specs.Ends.{BoardSeen};
ghost use Rattle.channel_bounded.specs.Ends.{HubSeen};
ghost use Rattle.tee_branches.specs.declared.branch.Branch.{Branch as ABranch};
ghost use Rattle.tee_prints.specs.Printed.{MustStop};
ghost use Rattle.tee_pump.specs.Branches.{AreBranches, AreHired, SharedSeen};
ghost use Rattle.tee_pump.specs.Printing.{GoesOn, IsPrinting};
ghost use Rattle.tee_pump.specs.Stopping.{Interrupts, IsEarly, StopsWhere};

use crate::pieces::Pieces;
use chunk_core::{Feed, How};
use device_port::{Gate, Sink};
use interrupt_ctx::{Board, BoardSeat, Stop, Why};
use std::collections::VecDeque;
use std::sync::Wait;
use std::thread::Scope;
use tee_branches::Branch;
use tee_prints::Printer;
use tee_texts::Texts;
use tee_workers::{Hired, Site, begin};

/// How many messages are printed at most before the branches that are here have their turns.
const AT_ONCE: u32 = 16;

/// Begins a worker for each branch.
pub(crate) fn begin_all<'s, E, F: Feed + Send + 's, R: Wait + Sync + 's, G: Gate + Sync + 's>(
    scope: &Scope<'s, E>,
    site: &'s Site<'s, R, G, Pieces, Texts>,
    branches: Vec<Branch<F>>,
    room: Vec<Hired<F>>,
) -> Vec<Hired<F>>
    requires branches { (ms : List Meaning) × AreBranches F.stands F.comes (record { topic = site.now.topic.now; hub = site.now.hub.now; board = site.now.board.now }) ms branches.items }
    requires empty { room.items ≡ [] }
    requires capacity { length branches.items ≤ vec_capacity room }
    ensures { (ms : List Meaning) → AreBranches F.stands F.comes (record { topic = site.now.topic.now; hub = site.now.hub.now; board = site.now.board.now }) ms branches.items → AreHired F.stands F.comes (record { topic = site.now.topic.now; hub = site.now.hub.now; board = site.now.board.now }) ms result.items }
{
    let mut left = VecDeque::from(branches);
    let mut hired = room;
    while let Some(branch) = left.pop_front() {
        hired.push_reserved(begin(scope, site, branch));
    }
    hired
}

/// Gives each branch that is here a turn, unless it is over.
pub(crate) fn turn_all<F: Feed, R: Wait, G: Gate>(
    site: &Site<'_, R, G, Pieces, Texts>,
    hired: &mut Vec<Hired<F>>,
)
    requires hired { (ms : List Meaning) × AreHired F.stands F.comes (record { topic = site.now.topic.now; hub = site.now.hub.now; board = site.now.board.now }) ms hired.old.items }
    ensures { (ms : List Meaning) → AreHired F.stands F.comes (record { topic = site.now.topic.now; hub = site.now.hub.now; board = site.now.board.now }) ms hired.old.items → AreHired F.stands F.comes (record { topic = site.now.topic.now; hub = site.now.hub.now; board = site.now.board.now }) ms hired.new.items }
{
    for i in 0..hired.len() {
        hired[i].turn(site);
    }
}

/// Prints the next message, where one came.
fn print_next<R: Wait, G: Gate, K: Sink>(
    site: &Site<'_, R, G, Pieces, Texts>,
    printer: &mut Printer,
    out: &mut K,
) -> bool
    requires { (n : ℕ) × (start : SinkTold) × IsPrinting site.now.hub.now n start (K.told out.old) printer.old }
    ensures printing { (n : ℕ) (start : SinkTold) → IsPrinting site.now.hub.now n start (K.told out.old) printer.old → IsPrinting site.now.hub.now n start (K.told out.new) printer.new }
    ensures goes_on { GoesOn printer.old printer.new }
{
    printer.take(site.rt, site.hub, out)
}

/// Prints what came, as far as it isn't too much at once. The answer says whether anything came.
pub(crate) fn print_all<R: Wait, G: Gate, K: Sink>(
    site: &Site<'_, R, G, Pieces, Texts>,
    printer: &mut Printer,
    out: &mut K,
) -> bool
    requires { (n : ℕ) × (start : SinkTold) × IsPrinting site.now.hub.now n start (K.told out.old) printer.old }
    ensures printing { (n : ℕ) (start : SinkTold) → IsPrinting site.now.hub.now n start (K.told out.old) printer.old → IsPrinting site.now.hub.now n start (K.told out.new) printer.new }
    ensures goes_on { GoesOn printer.old printer.new }
{
    for n in 0..AT_ONCE {
        if !print_next(site, printer, out) {
            return n > 0;
        }
    }
    true
}

/// Interrupts the run.
pub(crate) fn interrupt(board: &Board, seat: &mut BoardSeat, why: Why)
    requires board { (seat.old.board ≡ board.now.id) × (0 < board.now.contexts) }
    ensures { Interrupts seat.old seat.new }
{
    seat.set(board, 0, Stop { why, at: 0 });
}

/// Interrupts the run where a write failed, or where a branch found a fault or no memory.
pub(crate) fn stop(board: &Board, seat: &mut BoardSeat, printer: &Printer)
    requires board { (seat.old.board ≡ board.now.id) × (0 < board.now.contexts) }
    ensures { StopsWhere (MustStop printer.now.ends.items printer.now.broken) seat.old seat.new }
{
    if printer.must_stop() {
        interrupt(board, seat, Why::Fault);
    }
}

/// Interrupts the run where the reader wasn't done.
pub(crate) fn stop_early(board: &Board, seat: &mut BoardSeat, how: How)
    requires board { (seat.old.board ≡ board.now.id) × (0 < board.now.contexts) }
    ensures { StopsWhere (IsEarly how) seat.old seat.new }
{
    match how {
        How::Done => {}
        How::Fault(_) | How::Halted | How::Memory => interrupt(board, seat, Why::Fault),
    }
}
