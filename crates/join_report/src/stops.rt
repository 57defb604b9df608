//! The board of interruption with the collector's own seat.
ghost use Rattle.std.specs.Prelude.{◌≡◌, ◌+◌, ◌-◌, ◌^◌, ◌<◌, IfOk};
ghost use Rattle.interrupt_ctx.specs.Ends.{first_seat};
ghost use Rattle.interrupt_ctx.specs.Views.{split_off};
ghost use Rattle.join_report.specs.Stopping.{Finds, Interrupts, IsSeated, Looks, view_of, with_seat_in, with_seat_out};

use interrupt_ctx::{Board, BoardRef, BoardSeat, Stop};
use std::alloc::{AllocError, Global};

/// The board, and the first seat at it.
#[derive(Drop)]
pub struct Stops {
    board: BoardRef,
    seat: BoardSeat,
}

impl Stops {
    /// A board of the run and so many streams, on which nothing is set.
    pub fn new(alloc: Global, streams: u32) -> Result<Stops, AllocError>
        requires few { streams < 2 ^ 32 - 1 }
        ensures contexts { IfOk result (λ s. s.board.contexts ≡ streams + 1) }
        ensures seat { IfOk result (λ s. s.seat ≡ first_seat s.board.id) }
        ensures seated { IfOk result (λ s. IsSeated s) }
    {
        let (board, seat) = Board::new(alloc, streams + 1)?;
        let board = BoardRef::new(alloc, board)?;
        Ok(Stops { board, seat })
    }

    /// The board, for those who have other seats.
    pub fn board(&self) -> &Board
        ensures { result.now ≡ self.now.board }
    {
        self.board.get()
    }

    /// A further handle on the board, for a thread.
    pub fn share(&self) -> Result<BoardRef, AllocError>
        ensures { IfOk result (λ b. b ≡ self.now.board) }
    {
        self.board.share()
    }

    /// Interrupts a context, unless that was done before.
    pub fn interrupt(&mut self, context: u32, stop: Stop)
        requires seated { IsSeated self.old }
        requires context { context < self.old.board.contexts }
        requires at { stop.at < 2 ^ 60 }
        ensures marks { Interrupts self.old self.new context stop }
        ensures board { self.new.board ≡ self.old.board }
        ensures seated { IsSeated self.new }
    {
        self.seat.set(self.board.get(), context, stop);
    }

    /// Why a context is interrupted, by its own code or by that of the whole run.
    pub fn look(&mut self, context: u32) -> Option<Stop>
        requires seated { IsSeated self.old }
        requires context { context < self.old.board.contexts }
        ensures finds { Finds self.old self.new context result }
        ensures board { self.new.board ≡ self.old.board }
        ensures seated { IsSeated self.new }
    {
        self.seat.look(self.board.get(), context)
    }

    /// Whether a context is interrupted, by its own code or by that of the whole run.
    pub fn is_set(&mut self, context: u32) -> bool
        requires seated { IsSeated self.old }
        requires context { context < self.old.board.contexts }
        ensures looks { Looks self.old self.new context result }
        ensures board { self.new.board ≡ self.old.board }
        ensures seated { IsSeated self.new }
    {
        self.look(context).is_some()
    }

    /// A seat for a stream, which has seen what this one knows.
    pub fn seat_for(&mut self) -> BoardSeat
        requires seated { IsSeated self.old }
        ensures other { result ≡ record self.old.seat { view = split_off (view_of self.old) } }
        ensures this { self.new ≡ with_seat_out self.old }
        ensures seated { IsSeated self.new }
    {
        self.seat.split(self.board.get())
    }

    /// Takes in what a stream's seat has set and seen.
    pub fn take_in(&mut self, other: BoardSeat)
        requires seated { IsSeated self.old }
        requires fits { other.board ≡ self.old.board.id }
        ensures this { self.new ≡ with_seat_in self.old other }
        ensures seated { IsSeated self.new }
    {
        self.seat.join(self.board.get(), other);
    }
}
