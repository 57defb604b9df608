//! The board, and the seats at it.
ghost use Rattle.std.specs.Prelude.{◌≡◌, ◌⊎◌, ◌<◌, ◌≤◌, ◌^◌, true, false, IfOk, IsSome, Some};
ghost use Rattle.std.specs.Bool.{OnTrue, OnFalse};
ghost use Rattle.std.specs.Option.{option_or};
ghost use Rattle.interrupt_ctx.specs.Views.{FindsKnown, HasSetAll, IsOfOneBoard, IsOwn, Knows, after_look, giving, joined, split_off};
ghost use Rattle.interrupt_ctx.specs.Ends.{HasFound, HasSet, first_seat};

use crate::rule::{Contexts, Learns, LooksAtOwn, LooksAtRoot, Parts, Sets};
use crate::view::View;
use crate::why::{Stop, stop_of};
use atomic_table::{Seat, Table};
use std::alloc::{AllocError, Global};
use std::marker::Model;

/// The words of the contexts, which threads share.
#[derive(Drop)]
pub struct Board {
    table: Table<u8, View, usize, Contexts, Global>,
}

impl Model for Board {
    ghost use Rattle.interrupt_ctx.specs.Ends.{BoardSeen, seen_board, IsSized};

    ghost Value = { BoardSeen };

    ghost view = { λ b. seen_board b.table };

    ghost invariant = { λ b. IsSized b.table };
}

/// The right to set and to look. It has no bytes, and may go to another thread.
#[derive(Drop)]
pub struct BoardSeat {
    seat: Seat<u8, View>,
}

impl Model for BoardSeat {
    ghost use Rattle.interrupt_ctx.specs.Ends.{SeatSeen, seen_seat, IsInUse};

    ghost Value = { SeatSeen };

    ghost view = { λ s. seen_seat s.seat };

    ghost invariant = { λ s. IsInUse s.seat };
}

impl Board {
    /// A board on which nothing is set, and its first seat.
    pub fn new(alloc: Global, contexts: u32) -> Result<(Board, BoardSeat), AllocError>
        requires { 1 ≤ contexts }
        ensures board { IfOk result (λ made. made.0.contexts ≡ contexts) }
        ensures seat { IfOk result (λ made. made.1 ≡ first_seat made.0.id) }
    {
        let count = contexts as usize;
        let words = Vec::from_elem(alloc, 0u64, count)?;
        let (table, seat) = Table::of_words(alloc, words.as_slice(), &count)?;
        Ok((Board { table }, BoardSeat { seat }))
    }
}

impl BoardSeat {
    /// Interrupts a context, unless that was done before. True exactly where this call found no code
    /// there; the context has this one then, for good.
    pub fn set(&mut self, board: &Board, context: u32, stop: Stop) -> bool
        requires fits { self.old.board ≡ board.now.id }
        requires context { context < board.now.contexts }
        requires at { stop.at < 2 ^ 60 }
        ensures set { OnTrue result (HasSet self.old self.new context stop) }
        ensures stood { OnFalse result ((there : Stop) × HasFound self.old self.new context there × IsOwn self.old.view context (Some there)) }
        ensures known { (there : Stop) → Knows self.old.view context there → (result ≡ false) × HasFound self.old self.new context there }
    {
        let word = board
            .table
            .shared
            .compare_exchange::<Sets>(&mut self.seat, context as usize, 0, stop.code());
        stop_of(word).is_none()
    }

    /// Why a context is to stop: its own code, or where it has none that of the whole run. None only
    /// where this call found neither.
    pub fn look(&mut self, board: &Board, context: u32) -> Option<Stop>
        requires fits { self.old.board ≡ board.now.id }
        requires context { context < board.now.contexts }
        ensures look { self.new ≡ record self.old { view = after_look self.old.view context self.new.view.last.own self.new.view.last.root } }
        ensures answer { result ≡ option_or self.new.view.last.own self.new.view.last.root }

        // What this seat knows of the two contexts is what it found.
        ensures own { FindsKnown self.old.view context self.new.view.last.own }
        ensures root { FindsKnown self.old.view 0 self.new.view.last.root }
        ensures kept { (stop : Stop) → Knows self.old.view context stop ⊎ Knows self.old.view 0 stop → IsSome result }

        // While no other seat is out, the first one finds only what it has set.
        ensures alone { IsOwn self.old.view context self.new.view.last.own × IsOwn self.old.view 0 self.new.view.last.root }
    {
        let own = stop_of(
            board
                .table
                .shared
                .load::<LooksAtOwn>(&mut self.seat, context as usize),
        );
        let root = stop_of(board.table.shared.load::<LooksAtRoot>(&mut self.seat, 0));
        own.or(root)
    }

    /// A further seat, which has seen what this one knows.
    pub fn split(&mut self, board: &Board) -> BoardSeat
        requires fits { self.old.board ≡ board.now.id }
        requires first { self.old.view.first ≡ true }
        ensures this { self.new ≡ record self.old { view = giving self.old.view } }
        ensures other { result ≡ record self.old { view = split_off self.old.view } }
    {
        let seat = board.table.shared.split_seat::<Parts>(&mut self.seat);
        BoardSeat { seat }
    }

    /// Takes in what another seat has set and seen. Once no seat is out any more, all that this one knows
    /// of was set by it or by a seat that it took in.
    pub fn join(&mut self, board: &Board, other: BoardSeat)
        requires fits { (self.old.board ≡ board.now.id) × (other.board ≡ board.now.id) }
        requires first { self.old.view.first ≡ true }
        ensures this { self.new ≡ record self.old { view = joined self.old.view other.view } }
        ensures agree { IsOfOneBoard self.new.view }
        ensures all { self.new.view.out ≡ 0 → HasSetAll self.new.view }
    {
        let BoardSeat { seat } = other;
        board.table.shared.join_seat::<Parts>(&mut self.seat, seat);
        // A join of the table's seats tells nothing, so word 0 is loaded once more.
        board.table.shared.load::<Learns>(&mut self.seat, 0);
    }
}
