//! A handle on the board, which owns it with the other handles.
ghost use Rattle.std.specs.Prelude.{◌≡◌, IfOk};

use crate::board::Board;
use std::alloc::{AllocError, Global};
use std::marker::Model;
use std::sync::Arc;

/// A handle on a board, which is there for as long as one of its handles. Contracts see the board.
#[derive(Drop)]
pub struct BoardRef {
    board: Arc<Board, Global>,
}

impl Model for BoardRef {
    ghost use Rattle.interrupt_ctx.specs.Ends.{BoardSeen};
    ghost use Rattle.std.specs.Arc.{arc_value};

    ghost Value = { BoardSeen };

    ghost view = { λ handle. arc_value handle.board };
}

impl BoardRef {
    /// The first handle on a board.
    pub fn new(alloc: Global, board: Board) -> Result<BoardRef, AllocError>
        ensures { IfOk result (λ handle. handle ≡ board) }
    {
        let board = Arc::new(alloc, board)?;
        Ok(BoardRef { board })
    }

    /// A further handle on the same board.
    pub fn share(&self) -> Result<BoardRef, AllocError>
        ensures { IfOk result (λ handle. handle ≡ self.now) }
    {
        let board = Arc::try_clone(&self.board)?;
        Ok(BoardRef { board })
    }

    /// The board.
    pub fn get(&self) -> &Board
        ensures { result.now ≡ self.now }
    {
        &self.board
    }
}
