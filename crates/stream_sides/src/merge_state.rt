//! Turns of two sides that are merged.
ghost use Rattle.std.specs.Prelude.{◌≡◌, ◌⊎◌, ◌↔◌, true, false, IsTrue};
ghost use Rattle.stream_sides.specs.Sides.{other};
ghost use Rattle.stream_sides.specs.MergeTurns.{IsGoing, has_ended, with_ended};
ghost use Rattle.stream_sides.specs.declared.side.Side.TheVariants as side;

use crate::side::Side;
use std::marker::Model;

/// Which side is asked next, and which sides have ended.
#[derive(Drop)]
pub struct MergeState {
    turn: Side,
    left_ended: bool,
    right_ended: bool,
}

impl Model for MergeState {
    ghost use Rattle.stream_sides.specs.MergeTurns.{MergeTurns};

    ghost Value = { MergeTurns };

    ghost view = { λ state. record { turn = state.turn; left_ended = state.left_ended; right_ended = state.right_ended } };
}

impl MergeState {
    /// No side has ended, and the left one is next.
    pub fn new() -> MergeState
        ensures { result ≡ record { turn = side.Left; left_ended = false; right_ended = false } }
    {
        MergeState {
            turn: Side::Left,
            left_ended: false,
            right_ended: false,
        }
    }

    /// Both sides have ended.
    pub fn is_done(&self) -> bool
        ensures { IsTrue result ↔ ((has_ended self.now side.Left ≡ true) × (has_ended self.now side.Right ≡ true)) }
    {
        self.left_ended && self.right_ended
    }

    fn has_ended(&self, side: Side) -> bool
        ensures { result ≡ has_ended self.now side }
    {
        match side {
            Side::Left => self.left_ended,
            Side::Right => self.right_ended,
        }
    }

    /// The side that is to be asked.
    pub fn next(&self) -> Side
        requires { IsGoing self.now side.Left ⊎ IsGoing self.now side.Right }
        ensures going { IsGoing self.now result }
        ensures fair { IsGoing self.now self.now.turn → result ≡ self.now.turn }
    {
        if self.has_ended(self.turn) {
            self.turn.other()
        } else {
            self.turn
        }
    }

    /// The side gave something.
    pub fn gave(&mut self, side: Side)
        ensures { self.new ≡ record self.old { turn = other side } }
    {
        self.turn = side.other();
    }

    /// The side has ended.
    pub fn ended(&mut self, side: Side)
        ensures { self.new ≡ with_ended self.old side }
    {
        match side {
            Side::Left => self.left_ended = true,
            Side::Right => self.right_ended = true,
        }
    }
}
