//! The fact of the topic of a tee.
use channel_bounded::May;

/// All that is published are ends and loads of bytes.
pub struct Pieces;

impl May for Pieces {
    ghost use Rattle.tee_pump.specs.Pieces.{ArePieces};

    ghost may = { ArePieces };
}
