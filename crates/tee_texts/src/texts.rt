//! The fact of the channel of a tee.
use channel_bounded::May;

/// All that goes through the channel are ends and texts.
pub struct Texts;

impl May for Texts {
    ghost use Rattle.tee_texts.specs.Texts.{AreTexts};

    ghost may = { AreTexts };
}
