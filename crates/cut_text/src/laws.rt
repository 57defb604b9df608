//! What follows of a text that is whole, each the contract of a function that does nothing.
ghost use Rattle.cut_text.specs.Whole.{GivesBack, IsNotRefused, TailIsWhole};

/// Of frames and a tail behind them the payloads and the tail are given back; that is never told as
/// cut within a frame, nor as text that goes on as no frame does; and a whole tail is told as whole,
/// where memory isn't wanting.
pub fn whole_text_is_given_back()
    ensures back { GivesBack }
    ensures not_refused { IsNotRefused }
    ensures whole { TailIsWhole }
{}
