//! What is known of each message.
use channel_bounded::May;

/// Each load that came or is queued has elements.
pub struct Filled;

impl May for Filled {
    ghost use Rattle.collector.specs.Filled.{AreFilled};

    ghost may = { AreFilled };
}
