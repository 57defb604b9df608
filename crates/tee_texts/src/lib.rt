//! What goes through the channel of a tee, as plain data: the texts of its branches and their ends.
//!
//! `Texts` is the fact of such a channel (`May` of channel_bounded): all that came and is queued are ends and
//! texts, of which each has bytes. `frames_in` are the frames of messages. Nothing here runs or fails.
#![tactic(auto)]

pub mod texts;

pub use texts::Texts;
