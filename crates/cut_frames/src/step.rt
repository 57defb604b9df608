//! One step along frames.
ghost use Rattle.std.specs.Prelude.{◌≡◌, ◌<◌, get_or, true, false};
ghost use Rattle.cut_frames.specs.Frames.{IsDigit, Steps, is_chosen};
ghost use Rattle.cut_frames.specs.Heads.{HasNoHead};
ghost use Rattle.cut_frames.specs.declared.step.Place.TheVariants.{Between, Within};

use crate::heads::{head_in_front, split_once};

/// More bytes than any head has.
const MOST_HEAD: usize = 42;

/// Where a reader of frames stands.
#[derive(Clone, Copy, Debug, PartialEq, Eq)]
pub enum Place {
    /// Before a head, or before the tail.
    Between,
    /// Within a payload, or before the LF behind it, where nothing of it is left. Its bytes are
    /// given where its stream is asked for.
    Within { left: u64, gives: bool },
}

/// What is done with the text behind a place.
#[derive(Clone, Copy, Debug, PartialEq, Eq)]
pub enum Step {
    /// So many bytes are taken, and given or not, and then the reader stands there.
    Takes {
        count: usize,
        gives: bool,
        next: Place,
    },
    /// Nothing can be taken before there is more.
    Waits,
    /// It doesn't go on as frames do.
    Refuses,
}

/// Whether the frames of a stream are asked for.
fn is_asked_for(wanted: Option<u64>, stream: u64) -> bool
    ensures { result ≡ is_chosen wanted stream }
{
    match wanted {
        Some(one) => stream == one,
        None => true,
    }
}

/// Whether the text begins as a head does.
pub fn begins_with_digit(text: &[u8]) -> bool
    ensures digit { result ≡ true → IsDigit (get_or text.now 0 0) }
    ensures other { result ≡ false → ¬ (IsDigit (get_or text.now 0 0)) }
{
    if text.is_empty() {
        return false;
    }
    text[0] >= b'0' && text[0] <= b'9'
}

/// What is done with the text behind a place.
pub fn next_step(wanted: Option<u64>, place: Place, text: &[u8]) -> Step
    ensures { Steps wanted place text.now result }
{
    match place {
        Place::Between => step_between(wanted, text),
        Place::Within { left: 0, gives } => step_behind(wanted, gives, text),
        Place::Within { left, gives } => step_within(wanted, left, gives, text),
    }
}

fn step_between(wanted: Option<u64>, text: &[u8]) -> Step
    ensures { Steps wanted (Between) text.now result }
{
    if !begins_with_digit(text) {
        return Step::Waits;
    }
    let Some((stream, left, rest)) = head_in_front(text) else {
        return step_at_no_head(wanted, text);
    };
    let gives = is_asked_for(wanted, stream);
    Step::Takes {
        count: text.len() - rest.len(),
        gives: false,
        next: Place::Within { left, gives },
    }
}

/// What is done where a digit begins the text, and no head.
fn step_at_no_head(wanted: Option<u64>, text: &[u8]) -> Step
    requires digit { IsDigit (get_or text.now 0 0) }
    requires none { HasNoHead text.now }
    ensures { Steps wanted (Between) text.now result }
{
    if text.len() >= MOST_HEAD {
        return Step::Refuses;
    }
    match split_once(text, b'\n') {
        Some(_) => Step::Refuses,
        None => Step::Waits,
    }
}

fn step_behind(wanted: Option<u64>, gives: bool, text: &[u8]) -> Step
    ensures { Steps wanted (Within 0 gives) text.now result }
{
    if text.is_empty() {
        return Step::Waits;
    }
    if text[0] != b'\n' {
        return Step::Refuses;
    }
    Step::Takes {
        count: 1,
        gives: false,
        next: Place::Between,
    }
}

fn step_within(wanted: Option<u64>, left: u64, gives: bool, text: &[u8]) -> Step
    requires { 0 < left }
    ensures { Steps wanted (Within left gives) text.now result }
{
    if text.is_empty() {
        return Step::Waits;
    }
    let count = (text.len() as u64).min(left);
    Step::Takes {
        count: count as usize,
        gives,
        next: Place::Within {
            left: left - count,
            gives,
        },
    }
}
