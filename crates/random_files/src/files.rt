//! Files, and the calls on their devices that fail.
use crate::contents::{Flavour, content_of};
use crate::dice::Dice;
use device_port::Act;
use std::alloc::AllocError;

/// A path, what is there, and which call on each of its devices fails.
#[derive(Drop)]
pub struct File {
    pub path: String,
    /// None where nothing is there.
    pub content: Option<Vec<u8>>,
    pub trip: Option<(Act, u32)>,
}

impl File {
    /// How many bytes are there.
    pub fn length(&self) -> usize {
        self.content.as_ref().map_or(0, |content| content.len())
    }

    /// Whether a call of this kind fails.
    pub fn fails_to(&self, act: Act) -> bool {
        self.trip.is_some_and(|(other, _)| other == act)
    }

    /// Whether a device of it can be opened.
    pub fn can_open(&self, is_written: bool) -> bool {
        !self.fails_to(Act::Open) && (is_written || self.content.is_some())
    }
}

/// A call on a file that fails, in four of so many times: an open, a close, or two times one of this act.
pub fn trip_of(dice: &mut Dice, act: Act, of: usize) -> Option<(Act, u32)> {
    let nth = dice.few(3) as u32 + 1;
    match dice.below(of) {
        0 => Some((Act::Open, 1)),
        1 => Some((Act::Close, 1)),
        2 | 3 => Some((act, nth)),
        _ => None,
    }
}

/// Appends a file whose path is this letter with its place: its place.
pub fn add(
    dice: &Dice,
    files: &mut Vec<File>,
    name: &str,
    content: Option<Vec<u8>>,
    trip: Option<(Act, u32)>,
) -> Result<usize, AllocError> {
    let place = files.len();
    let path = format!(in dice.alloc; "{name}{place}")?;
    files.push(File {
        path,
        content,
        trip,
    })?;
    Ok(place)
}

/// Appends a file that is to be read: its place.
pub fn add_file(
    dice: &mut Dice,
    files: &mut Vec<File>,
    flavour: Flavour,
) -> Result<usize, AllocError> {
    let is_there = !dice.chance(40);
    let content = content_of(dice, flavour)?;
    let trip = trip_of(dice, Act::Read, 40);
    add(dice, files, "f", is_there.then_some(content), trip)
}
