//! A text that comes piece by piece, and what it gives so far.
ghost use Rattle.std.specs.Prelude.{◌≡◌, ◌++◌, [], OnOk, IfOk, if◌then◌else◌};
ghost use Rattle.cut_frames.specs.Taken.{IsFed, IsTaken};
ghost use Rattle.cut_frames.specs.declared.step.Place.TheVariants.{Between};

use crate::step::{Place, Step, next_step};
use std::alloc::{AllocError, Global};

/// Where a reader of frames stands, and what it has of the text behind that place.
#[derive(Drop)]
pub struct Cutter {
    pub wanted: Option<u64>,
    pub place: Place,
    pub held: Vec<u8>,
}

/// What became of a piece.
#[derive(Drop)]
pub struct Fed {
    /// What it gives.
    pub given: Vec<u8>,
    /// How many bytes were taken, of those that were held and of the piece.
    pub taken: usize,
    /// The text doesn't go on as frames do.
    pub refused: bool,
}

impl Cutter {
    pub fn new(alloc: Global, wanted: Option<u64>) -> Cutter
        ensures wanted { result.wanted ≡ wanted }
        ensures place { result.place ≡ Between }
        ensures held { result.held.items ≡ [] }
    {
        Cutter {
            wanted,
            place: Place::Between,
            held: Vec::new(alloc),
        }
    }

    /// Takes what it can of what is held and of a piece behind it.
    pub fn feed(&mut self, alloc: Global, piece: &[u8]) -> Result<Fed, AllocError>
        ensures { IfOk result (λ fed. IsFed self.old self.new piece.now fed) }
    {
        self.held.extend_from_slice(piece)?;
        let (fed, place) = take_all(alloc, self.wanted, self.place, self.held.as_slice())?;
        self.place = place;
        self.held = Vec::from_slice(alloc, &self.held[fed.taken..])?;
        Ok(fed)
    }
}

/// Takes what it can of the text behind a place, and tells where it then stands.
fn take_all(
    alloc: Global,
    wanted: Option<u64>,
    place: Place,
    text: &[u8],
) -> Result<(Fed, Place), AllocError>
    ensures { IfOk result (λ r. IsTaken wanted place text.now r.0 r.1) }
{
    let mut given = Vec::new(alloc);
    let mut at = place;
    let mut taken = 0;
    'steps: loop {
        let rest = &text[taken..];
        match next_step(wanted, at, rest) {
            Step::Takes { count, gives, next } => {
                give(&mut given, gives, &rest[..count])?;
                taken += count;
                at = next;
            }
            Step::Waits => return Ok((
                Fed {
                    given,
                    taken,
                    refused: false,
                },
                at,
            )),
            Step::Refuses => return Ok((
                Fed {
                    given,
                    taken,
                    refused: true,
                },
                at,
            )),
        }
    }
}

/// Appends a part, where it is to be given.
fn give(given: &mut Vec<u8>, gives: bool, part: &[u8]) -> Result<(), AllocError>
    ensures { OnOk result (given.new.items ≡ given.old.items ++ (if gives then part.now else [])) }
{
    if gives {
        given.extend_from_slice(part)?;
    }
    Ok(())
}
