//! Judges calls of `rotate`.
use crate::singles::lone_name;
use crate::whole::{judge_ledger, judge_text, output_of};
use device_port::Act;
use printed_parts::{End, Event, Fault, What};
use random_files::File;
use run_judge::{Seen, Wrongs, judge_devices, status_of};
use slow_streams::{Given, read_of};
use std::alloc::{AllocError, Global};

/// How many files there may be.
const MOST: usize = 1_024;

/// How many bytes are read at a time.
const PIECE: usize = 4_096;

/// How many events a ledger has at most whose rules are looked up too, besides that it is compared with what it is to be: that takes
/// as long as the third power of the events.
const LONGEST: usize = 400;

/// What is written: the bytes of each file that was opened, whether its close is good, and how it ends.
#[derive(Drop)]
struct Rotated {
    pieces: Vec<Vec<u8>>,
    is_good: Vec<bool>,
    end: End,
}

/// The call that fails on the file of this path.
fn trip_of(files: &[File], path: &str) -> Option<Act> {
    let file = files.iter().find(|file| file.path.as_str() == path)?;
    let (act, _) = file.trip?;
    Some(act)
}

/// What a copy of these bytes in files of this length writes.
fn rotate_by(
    alloc: Global,
    files: &[File],
    given: &Given,
    length: usize,
) -> Result<Rotated, AllocError> {
    let mut rotated = Rotated {
        pieces: Vec::new(alloc),
        is_good: Vec::new(alloc),
        end: given.end,
    };
    for (number, piece) in given.bytes.chunks(length.max(1)).enumerate() {
        let path = format!(in alloc; "p.{number}")?;
        let trip = trip_of(files, path.as_str());
        let (fault, piece) = match trip {
            _ if number >= MOST => (Some(Fault::TooMany), None),
            Some(Act::Open) => (Some(Fault::Open), None),
            Some(Act::Write) => (Some(Fault::Write), Some(b"".as_slice())),
            _ => (None, Some(piece)),
        };
        if let Some(piece) = piece {
            rotated.pieces.push(Vec::from_slice(alloc, piece)?)?;
            rotated.is_good.push(trip != Some(Act::Close))?;
        }
        if let Some(fault) = fault {
            rotated.end = End::Fault(fault);
            break;
        }
    }
    Ok(rotated)
}

/// What is noted where the file could be opened: each file that is written is acquired before the one before it is let go.
fn noted_of(alloc: Global, file: &File, rotated: &Rotated) -> Result<Vec<What>, AllocError> {
    let exit = rotated.end.exit();
    let mut list = vec![in alloc; What::Acquire(0, 0)]?;
    let mut finals = Vec::new(alloc);
    for (number, is_good) in rotated.is_good.iter().enumerate() {
        let scope = number.saturating_add(1);
        list.push(What::OpenScope(scope, 0))?;
        list.push(What::Acquire(scope, scope))?;
        list.extend_from_slice(&finals)?;
        finals.clear();
        finals.push(What::Close(scope, "succeeded"))?;
        finals.push(What::Final(scope, "succeeded", *is_good))?;
    }
    list.push(What::Close(0, exit))?;
    if let Some(is_good) = rotated.is_good.last() {
        list.push(What::Final(rotated.is_good.len(), exit, *is_good))?;
    }
    list.push(What::Final(0, exit, !file.fails_to(Act::Close)))?;
    Ok(list)
}

/// All events.
fn events_of(alloc: Global, file: &File, rotated: &Rotated) -> Result<Vec<Event>, AllocError> {
    let noted = match file.can_open(false) {
        true => noted_of(alloc, file, rotated)?,
        false => vec![in alloc; What::Close(0, "errored")]?,
    };
    let mut events = Vec::new(alloc);
    for what in noted {
        events.push(Event { by: Some(0), what })?;
    }
    Ok(events)
}

/// Each file has its piece, and no further one was written.
fn judge_pieces(seen: &Seen, pieces: &[Vec<u8>], wrongs: &mut Wrongs) -> Result<(), AllocError> {
    let written = seen.opens_written();
    wrongs.unless(written == pieces.len(), "other files were written", written)?;
    for (number, piece) in pieces.iter().enumerate() {
        let path = format!(in wrongs.alloc; "p.{number}")?;
        let holds = seen.wrote(path.as_str()) == Some(piece.as_slice());
        wrongs.unless(holds, "a file has another piece", number)?;
    }
    Ok(())
}

/// What `rotate` prints and writes.
pub(crate) fn judge_rotate(
    seen: &Seen,
    files: &[File],
    file: &File,
    length: usize,
    wrongs: &mut Wrongs,
) -> Result<(), AllocError> {
    let alloc = wrongs.alloc;
    let rotated = rotate_by(alloc, files, &read_of(alloc, file, PIECE)?, length)?;
    let events = events_of(alloc, file, &rotated)?;
    let text = output_of(alloc, b"", rotated.end, &events)?;
    let status = status_of(&[rotated.end], &events);
    judge_text(seen, status, &vec![in alloc; text]?, wrongs)?;
    judge_pieces(seen, &rotated.pieces, wrongs)?;
    if events.len() > LONGEST {
        judge_devices(seen, &events, wrongs)
    } else {
        judge_ledger(seen, &lone_name(alloc)?, wrongs)
    }
}
