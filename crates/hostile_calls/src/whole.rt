//! Judges calls of which the whole output is known, but for a few words.
use crate::ledgers::ledger_text;
use device_port::Act;
use printed_parts::{End, Event, What, Who, put_end, tail_of};
use random_files::File;
use run_judge::{Seen, Wrongs, judge_devices, judge_status};
use slow_ledger::{Verdict, verdict_of};
use std::alloc::{AllocError, Global};

/// One of the texts was printed with its status, or where a write failed a proper front of one.
pub(crate) fn judge_text(
    seen: &Seen,
    status: u8,
    texts: &[Vec<u8>],
    wrongs: &mut Wrongs,
) -> Result<(), AllocError> {
    let (out, is_cut) = (seen.out.written(), seen.is_cut());
    let fits = texts.iter().any(|text| match is_cut {
        true => text.starts_with(out) && out.len() < text.len(),
        false => text.as_slice() == out,
    });
    wrongs.unless(fits, "it can't print that", out.len())?;
    judge_status(seen, status, wrongs)
}

/// The tail that was reported was printed, its ledger keeps the rules, and each device came back and has its Final.
pub(crate) fn judge_ledger(
    seen: &Seen,
    names: &[String],
    wrongs: &mut Wrongs,
) -> Result<(), AllocError> {
    let tail = seen.tail.as_slice();
    let is_printed = seen.is_cut() || seen.out.written().ends_with(tail);
    wrongs.unless(is_printed, "another tail was reported", tail.len())?;
    let Some((_, events)) = tail_of(wrongs.alloc, tail, names)? else {
        return wrongs.unless(false, "no ends and no ledger are told", 0);
    };
    let verdict = verdict_of(wrongs.alloc, &events)?;
    wrongs.unless(
        verdict == Verdict::Good,
        "the ledger breaks a rule",
        events.len(),
    )?;
    judge_devices(seen, &events, wrongs)
}

/// The events of who reads this file, whose root was closed so.
pub(crate) fn events_of_one(
    alloc: Global,
    by: Who,
    file: &File,
    exit: &'static str,
) -> Result<Vec<Event>, AllocError> {
    let what = What::Close(0, exit);
    let mut events = vec![in alloc; Event { by, what }]?;
    if file.can_open(false) {
        let what = What::Acquire(0, 0);
        events.insert(0, Event { by, what })?;
        let what = What::Final(0, exit, !file.fails_to(Act::Close));
        events.push(Event { by, what })?;
    }
    Ok(events)
}

/// These frames, and the tail of stream 0, which ended so and noted this.
pub(crate) fn output_of(
    alloc: Global,
    frames: &[u8],
    end: End,
    events: &[Event],
) -> Result<Vec<u8>, AllocError> {
    let mut tail = String::new(alloc);
    put_end(&mut tail, "0", end)?;
    tail.push_str(ledger_text(alloc, events.len(), events)?.as_str())?;
    let mut text = Vec::from_slice(alloc, frames)?;
    text.extend_from_slice(tail.as_bytes())?;
    Ok(text)
}
