//! Judges a run of a description: all that was printed, or the front of it where a write failed.
use crate::ends::{judge_frames, judge_halts};
use crate::order::{judge_order, judge_outer, judge_stops};
use crate::outer::{listed_of, outer_of};
use crate::run::{Run, names_of};
use crate::seen::{Seen, judge_devices, judge_status, status_of};
use crate::streams::judge_streams;
use crate::wrongs::Wrongs;
use printed_parts::{EXITS, End, Event, What, frames_of, partial_frame, payloads_of, tail_of};
use random_files::File;
use random_plans::Plan;
use slow_ledger::{Verdict, verdict_of};
use std::alloc::{AllocError, Global};

/// How many Finals of rows of this file have this exit.
fn finals_so(run: &Run<'_>, place: usize, exit: &str) -> usize {
    let mut count = 0usize;
    for event in &run.events {
        if let What::Final(row, other, _) = event.what {
            let is_so = other == exit && run.rows.get(row) == Some(&place);
            count = count.saturating_add(usize::from(is_so));
        }
    }
    count
}

/// The devices of each path were closed as the Finals of its rows tell, and each Final tells whether its close failed.
fn judge_closes(run: &Run<'_>, wrongs: &mut Wrongs) -> Result<(), AllocError> {
    for (place, file) in run.files.iter().enumerate() {
        for exit in EXITS {
            let closes = run.seen.closes_so(file.path.as_str(), exit);
            let holds = closes == finals_so(run, place, exit);
            wrongs.unless(holds, "the Finals of a file aren't its closes", place)?;
        }
    }
    for event in &run.events {
        if let What::Final(row, _, is_ok) = event.what {
            let holds = run.is_good(row) == is_ok;
            wrongs.unless(holds, "a Final tells otherwise of its close", row)?;
        }
    }
    Ok(())
}

/// The devices that were opened to be written are those of the streams that write a file, one of each.
fn judge_written(run: &Run<'_>, wrongs: &mut Wrongs) -> Result<(), AllocError> {
    let mut count = 0usize;
    for stream in &run.plan.streams {
        let file = stream.to.and_then(|to| run.files.get(to));
        let is_so = file.is_some_and(|file| run.seen.wrote(file.path.as_str()).is_some());
        count = count.saturating_add(usize::from(is_so));
    }
    let opened = run.seen.opens_written();
    wrongs.unless(
        opened == count,
        "devices that no stream writes are opened so",
        opened,
    )
}

/// Whether the stream may print this behind its whole frames.
fn fits_part(run: &Run<'_>, k: usize, part: &[u8]) -> Result<bool, AllocError> {
    let Some(stream) = run.stream(k) else {
        return Ok(false);
    };
    let (mut text, _) = payloads_of(run.alloc, run.seen.out.written(), &run.frames, k)?;
    text.extend_from_slice(part)?;
    let texts = run.texts(stream)?;
    Ok(stream.to.is_none() && texts.iter().any(|it| it.allows(&text, End::Cut)))
}

/// Whether this is a front of a frame's head: numbers with a space between them, as far as they are there.
fn is_head(rest: &[u8]) -> bool {
    let spaces = rest.iter().filter(|byte| **byte == b' ').count();
    let is_spelled = rest
        .iter()
        .all(|byte| byte.is_ascii_digit() || *byte == b' ');
    is_spelled && spaces <= 1 && rest.first() != Some(&b' ')
}

/// Whether what stands behind the whole frames is right: the tail, or where a write failed a front of that, or, where one more is wanted, of
/// a frame of a stream that may go on so.
fn fits_rest(run: &Run<'_>) -> Result<bool, AllocError> {
    let (tail, rest) = (run.seen.tail.as_slice(), run.rest);
    if !run.seen.is_cut() {
        return Ok(rest == tail);
    }
    if tail.starts_with(rest) && rest.len() < tail.len() {
        return Ok(true);
    }
    if run.is_full() {
        return Ok(false);
    }
    match partial_frame(rest) {
        Some((k, part)) => fits_part(run, k, part),
        None => Ok(is_head(rest)),
    }
}

/// All that is to hold of a run.
fn judge_all(run: &Run<'_>, wrongs: &mut Wrongs) -> Result<(), AllocError> {
    let (count, events) = (run.frames.len(), run.events.len());
    wrongs.unless(
        fits_rest(run)?,
        "what stands behind the frames isn't right",
        count,
    )?;
    let verdict = verdict_of(run.alloc, &run.events)?;
    wrongs.unless(verdict == Verdict::Good, "the ledger breaks a rule", events)?;
    judge_devices(run.seen, &run.events, wrongs)?;
    judge_closes(run, wrongs)?;
    judge_written(run, wrongs)?;
    judge_status(run.seen, status_of(&run.ends, &run.events), wrongs)?;
    judge_frames(run, wrongs)?;
    judge_halts(run, wrongs)?;
    judge_stops(run, wrongs)?;
    judge_order(run, wrongs)?;
    judge_outer(run, wrongs)?;
    judge_streams(run, wrongs)
}

/// The ends and the events that a text tells of a run, in which up to as many lines of its list were given streams as may be.
fn told_by(
    alloc: Global,
    plan: &Plan,
    text: &[u8],
) -> Result<Option<(Vec<End>, Vec<Event>)>, AllocError> {
    let described = plan.streams.len();
    for count in described..=described.saturating_add(plan.most_listed()) {
        let told = tail_of(alloc, text, &names_of(alloc, count)?)?;
        if told.is_some() {
            return Ok(told);
        }
    }
    Ok(None)
}

/// Judges a run of a description that isn't refused.
pub fn judge_run(
    plan: &Plan,
    files: &[File],
    seen: &Seen,
    wrongs: &mut Wrongs,
) -> Result<(), AllocError> {
    let (alloc, out) = (wrongs.alloc, seen.out.written());
    let (frames, at) = frames_of(alloc, out)?;
    let Some((ends, events)) = told_by(alloc, plan, seen.tail.as_slice())? else {
        return wrongs.unless(false, "no ends and no ledger are told", at);
    };
    let outer = outer_of(alloc, plan, files)?;
    let given = ends
        .len()
        .saturating_sub(plan.streams.len().saturating_add(1));
    let listed = listed_of(alloc, plan, files, &outer, given)?;
    let rows = plan.rows(alloc, &listed)?;
    let run = Run {
        alloc,
        plan,
        listed,
        files,
        seen,
        frames,
        rest: out.get(at..).unwrap_or(b""),
        ends,
        events,
        rows,
        outer,
    };
    judge_all(&run, wrongs)
}
