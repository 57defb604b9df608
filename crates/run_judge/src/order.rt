//! Judges when streams began, and the outer stream.
use crate::run::Run;
use crate::wrongs::Wrongs;
use printed_parts::{End, What, partial_frame};
use std::alloc::AllocError;

/// The first stream behind which none may begin, where one runs after the other: one that had a fault, that printed the last frame that is
/// wanted, or of which a frame could not be written whole.
fn stop_of(run: &Run<'_>) -> usize {
    let faulty = run.ends.iter().skip(1).position(|end| end.is_fault());
    let full = match run.frames.last() {
        Some(frame) if run.is_full() => frame.stream,
        _ => usize::MAX,
    };
    let cut = match partial_frame(run.rest) {
        Some((k, _)) if run.seen.is_cut() => k,
        _ => usize::MAX,
    };
    full.min(cut).min(faulty.unwrap_or(usize::MAX))
}

/// Where the root of an outer stream was closed that did not give all, or else the place behind all.
fn outer_stop(run: &Run<'_>) -> usize {
    match run.outer_end() {
        End::Done => usize::MAX,
        end => {
            let close = What::Close(0, end.exit());
            run.place_of(None, close).unwrap_or(usize::MAX)
        }
    }
}

/// Streams that began behind a stop, where one runs after the other.
pub(crate) fn judge_stops(run: &Run<'_>, wrongs: &mut Wrongs) -> Result<(), AllocError> {
    if run.plan.width() != 1 {
        return Ok(());
    }
    let (stop, outer) = (stop_of(run), outer_stop(run));
    for k in 0..run.count() {
        let has_begun = run.has_begun(k);
        let holds = first_of(run, k).is_none_or(|first| first < outer);
        wrongs.unless(holds, "a stream began behind the end of the outer one", k)?;
        wrongs.unless(k <= stop || !has_begun, "a stream began behind a stop", k)?;
        let until = run.stream(k).and_then(|stream| stream.until);
        let is_over = |other: usize| other < k && run.cancel_of(other).is_some();
        let holds = !has_begun || !until.is_some_and(is_over);
        wrongs.unless(holds, "a stream began behind its until", k)?;
    }
    Ok(())
}

/// Whether before this place the outer stream had leased for this stream and for the next one, or closed its root.
fn is_its_turn(run: &Run<'_>, k: usize, place: usize) -> bool {
    let is_before = |found: Option<usize>| found.is_some_and(|at| at < place);
    let close = What::Close(0, run.outer_end().exit());
    let next = k.saturating_add(1);
    let ahead = if next < run.count() {
        What::Lease(next, run.scope_of(next))
    } else {
        close
    };
    is_before(run.place_of(None, What::Lease(k, run.scope_of(k))))
        && is_before(run.place_of(None, ahead))
}

/// Where a stream's first event stands.
fn first_of(run: &Run<'_>, k: usize) -> Option<usize> {
    run.events.iter().position(|event| event.by == Some(k))
}

/// How many of the streams in front of this one weren't over at this place.
fn open_before(run: &Run<'_>, k: usize, place: usize) -> usize {
    (0..k).filter(|other| run.over_at(*other) > place).count()
}

/// Streams that began before their turn, or where as many as may be open in front of them weren't over.
pub(crate) fn judge_order(run: &Run<'_>, wrongs: &mut Wrongs) -> Result<(), AllocError> {
    for k in 0..run.count() {
        if let Some(first) = first_of(run, k) {
            let holds = is_its_turn(run, k, first);
            wrongs.unless(holds, "a stream began before its turn", k)?;
            let holds = open_before(run, k, first) < run.plan.width();
            wrongs.unless(holds, "too many streams are open", k)?;
        }
    }
    Ok(())
}

/// Whether the outer stream may have noted this, but for the Close of its root, where it ended so: all that there is to note where it ended
/// by itself. Where it was halted a front of that behind a lease, and nothing where no frame is wanted.
fn may_note(run: &Run<'_>, noted: &[What], end: End) -> bool {
    if run.plan.take == Some(0) {
        return noted.is_empty() && end == End::Halted;
    }
    match end {
        End::Halted => {
            let is_lease = matches!(noted.last(), Some(What::Lease(..)));
            is_lease && run.outer.notes.starts_with(noted)
        }
        _ => end == run.outer.end && run.outer.notes.as_slice() == noted,
    }
}

/// The events of the outer stream but for its Finals and Cancels.
fn notes_of(run: &Run<'_>, wrongs: &mut Wrongs) -> Result<Vec<What>, AllocError> {
    let mut noted = Vec::new(run.alloc);
    for event in run.events.iter().filter(|event| event.by.is_none()) {
        match event.what {
            What::Final(..) => {}
            What::Cancel(k, exit) => {
                let holds = exit == "canceled";
                wrongs.unless(holds, "the outer stream cancelled otherwise", k)?;
            }
            what => noted.push(what)?,
        }
    }
    Ok(noted)
}

/// The outer stream's end and its events. A line of the list has an end where it was leased for.
pub(crate) fn judge_outer(run: &Run<'_>, wrongs: &mut Wrongs) -> Result<(), AllocError> {
    let (end, mut noted) = (run.outer_end(), notes_of(run, wrongs)?);
    let is_closed = noted.pop() == Some(What::Close(0, end.exit()));
    wrongs.unless(is_closed, "the outer stream's root was closed otherwise", 0)?;
    let holds = may_note(run, &noted, end);
    wrongs.unless(
        holds,
        "the outer stream noted or ended otherwise",
        noted.len(),
    )?;
    let described = run.plan.streams.len();
    let is_listed = |what: &What| matches!(*what, What::Lease(k, _) if k >= described);
    let leases = noted.iter().filter(|what| is_listed(what)).count();
    let ends = leases.saturating_add(described).saturating_add(1);
    let holds = leases == run.listed.len() && ends == run.ends.len();
    wrongs.unless(
        holds,
        "not the ends of the lines that were leased for",
        leases,
    )
}
