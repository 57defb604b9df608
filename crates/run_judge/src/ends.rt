//! Judges a run's frames and its halts.
use crate::run::Run;
use crate::wrongs::Wrongs;
use printed_parts::End;
use std::alloc::AllocError;

/// The numbers and the count of the frames.
pub(crate) fn judge_frames(run: &Run<'_>, wrongs: &mut Wrongs) -> Result<(), AllocError> {
    let count = run.frames.len();
    let most = run.plan.take.unwrap_or(count);
    wrongs.unless(count <= most, "too many frames", count)?;
    for frame in &run.frames {
        let stream = run.stream(frame.stream);
        let is_printed = stream.is_some_and(|it| it.to.is_none());
        wrongs.unless(is_printed, "a frame of no stream that prints", frame.stream)?;
    }
    Ok(())
}

/// Whether anything halts all: as many frames as may be, a fault, or a write that failed.
fn has_cause(run: &Run<'_>) -> bool {
    run.is_full() || run.has_fault() || run.seen.is_cut()
}

/// Whether the stream that this one ends with had ended before it.
fn is_until_over(run: &Run<'_>, k: usize) -> bool {
    let until = run.stream(k).and_then(|stream| stream.until);
    let over = until.and_then(|other| run.cancel_of(other));
    over.is_some_and(|place| place < run.over_at(k))
}

/// Streams that were halted without a cause, or began though no frame was wanted.
pub(crate) fn judge_halts(run: &Run<'_>, wrongs: &mut Wrongs) -> Result<(), AllocError> {
    let holds = run.outer_end() != End::Halted || has_cause(run);
    wrongs.unless(holds, "the outer stream was halted without a cause", 0)?;
    for k in 0..run.count() {
        let holds = run.end_of(k) != End::Halted || has_cause(run) || is_until_over(run, k);
        wrongs.unless(holds, "a stream was halted without a cause", k)?;
        let holds = run.plan.take != Some(0) || !run.has_begun(k);
        wrongs.unless(holds, "a stream began though no frame was wanted", k)?;
    }
    Ok(())
}
