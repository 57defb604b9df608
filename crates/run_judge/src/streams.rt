//! Judges each stream of a run: its output, the file that it writes, and its events.
use crate::run::Run;
use crate::wrongs::Wrongs;
use device_port::Act;
use printed_parts::{End, Fault, What, payloads_of};
use random_plans::Stream;
use slow_streams::Text;
use std::alloc::AllocError;

/// A stream with its number, its first row, how many of its rows were opened, all that it may give, and how it ended.
#[derive(Drop)]
struct Known<'a> {
    k: usize,
    row: usize,
    opened: usize,
    stream: &'a Stream,
    texts: Vec<Text>,
    end: End,
    /// Whether a write to the file fails that it writes.
    fails_to_write: bool,
}

impl Known<'_> {
    /// Whether it may have given this, in such pieces.
    fn allows(&self, given: &[u8], places: &[usize], end: End) -> bool {
        let mut texts = self.texts.iter();
        texts.any(|text| text.allows(given, end) && text.ends_at(places))
    }

    /// Whether it may have closed its root with this exit where this is all that it gives. Of one that was halted what it had given to the
    /// end may not be printed.
    fn may_close(&self, text: &Text, exit: &str) -> bool {
        match self.end {
            End::Halted => exit == "canceled" || text.end.exit() == exit,
            end => text.end == end,
        }
    }

    /// Whether it may have closed its root with this exit since a write failed.
    fn may_fail_to_write(&self, exit: &str) -> bool {
        match self.end {
            End::Halted => exit == "errored" && self.fails_to_write,
            end => end == End::Fault(Fault::Write),
        }
    }
}

/// Whether all pieces but the last have this length, and that one at most.
fn are_reads(places: &[usize], piece: usize) -> bool {
    let mut from = 0;
    for (number, to) in places.iter().enumerate() {
        let length = to.saturating_sub(from);
        let is_last = number.saturating_add(1) == places.len();
        if length > piece || length < piece && !is_last {
            return false;
        }
        from = *to;
    }
    true
}

/// What a stream printed.
fn judge_output(run: &Run<'_>, known: &Known<'_>, wrongs: &mut Wrongs) -> Result<(), AllocError> {
    let (k, stream) = (known.k, known.stream);
    let (text, places) = payloads_of(run.alloc, run.seen.out.written(), &run.frames, k)?;
    let fits = known.allows(&text, &places, known.end);
    wrongs.unless(fits, "a stream can't have printed that", k)?;
    let has_begun = run.has_begun(k) || text.is_empty();
    wrongs.unless(has_begun, "a stream printed and never began", k)?;
    let is_plain = stream.steps.is_empty() && stream.second.is_none() && stream.on_fault.is_none();
    let fits = !is_plain || are_reads(&places, run.plan.piece());
    wrongs.unless(fits, "the frames aren't the reads", k)
}

/// What a stream wrote to its file, which is that of its first row.
fn judge_file(run: &Run<'_>, known: &Known<'_>, wrongs: &mut Wrongs) -> Result<(), AllocError> {
    let Some(file) = run.file_of(known.row) else {
        return wrongs.unless(false, "there is no such file", known.k);
    };
    let acquire = What::Acquire(known.row, 0);
    let is_acquired = run.place_of(Some(known.k), acquire).is_some();
    let fits = match (run.seen.wrote(file.path.as_str()), known.end) {
        (None, end) => !is_acquired && known.allows(b"", &[], end),
        (Some(wrote), End::Fault(Fault::Write)) => {
            is_acquired && known.fails_to_write && known.allows(wrote, &[], End::Halted)
        }
        (Some(wrote), end) => is_acquired && known.allows(wrote, &[], end),
    };
    wrongs.unless(fits, "a stream can't have written that", known.k)
}

/// All that a stream notes as it opens its files, as far as they can be opened.
fn begun_of(run: &Run<'_>, known: &Known<'_>) -> Result<Vec<What>, AllocError> {
    let (to, opened) = (usize::from(known.stream.to.is_some()), known.opened);
    let is_caught = known.stream.on_fault.is_some() && opened >= to;
    let mut list = Vec::new(run.alloc);
    if to.min(opened) == 1 {
        list.push(What::Acquire(known.row, 0))?;
    }
    if is_caught {
        list.push(What::OpenScope(1, 0))?;
    }
    for at in to..opened {
        let row = known.row.saturating_add(at);
        list.push(What::Acquire(row, usize::from(is_caught)))?;
    }
    Ok(list)
}

/// Appends the Close of a scope, and the Finals of the rows that were acquired in it, or, where it is closed with all in it, in any.
fn add_close(
    run: &Run<'_>,
    list: &mut Vec<What>,
    begun: &[What],
    scope: usize,
    is_all: bool,
    exit: &'static str,
) -> Result<(), AllocError> {
    list.push(What::Close(scope, exit))?;
    for what in begun.iter().rev() {
        match *what {
            What::Acquire(row, home) if is_all || home == scope => {
                list.push(What::Final(row, exit, run.is_good(row)))?;
            }
            _ => {}
        }
    }
    Ok(())
}

/// The events of a stream that noted this as it opened its files, and closed its root with this exit. The scope of its text for a fault was
/// closed with `inner`, or, where that is none, with the root.
fn events_so(
    run: &Run<'_>,
    k: usize,
    begun: &[What],
    inner: Option<&'static str>,
    exit: &'static str,
) -> Result<Vec<What>, AllocError> {
    let has_inner = begun.iter().any(|what| *what == What::OpenScope(1, 0));
    let mut list = Vec::from_slice(run.alloc, begun)?;
    match inner {
        Some(inner) if has_inner => {
            add_close(run, &mut list, begun, 1, false, inner)?;
            add_close(run, &mut list, begun, 0, false, exit)?;
        }
        _ => add_close(run, &mut list, begun, 0, true, exit)?,
    }
    list.push(What::Cancel(k, exit))?;
    Ok(list)
}

/// The events of a stream but for the Finals of the outer stream's rows.
fn own_events(run: &Run<'_>, k: usize) -> Result<Vec<What>, AllocError> {
    let behind = run.plan.first_row();
    let mut list = Vec::new(run.alloc);
    for event in run.events.iter().filter(|event| event.by == Some(k)) {
        if !matches!(event.what, What::Final(row, _, _) if row < behind) {
            list.push(event.what)?;
        }
    }
    Ok(list)
}

/// Whether a stream that opened all of its files and closed its root with this exit may have these events: its inner scope was closed as the
/// body ended of a text that it may give, or anyhow where a write failed.
fn fits_end(
    run: &Run<'_>,
    known: &Known<'_>,
    seen: &[What],
    exit: &'static str,
) -> Result<bool, AllocError> {
    let (begun, is_write) = (begun_of(run, known)?, known.may_fail_to_write(exit));
    for inner in ["succeeded", "errored"] {
        let is_so = |text: &Text| known.may_close(text, exit) && text.body.exit() == inner;
        let may_close = is_write || known.texts.iter().any(|text| is_so(text));
        if may_close && events_so(run, known.k, &begun, Some(inner), exit)?.as_slice() == seen {
            return Ok(true);
        }
    }
    Ok(is_write && events_so(run, known.k, &begun, None, exit)?.as_slice() == seen)
}

/// Whether a stream that was halted may have these events: none, those of one that had ended but for what was left to print or to write, or
/// those of one that had opened some of its files.
fn fits_halt(run: &Run<'_>, known: &Known<'_>, seen: &[What]) -> Result<bool, AllocError> {
    let Some(What::Cancel(_, exit)) = seen.last().copied() else {
        return Ok(seen.is_empty());
    };
    if exit != "canceled" {
        return fits_end(run, known, seen, exit);
    }
    let begun = begun_of(run, known)?;
    for count in 0..=begun.len() {
        let front = begun.get(..count).unwrap_or(&begun);
        if events_so(run, known.k, front, None, exit)?.as_slice() == seen {
            return Ok(true);
        }
    }
    fits_end(run, known, seen, exit)
}

/// What is known of a stream beforehand.
fn known_of<'a>(
    run: &Run<'_>,
    k: usize,
    row: usize,
    stream: &'a Stream,
    places: &[usize],
) -> Result<Known<'a>, AllocError> {
    let can_open = |place: usize| {
        let file = run.files.get(place);
        file.is_some_and(|file| file.can_open(stream.to == Some(place)))
    };
    let written = stream.to.and_then(|to| run.files.get(to));
    Ok(Known {
        k,
        row,
        opened: places.iter().take_while(|place| can_open(**place)).count(),
        stream,
        texts: run.texts(stream)?,
        end: run.end_of(k),
        fails_to_write: written.is_some_and(|file| file.fails_to(Act::Write)),
    })
}

/// What each stream gave and what it noted.
pub(crate) fn judge_streams(run: &Run<'_>, wrongs: &mut Wrongs) -> Result<(), AllocError> {
    let mut row = run.plan.first_row();
    for k in 0..run.count() {
        let Some(stream) = run.stream(k) else {
            break;
        };
        let places = stream.places(run.alloc)?;
        let known = known_of(run, k, row, stream, &places)?;
        row = row.saturating_add(places.len());
        match stream.to {
            None => judge_output(run, &known, wrongs)?,
            Some(_) => judge_file(run, &known, wrongs)?,
        }
        let seen = own_events(run, k)?;
        let fits = match known.end {
            End::Halted => fits_halt(run, &known, &seen)?,
            end => fits_end(run, &known, &seen, end.exit())?,
        };
        wrongs.unless(fits, "the events of a stream don't fit its end", k)?;
    }
    Ok(())
}
