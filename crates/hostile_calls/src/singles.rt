//! Judges calls of `cat` and `gen`.
use crate::whole::{events_of_one, judge_ledger, judge_text, output_of};
use printed_parts::put_frame;
use random_files::File;
use run_judge::{Seen, Wrongs, status_of};
use slow_streams::read_of;
use std::alloc::{AllocError, Global};

/// The name of the one stream.
pub(crate) fn lone_name(alloc: Global) -> Result<Vec<String>, AllocError> {
    Ok(vec![in alloc; String::from_str(alloc, "0")?]?)
}

/// `cat` of this file prints its reads, its end and its ledger.
pub(crate) fn judge_cat(
    seen: &Seen,
    file: &File,
    chunk: usize,
    wrongs: &mut Wrongs,
) -> Result<(), AllocError> {
    let alloc = wrongs.alloc;
    let given = read_of(alloc, file, chunk)?;
    let mut frames = Vec::new(alloc);
    for piece in given.bytes.chunks(chunk.max(1)) {
        put_frame(&mut frames, alloc, piece)?;
    }
    let events = events_of_one(alloc, Some(0), file, given.end.exit())?;
    let text = output_of(alloc, &frames, given.end, &events)?;
    let status = status_of(&[given.end], &events);
    judge_text(seen, status, &vec![in alloc; text]?, wrongs)?;
    judge_ledger(seen, &lone_name(alloc)?, wrongs)
}

/// The digits of a number below 1,000, added up, and its last one again.
fn digits_of(number: usize) -> usize {
    number / 100 + number / 10 % 10 + 2 * (number % 10)
}

/// The digits in what the streams of a case print.
fn digits_in(seed: usize, streams: usize, lines: usize) -> usize {
    let mut sum: usize = 0;
    for place in 0..streams.saturating_mul(lines) {
        let (k, i) = (place / lines.max(1), place % lines.max(1));
        let shift = k.saturating_mul(17).saturating_add(i.saturating_mul(379));
        sum = sum.saturating_add(digits_of(seed.saturating_add(shift) % 1000));
    }
    sum
}

/// The summary of a case.
fn summary(alloc: Global, seed: usize, streams: usize, lines: usize) -> Result<String, AllocError> {
    let frames = streams.saturating_mul(lines.div_ceil(1024));
    let bytes = streams.saturating_mul(lines).saturating_mul(6);
    let digits = digits_in(seed, streams, lines);
    let more = streams.saturating_add(1);
    let mut text = format!(in alloc; "gen {seed} {streams} {lines}\nframes {frames}\n")?;
    write!(
        text,
        "bytes {bytes}\ndigits {digits}\nacquire {more}\nlease {streams}\n"
    )?;
    write!(text, "cancel {streams}\nclose {more}\nfinal {more}\n")?;
    Ok(text)
}

/// `gen` prints the summary of the case, and makes no device.
pub(crate) fn judge_gen(
    seen: &Seen,
    seed: usize,
    streams: usize,
    lines: usize,
    wrongs: &mut Wrongs,
) -> Result<(), AllocError> {
    let alloc = wrongs.alloc;
    let text = summary(alloc, seed, streams, lines)?.into_bytes();
    judge_text(seen, 0, &vec![in alloc; text]?, wrongs)?;
    let made = seen.depot.made().len();
    wrongs.unless(made == 0, "devices were made", made)
}
