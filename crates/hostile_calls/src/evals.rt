//! Judges calls of `eval`.
use crate::call::Chain;
use crate::singles::lone_name;
use crate::whole::{events_of_one, judge_ledger, judge_text, output_of};
use printed_parts::{End, put_frame};
use random_files::File;
use run_judge::{Seen, Wrongs, status_of};
use slow_streams::{Given, Item, Text, lines_of, read_of, through};
use std::alloc::{AllocError, Global};

/// How many bytes are read at a time.
const PIECE: usize = 4_096;

/// What comes of the lines of a group.
fn group_text(alloc: Global, chain: &Chain, lines: &[Item]) -> Result<Text, AllocError> {
    let mut given = Given::nothing(alloc, End::Done);
    for item in lines {
        given
            .bytes
            .extend_from_slice(item.first().map_or(b"", |line| line.as_slice()))?;
        given.bytes.push(b'\n')?;
    }
    let given = through(alloc, &chain.steps, given, &Vec::new(alloc))?;
    Text::of(alloc, chain.kind, &given, given.end)
}

/// The frames of the groups, up to the first that fails, and its end, where one did.
fn frames_of(
    alloc: Global,
    group: usize,
    chain: &Chain,
    lines: &[Item],
) -> Result<(Vec<u8>, Option<End>), AllocError> {
    let mut frames = Vec::new(alloc);
    for lines in lines.chunks(group.max(1)) {
        let came = group_text(alloc, chain, lines)?;
        put_frame(&mut frames, alloc, &came.text)?;
        if came.end.is_fault() {
            return Ok((frames, Some(came.end)));
        }
    }
    Ok((frames, None))
}

/// What `eval` prints: behind a group that failed the reader's row may have another exit.
pub(crate) fn judge_eval(
    seen: &Seen,
    file: &File,
    group: usize,
    chain: &Chain,
    wrongs: &mut Wrongs,
) -> Result<(), AllocError> {
    let alloc = wrongs.alloc;
    let given = read_of(alloc, file, PIECE)?;
    let lines = lines_of(alloc, &given.bytes, given.end == End::Done)?;
    let (frames, failed) = frames_of(alloc, group, chain, &lines)?;
    let end = failed.unwrap_or(given.end);
    let exit = given.end.exit();
    let others = if failed.is_some() {
        ["succeeded", "canceled"]
    } else {
        [exit, exit]
    };
    let mut events = events_of_one(alloc, Some(0), file, exit)?;
    let mut outputs = vec![in alloc; output_of(alloc, &frames, end, &events)?]?;
    for other in others {
        events = events_of_one(alloc, Some(0), file, other)?;
        outputs.push(output_of(alloc, &frames, end, &events)?)?;
    }
    judge_text(seen, status_of(&[end], &events), &outputs, wrongs)?;
    judge_ledger(seen, &lone_name(alloc)?, wrongs)
}
