//! Judges calls of `tee`.
use crate::call::Chain;
use crate::ledgers::ledger_text;
use crate::whole::{events_of_one, judge_ledger};
use printed_parts::{End, Event, Frame, frames_of, partial_frame, payloads_of, put_end, tail_of};
use random_files::File;
use run_judge::{Seen, Wrongs, judge_status, names_of, status_of};
use slow_streams::{Given, Text, read_of, through};
use std::alloc::{AllocError, Global};

/// A call of `tee`: what was seen, the frames and what stands behind them, the ends, the branches, the file and what it gave.
#[derive(Drop)]
struct Teed<'a> {
    alloc: Global,
    seen: &'a Seen,
    frames: Vec<Frame>,
    rest: &'a [u8],
    ends: Vec<End>,
    branches: &'a [Chain],
    file: &'a File,
    given: Given,
}

impl Teed<'_> {
    fn outer(&self) -> End {
        self.ends.first().copied().unwrap_or(End::Cut)
    }

    fn end_of(&self, k: usize) -> End {
        let end = self.ends.get(k.saturating_add(1));
        end.copied().unwrap_or(End::Cut)
    }

    /// Whether something may be halted.
    fn has_cause(&self) -> bool {
        self.seen.is_cut() || self.ends.iter().any(|end| end.is_fault())
    }

    /// What a branch may give: all of what the file gave, which ends only with the file.
    fn text_of(&self, branch: &Chain) -> Result<Text, AllocError> {
        let (alloc, is_whole) = (self.alloc, self.given.end == End::Done);
        let end = if is_whole { End::Done } else { End::Cut };
        let input = Given::of_bytes(alloc, &self.given.bytes, end)?;
        let given = through(alloc, &branch.steps, input, &Vec::new(alloc))?;
        Text::of(alloc, branch.kind, &given, given.end)
    }

    /// Whether the reader may have ended so.
    fn may_end(&self) -> bool {
        match self.outer() {
            End::Halted => self.has_cause(),
            end => end == self.given.end,
        }
    }

    /// Whether a branch may have ended so.
    fn may_branch_end(&self, end: End) -> bool {
        match end {
            End::Halted => self.has_cause(),
            End::Done => self.outer() == End::Done,
            End::Fault(_) => true,
            End::Cut => false,
        }
    }

    /// The ends and the ledger that are to be told, with these events.
    fn tail(&self, names: &[String], events: &[Event]) -> Result<String, AllocError> {
        let mut tail = String::new(self.alloc);
        for (name, end) in names.iter().zip(&self.ends) {
            put_end(&mut tail, name.as_str(), *end)?;
        }
        tail.push_str(ledger_text(self.alloc, events.len(), events)?.as_str())?;
        Ok(tail)
    }

    /// What a branch printed, and the places at which its frames end.
    fn printed(&self, k: usize) -> Result<(Vec<u8>, Vec<usize>), AllocError> {
        payloads_of(self.alloc, self.seen.out.written(), &self.frames, k)
    }

    /// Whether what stands behind the whole frames may stand there.
    fn fits_rest(&self, tail: &[u8]) -> Result<bool, AllocError> {
        let rest = self.rest;
        if !self.seen.is_cut() {
            return Ok(rest == tail);
        }
        if tail.starts_with(rest) && rest.len() < tail.len() {
            return Ok(true);
        }
        let Some((k, part)) = partial_frame(rest) else {
            return Ok(false);
        };
        let Some(branch) = self.branches.get(k) else {
            return Ok(false);
        };
        let (mut text, _) = self.printed(k)?;
        text.extend_from_slice(part)?;
        Ok(self.text_of(branch)?.allows(&text, End::Cut))
    }
}

/// The reader, the tail, the status and the frames' numbers.
fn judge_reader(teed: &Teed<'_>, names: &[String], wrongs: &mut Wrongs) -> Result<(), AllocError> {
    let events = events_of_one(teed.alloc, None, teed.file, teed.outer().exit())?;
    let tail = teed.tail(names, &events)?;
    let holds = teed.seen.tail.as_slice() == tail.as_bytes();
    wrongs.unless(holds, "another tail was reported", tail.len())?;
    let fits = teed.fits_rest(tail.as_bytes())?;
    wrongs.unless(
        fits,
        "what stands behind the frames isn't right",
        teed.frames.len(),
    )?;
    wrongs.unless(teed.may_end(), "the reader can't have ended so", 0)?;
    judge_status(teed.seen, status_of(&teed.ends, &events), wrongs)?;
    let count = teed.branches.len();
    let is_other = teed.frames.iter().any(|frame| frame.stream >= count);
    wrongs.unless(!is_other, "a frame of no branch", count)
}

/// What the branches printed, and how they ended.
fn judge_branches(teed: &Teed<'_>, wrongs: &mut Wrongs) -> Result<(), AllocError> {
    for (k, branch) in teed.branches.iter().enumerate() {
        let end = teed.end_of(k);
        let (text, places) = teed.printed(k)?;
        let came = teed.text_of(branch)?;
        let fits = came.allows(&text, end) && came.ends_at(&places);
        wrongs.unless(fits, "a branch can't have printed that", k)?;
        wrongs.unless(teed.may_branch_end(end), "a branch can't have ended so", k)?;
    }
    Ok(())
}

/// What `tee` prints.
pub(crate) fn judge_tee(
    seen: &Seen,
    file: &File,
    chunk: usize,
    branches: &[Chain],
    wrongs: &mut Wrongs,
) -> Result<(), AllocError> {
    let (alloc, out) = (wrongs.alloc, seen.out.written());
    let (frames, at) = frames_of(alloc, out)?;
    let names = names_of(alloc, branches.len())?;
    let Some((ends, _)) = tail_of(alloc, seen.tail.as_slice(), &names)? else {
        return wrongs.unless(false, "no ends and no ledger are told", at);
    };
    let teed = Teed {
        alloc,
        seen,
        frames,
        rest: out.get(at..).unwrap_or(b""),
        ends,
        branches,
        file,
        given: read_of(alloc, file, chunk)?,
    };
    judge_reader(&teed, &names, wrongs)?;
    judge_ledger(seen, &names, wrongs)?;
    judge_branches(&teed, wrongs)
}
