//! What stands behind the frames.
ghost use Rattle.std.specs.Prelude.{◌≡◌, count_by, MatchOption};
ghost use Rattle.cut_text.specs.Tails.{HasEndInFront, HasNoEnd, IsJudged, IsJudgedLedger, is_lf};

use cut_frames::split_once;
use ledger_text::{LedgerRefused, read};
use std::alloc::Global;

/// What the text behind the frames is.
#[derive(Clone, Copy, Debug, PartialEq, Eq)]
pub enum TailEnd {
    /// The lines of ends, and a ledger.
    Whole,
    /// A front of such: its last line isn't ended, or the ledger has fewer events than its head says.
    Cut,
    /// The place of the first line, from the ledger's head, which is line 0, that isn't well spelled,
    /// though it is ended.
    BadLine(u64),
    /// How many events the ledger's head says, and how many more there are.
    BadCount(u64, u64),
    /// Memory was wanting.
    Memory,
}

/// The text behind the end line that it begins with.
fn behind_end(text: &[u8]) -> Option<&[u8]>
    ensures { MatchOption result (HasNoEnd text.now) (λ rest. HasEndInFront text.now rest.now) }
{
    let (line, rest) = split_once(text, b'\n')?;
    line.strip_prefix(b"end ")?;
    Some(rest)
}

fn is_lf(byte: &u8) -> bool
    ensures { result ≡ is_lf byte.now }
{
    *byte == b'\n'
}

/// How many lines of the text are ended.
fn line_count(text: &[u8]) -> u64
    ensures { result ≡ count_by is_lf text.now }
{
    text.iter().filter(|byte| is_lf(byte)).count() as u64
}

/// What the text behind the frames and the end lines is.
fn judge_ledger(alloc: Global, text: &[u8]) -> TailEnd
    ensures { IsJudgedLedger text.now result }
{
    match read(alloc, text) {
        Ok(_) => TailEnd::Whole,
        Err(LedgerRefused::BadLine(line)) => {
            if line == line_count(text) {
                TailEnd::Cut
            } else {
                TailEnd::BadLine(line)
            }
        }
        Err(LedgerRefused::BadCount(said, found)) => {
            if found < said {
                TailEnd::Cut
            } else {
                TailEnd::BadCount(said, found)
            }
        }
        Err(LedgerRefused::Memory) => TailEnd::Memory,
    }
}

/// What the text behind the frames is.
pub fn judge(alloc: Global, tail: &[u8]) -> TailEnd
    ensures { IsJudged tail.now result }
{
    let mut rest = tail;
    'ends: while let Some(behind) = behind_end(rest) {
        rest = behind;
    }
    judge_ledger(alloc, rest)
}
