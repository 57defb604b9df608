//! Judges calls of `audit`.
use crate::call::Call;
use crate::refusals::judge_refusal;
use crate::whole::judge_text;
use printed_parts::{Refusal, events_of};
use run_judge::{Seen, Wrongs};
use slow_ledger::{Verdict, verdict_of};
use std::alloc::{AllocError, Global};

/// The line that tells the verdict.
fn verdict_line(alloc: Global, verdict: Verdict) -> Result<String, AllocError> {
    match verdict {
        Verdict::Good => format!(in alloc; "audit ok\n"),
        Verdict::Unlawful(place) => format!(in alloc; "audit line {place} legal\n"),
        Verdict::Unordered(place) => format!(in alloc; "audit line {place} ordered\n"),
        Verdict::Incomplete => format!(in alloc; "audit end complete\n"),
    }
}

/// The line that tells why a text is no ledger's.
fn refusal_line(alloc: Global, refusal: Refusal) -> Result<String, AllocError> {
    match refusal {
        Refusal::Line(place) => format!(in alloc; "flume: ledger refused line {place}\n"),
        Refusal::Count(said, found) => {
            format!(in alloc; "flume: ledger refused count {said} {found}\n")
        }
    }
}

/// An audit tells the verdict on the ledger that standard input has, or refuses it.
pub(crate) fn judge_audit(call: &Call, seen: &Seen, wrongs: &mut Wrongs) -> Result<(), AllocError> {
    let alloc = wrongs.alloc;
    match events_of(alloc, &call.source)? {
        Ok(events) => {
            let verdict = verdict_of(alloc, &events)?;
            let line = verdict_line(alloc, verdict)?.into_bytes();
            let status = u8::from(verdict != Verdict::Good);
            judge_text(seen, status, &vec![in alloc; line]?, wrongs)
        }
        Err(refusal) => {
            let line = refusal_line(alloc, refusal)?;
            judge_refusal(call, seen, 3, line.as_str(), wrongs)
        }
    }
}
