//! The audit and the slow judge agree.
use crate::asserts::{holds_at, same_at};
use crate::blocks::is_ordered;
use crate::changes::{Step, ledger_of, near, steps_of, with_one_at, with_others};
use crate::judge::judged;
use crate::ledgers::{
    BROKEN_OFF, CAT, ENOUGH, INTERRUPTED, LATE, MIDDLE, NO_TABLE, ROOT, STOPPED, THREE_STREAMS,
    TWO_FILES, TWO_STREAMS, UNCLEAN, WRITTEN,
};
use ledger_audit::audit;
use ledger_text::read;
use ledger_verdict::{Rule, Verdict};
use std::alloc::{AllocError, Global};
use std::process::Abort;
use std::test::Fail;

/// How many ledgers had each verdict.
#[derive(Clone, Copy, Debug, PartialEq)]
struct Tally {
    clean: u64,
    illegal: u64,
    disordered: u64,
    incomplete: u64,
}

impl Tally {
    fn count(&mut self, verdict: Verdict) {
        match verdict {
            Verdict::Clean => self.clean = self.clean.saturating_add(1),
            Verdict::Broken(_, Rule::Legal) => self.illegal = self.illegal.saturating_add(1),
            Verdict::Broken(_, Rule::Ordered) => {
                self.disordered = self.disordered.saturating_add(1);
            }
            Verdict::Broken(_, Rule::Complete) => {
                self.incomplete = self.incomplete.saturating_add(1);
            }
        }
    }
}

/// Fails the test unless the audit of the steps agrees with the judge, and counts the verdict.
fn agrees(
    rt: &impl Abort,
    alloc: Global,
    steps: &[Step],
    tally: &mut Tally,
) -> Result<(), AllocError> {
    let ledger = ledger_of(alloc, steps)?;
    let events = ledger.as_slice();
    let verdict = judged(alloc, events)?;
    same_at(rt, audit(alloc, &ledger)?, verdict, &events);
    if verdict == Verdict::Clean {
        holds_at(rt, is_ordered(alloc, events, false)?, &events);
    }
    tally.count(verdict);
    Ok(())
}

/// The event at the place is dropped, doubled, and changed in one thing.
fn agrees_on_others(
    rt: &impl Abort,
    alloc: Global,
    steps: &[Step],
    place: usize,
    step: Step,
    tally: &mut Tally,
) -> Result<(), AllocError> {
    let dropped = with_others(alloc, steps, place, &[])?;
    agrees(rt, alloc, dropped.as_slice(), tally)?;
    let doubled = with_others(alloc, steps, place, &[step, step])?;
    agrees(rt, alloc, doubled.as_slice(), tally)?;
    for other in near(step) {
        if other != step {
            let changed = with_others(alloc, steps, place, &[other])?;
            agrees(rt, alloc, changed.as_slice(), tally)?;
        }
    }
    Ok(())
}

/// The event at the place stands at each other one.
fn agrees_on_moves(
    rt: &impl Abort,
    alloc: Global,
    steps: &[Step],
    place: usize,
    step: Step,
    tally: &mut Tally,
) -> Result<(), AllocError> {
    let rest = with_others(alloc, steps, place, &[])?;
    for other in 0..=rest.len() {
        if other != place {
            let moved = with_one_at(alloc, rest.as_slice(), other, step)?;
            agrees(rt, alloc, moved.as_slice(), tally)?;
        }
    }
    Ok(())
}

/// Fails the test unless the ledger is clean, and the audit agrees with the judge on each ledger that
/// comes of it by a change of one event.
fn agrees_near(rt: &impl Abort, alloc: Global, text: &str, tally: &mut Tally) -> Result<(), Fail> {
    let ledger = read(alloc, text.as_bytes())?;
    let events = ledger.as_slice();
    same_at(rt, audit(alloc, &ledger)?, Verdict::Clean, &text);
    let steps = steps_of(alloc, events)?;
    for (place, step) in steps.iter().enumerate() {
        agrees_on_others(rt, alloc, steps.as_slice(), place, *step, tally)?;
        agrees_on_moves(rt, alloc, steps.as_slice(), place, *step, tally)?;
    }
    Ok(())
}

/// The same of each of the ledgers.
fn agrees_near_each(
    rt: &impl Abort,
    alloc: Global,
    texts: &[&str],
    tally: &mut Tally,
) -> Result<(), Fail> {
    for text in texts {
        agrees_near(rt, alloc, text, tally)?;
    }
    Ok(())
}

const LEDGERS: &[&str] = &[
    CAT,
    TWO_STREAMS,
    THREE_STREAMS,
    INTERRUPTED,
    WRITTEN,
    BROKEN_OFF,
    UNCLEAN,
    TWO_FILES,
    NO_TABLE,
    ENOUGH,
    STOPPED,
    MIDDLE,
    ROOT,
    LATE,
];

/// Nothing was counted.
const NONE: Tally = Tally {
    clean: 0,
    illegal: 0,
    disordered: 0,
    incomplete: 0,
};

/// Fails the test unless each verdict came up, and there were some thousands.
fn is_wide(rt: &impl Abort, tally: Tally) {
    holds_at(rt, tally.clean > 100, &tally);
    holds_at(rt, tally.illegal > 1500, &tally);
    holds_at(rt, tally.disordered > 100, &tally);
    holds_at(rt, tally.incomplete > 10, &tally);
}

#[test]
fn agrees_with_the_judge(rt: HostRuntime) -> Result<(), Fail> {
    let mut tally = NONE;
    agrees_near_each(&rt, rt.alloc(), LEDGERS, &mut tally)?;
    is_wide(&rt, tally);
    Ok(())
}
