//! The summary of a case that was run.
ghost use Rattle.std.specs.Prelude.{◌≡◌, IfOk, List};
ghost use Rattle.chunk_core.specs.Texts.{Frame, frames_text};
ghost use Rattle.gen_case.specs.Tally.{AreNumbered};
ghost use Rattle.gen_case.specs.Summary.{summary_of, summary_text};

use crate::Case;
use crate::noted::{Noted, noted_in};
use crate::tally::{Tally, tally_of};
use chunk_core::Line;
use res_ledger::Ledger;
use std::alloc::{AllocError, Global};
use std::fmt;

/// A case, what was printed of it, and what was noted.
#[derive(Clone, Copy, Debug, PartialEq, Eq)]
pub struct Summary {
    pub case: Case,
    pub printed: Tally,
    pub noted: Noted,
}

/// The summary of a run that wrote these bytes, which are frames, and noted these events.
pub fn summary_of(case: Case, out: &[u8], ledger: &Ledger) -> Summary
    ensures { (frames : List Frame) → AreNumbered frames → out.now ≡ frames_text frames → result ≡ summary_of case frames ledger.now }
{
    Summary {
        case,
        printed: tally_of(out),
        noted: noted_in(ledger.as_slice()),
    }
}

impl fmt::Display for Summary {
    ghost use Rattle.std.specs.Prelude.{Some};
    ghost use Rattle.gen_case.specs.Summary.{summary_text};

    ghost output = { λ summary. Some (summary_text summary) };

    fn fmt<W: fmt::Write>(&self, f: &mut fmt::Formatter<W>) -> fmt::Result {
        let Summary {
            case,
            printed,
            noted,
        } = *self;
        write!(f, "{case}{printed}{noted}")
    }
}

/// The text of a summary: a line for each number, behind its name.
pub fn text(alloc: Global, summary: Summary) -> Result<Line, AllocError>
    ensures { IfOk result (λ line. line ≡ summary_text summary) }
{
    let text = format!(in alloc; "{summary}")?;
    Ok(Line::of_vec(text.into_bytes()))
}
