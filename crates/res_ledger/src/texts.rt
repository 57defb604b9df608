//! The text of a ledger.
ghost use Rattle.std.specs.Prelude.{◌≡◌, IfOk, OnOk, ◌++◌, string_bytes};
ghost use Rattle.res_ledger.specs.Texts.{event_line, ledger_text};

use crate::event::{Event, StreamNo, What};
use crate::ledger::Ledger;
use chunk_core::Line;
use std::alloc::{AllocError, Global};
use std::fmt;

impl fmt::Display for StreamNo {
    ghost use Rattle.std.specs.Prelude.{Some};
    ghost use Rattle.res_ledger.specs.Texts.{name_text};

    ghost output = { λ stream. Some (name_text stream) };

    fn fmt<W: fmt::Write>(&self, f: &mut fmt::Formatter<W>) -> fmt::Result {
        match *self {
            StreamNo::Outer => write!(f, "outer"),
            StreamNo::Inner(number) => write!(f, "{number}"),
        }
    }
}

impl fmt::Display for What {
    ghost use Rattle.std.specs.Prelude.{Some};
    ghost use Rattle.res_ledger.specs.Texts.{what_text};

    ghost output = { λ what. Some (what_text what) };

    fn fmt<W: fmt::Write>(&self, f: &mut fmt::Formatter<W>) -> fmt::Result {
        match *self {
            What::Open { scope, parent } => write!(f, "open {scope} {parent}"),
            What::Acquire { row, scope } => write!(f, "acquire {row} {scope}"),
            What::Lease { stream, scope } => write!(f, "lease {stream} {scope}"),
            What::Cancel { stream, exit } => write!(f, "cancel {stream} {exit}"),
            What::Close { scope, exit } => write!(f, "close {scope} {exit}"),
            What::Final {
                row,
                exit,
                ok: true,
            } => write!(f, "final {row} {exit} ok"),
            What::Final {
                row,
                exit,
                ok: false,
            } => write!(f, "final {row} {exit} fault"),
        }
    }
}

/// Appends the line of an event.
fn push_line(text: &mut String, event: &Event) -> Result<(), AllocError>
    ensures { OnOk result (string_bytes text.new ≡ string_bytes text.old ++ event_line event.now) }
{
    let by = event.by;
    let what = event.what;
    writeln!(text, "{by} {what}")
}

/// The text of a ledger: `ledger` and the number of its events, then a line for each event.
pub fn text(alloc: Global, ledger: &Ledger) -> Result<Line, AllocError>
    ensures { IfOk result (λ line. line ≡ ledger_text ledger.now) }
{
    let count = ledger.len();
    let mut text = format!(in alloc; "ledger {count}\n")?;
    for event in ledger.as_slice() {
        push_line(&mut text, event)?;
    }
    Ok(Line::of_vec(text.into_bytes()))
}
