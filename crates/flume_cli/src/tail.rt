//! What is printed behind the frames: how each stream ended, and the ledger.
ghost use Rattle.std.specs.Prelude.{◌≡◌, ◌++◌, IfOk, OnOk, string_bytes};
ghost use Rattle.run_rules.specs.Texts.{end_line, tail_text};

use chunk_core::{Line, List};
use res_ledger::{Ledger, text};
use run_rules::EndOf;
use std::alloc::{AllocError, Global};

/// Appends the line that tells how a stream ended.
fn push_end(lines: &mut String, end: &EndOf) -> Result<(), AllocError>
    ensures { OnOk result (string_bytes lines.new ≡ string_bytes lines.old ++ end_line end.now) }
{
    let who = end.who;
    let how = end.how;
    writeln!(lines, "end {who} {how}")
}

/// The end lines and the ledger's text.
pub fn tail_of(alloc: Global, ends: &List<EndOf>, ledger: &Ledger) -> Result<Line, AllocError>
    ensures { IfOk result (λ line. line ≡ tail_text ends.now ledger.now) }
{
    let mut lines = String::new(alloc);
    for end in ends.as_slice() {
        push_end(&mut lines, end)?;
    }
    let ledger = text(alloc, ledger)?;
    let mut tail = lines.into_bytes();
    tail.extend_from_slice(ledger.as_slice())?;
    Ok(Line::of_vec(tail))
}
