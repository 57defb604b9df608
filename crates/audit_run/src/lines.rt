//! The line that tells a verdict.
ghost use Rattle.std.specs.Prelude.{◌≡◌, ◌≤◌, length};
ghost use Rattle.arrayvec.specs.ArrayString.{array_string_len};
ghost use Rattle.audit_run.specs.Lines.{place_line, verdict_line};

use arrayvec::ArrayString;
use itoa::Buffer;
use ledger_verdict::{Rule, Verdict};

/// A line of the output, which takes no memory.
pub(crate) type VerdictLine = ArrayString<40>;

/// What is printed of a verdict.
pub(crate) fn line_of(verdict: Verdict) -> VerdictLine
    ensures { result.bytes ≡ verdict_line verdict }
{
    let mut line = ArrayString::new();
    match verdict {
        Verdict::Clean => line.push_str("audit ok\n"),
        Verdict::Broken(place, Rule::Legal) => push_place(&mut line, place, " legal"),
        Verdict::Broken(place, Rule::Ordered) => push_place(&mut line, place, " ordered"),
        Verdict::Broken(_, Rule::Complete) => line.push_str("audit end complete\n"),
    }
    line
}

/// Appends that the event at a place breaks a rule.
fn push_place(line: &mut VerdictLine, place: u64, rule: &str)
    requires empty { array_string_len line.old ≡ 0 }
    requires room { length rule.now ≤ 8 }
    ensures { line.new.bytes ≡ place_line place rule.now }
{
    line.push_str("audit line ");
    line.push_str(Buffer::new().format(place));
    line.push_str(rule);
    line.push_str("\n");
}
