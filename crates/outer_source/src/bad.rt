//! The lines of a list that are given no stream.
ghost use Rattle.std.specs.Prelude.{◌≡◌, IsUtf8};
ghost use Rattle.plan_work.specs.Listed.{is_bad_line, is_output};

use pipeline_desc::Plan;

/// The most bytes of a path.
const LONGEST: usize = 1024;

/// Whether a described stream writes this file.
fn is_output(plan: &Plan, path: &str) -> bool
    ensures { result ≡ is_output plan.now path.now }
{
    plan.streams()
        .as_slice()
        .iter()
        .any(|stream| match &stream.to {
            Some(to) => to.as_str() == path,
            None => false,
        })
}

/// Whether the line is no path, or a file that the plan writes.
pub(crate) fn is_bad(plan: &Plan, line: &str) -> bool
    ensures { result ≡ is_bad_line plan.now line.now }
{
    line.is_empty() || line.len() > LONGEST || is_output(plan, line)
}

/// The text of a line.
pub(crate) fn text_of(line: &[u8]) -> &str
    requires { IsUtf8 line.now }
    ensures { result.now ≡ line.now }
{
    let Ok(text) = str::from_utf8(line) else {
        unreachable!();
    };
    text
}
