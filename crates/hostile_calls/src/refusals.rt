//! Judges calls of which nothing is done.
use crate::call::Call;
use run_judge::{Seen, Wrongs};
use std::alloc::AllocError;

/// Whether standard error was told just this, or where a write to it failed a front of this.
fn is_told(call: &Call, seen: &Seen, line: &str) -> bool {
    match call.err_fails {
        0 => seen.err.written() == line.as_bytes(),
        _ => line.as_bytes().starts_with(seen.err.written()),
    }
}

/// Nothing was done, with this status, and standard error was told this.
pub(crate) fn judge_refusal(
    call: &Call,
    seen: &Seen,
    status: u8,
    line: &str,
    wrongs: &mut Wrongs,
) -> Result<(), AllocError> {
    let number = usize::from(seen.status);
    wrongs.unless(
        seen.status == status,
        "a refused call has another status",
        number,
    )?;
    let printed = seen.out.written().len();
    wrongs.unless(printed == 0, "a refused call printed something", printed)?;
    let made = seen.depot.made().len();
    wrongs.unless(made == 0, "a refused call made devices", made)?;
    wrongs.unless(
        is_told(call, seen, line),
        "standard error was told otherwise",
        number,
    )
}
