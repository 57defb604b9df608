//! Judges a call by what it asked for.
use crate::audits::judge_audit;
use crate::call::{Asked, Call};
use crate::evals::judge_eval;
use crate::refusals::judge_refusal;
use crate::rotates::judge_rotate;
use crate::singles::{judge_cat, judge_gen};
use crate::tees::judge_tee;
use random_files::File;
use run_judge::{Seen, Wrongs, judge_run};
use std::alloc::{AllocError, Global};

/// What is wrong with a call that reads this file.
fn judge_reading(
    call: &Call,
    file: &File,
    seen: &Seen,
    wrongs: &mut Wrongs,
) -> Result<(), AllocError> {
    match &call.asked {
        Asked::Cat(chunk) => judge_cat(seen, file, *chunk, wrongs),
        Asked::Rotate(bytes) => judge_rotate(seen, &call.files, file, *bytes, wrongs),
        Asked::Tee(chunk, branches) => judge_tee(seen, file, *chunk, branches, wrongs),
        Asked::Eval(group, chain) => judge_eval(seen, file, *group, chain, wrongs),
        _ => Ok(()),
    }
}

/// What is wrong with a call of which this was seen.
pub fn judge(alloc: Global, call: &Call, seen: &Seen) -> Result<Wrongs, AllocError> {
    let mut wrongs = Wrongs::new(alloc);
    match &call.asked {
        Asked::Run(plan) => judge_run(plan, &call.files, seen, &mut wrongs)?,
        Asked::Refused(status, line) => {
            judge_refusal(call, seen, *status, line.as_str(), &mut wrongs)?;
        }
        Asked::Audit => judge_audit(call, seen, &mut wrongs)?,
        Asked::Gen(seed, streams, lines) => {
            judge_gen(seen, *seed, *streams, *lines, &mut wrongs)?;
        }
        _ => {
            if let Some(file) = call.files.first() {
                judge_reading(call, file, seen, &mut wrongs)?;
            }
        }
    }
    Ok(wrongs)
}
