//! The kinds between the steps of a stream.
ghost use Rattle.std.specs.Prelude.{◌≡◌, ◌+◌, ◌^◌, ◌<◌, Some, length, IfOk, IsOk};
ghost use Rattle.std.specs.Result.{result_ok};
ghost use Rattle.pipeline_desc.specs.Reading.{ReadsAs};
ghost use Rattle.pipeline_desc.specs.Steps.{kind_behind_step, kind_from, kind_given, kind_joined, kind_of_second, steps_behind};

use crate::join::Join;
use crate::refusal::{Position, RefusalKind, Refused, refuse};
use crate::step::Step;
use crate::stream::Second;
use chunk_core::List;
use pull_nodes::{Kind, KindFault};

/// The kind behind a step.
fn kind_behind_step(step: &Step, kind: Kind) -> Result<Kind, KindFault>
    ensures { result_ok result ≡ kind_behind_step step.now kind }
{
    match step {
        Step::Take(_) => Ok(kind),
        Step::Pipe(pipe) => pipe.kind(kind),
    }
}

/// The kind of two sides of a kind.
fn kind_joined(join: Join, kind: Kind) -> Result<Kind, KindFault>
    ensures { result_ok result ≡ kind_joined join kind }
{
    match (join, kind) {
        (Join::Append, kind) => Ok(kind),
        (Join::Zip, Kind::Lines | Kind::Any) => Ok(Kind::Rows),
        (Join::Merge, Kind::Lines | Kind::Rows | Kind::Any) => Ok(kind),
        (Join::Zip, Kind::Bytes | Kind::Rows) | (Join::Merge, Kind::Bytes) => Err(KindFault),
    }
}

/// The kind behind steps of stream k, the first of which has this number and gets this kind.
fn kind_behind(steps: &[Step], input: Kind, k: u32, first: usize) -> Result<Kind, Refused>
    requires { first + length steps.now < 2 ^ 32 }
    ensures { ReadsAs (λ j. j) result (kind_from k first steps.now input) }
{
    let mut kind = input;
    for i in 0..steps.len() {
        match kind_behind_step(&steps[i], kind) {
            Ok(next) => kind = next,
            Err(_) => {
                let here = Position::AtStep(k, (first + i) as u32);
                return Err(refuse(RefusalKind::KindClash, here));
            }
        }
    }
    Ok(kind)
}

/// The kind behind a join and the steps behind it; the join has this number, and both sides this
/// kind.
fn kind_behind_join(second: &Second, kind: Kind, k: u32, number: usize) -> Result<Kind, Refused>
    requires { number + 1 + length second.now.after < 2 ^ 32 }
    ensures { ReadsAs (λ j. j) result (kind_of_second k number (Some second.now) kind) }
{
    let Ok(kind) = kind_joined(second.join, kind) else {
        let here = Position::AtStep(k, number as u32);
        return Err(refuse(RefusalKind::KindClash, here));
    };
    kind_behind(second.after.as_slice(), kind, k, number + 1)
}

/// The kind of what stream k gives.
pub fn kind_given(steps: &List<Step>, second: &Option<Second>, k: u32) -> Result<Kind, Refused>
    requires { length steps.now + 1 + length (steps_behind second.now) < 2 ^ 32 }
    ensures meant { ReadsAs (λ j. j) result (kind_given k steps.now second.now) }
    ensures kind { IfOk result (λ j. IsOk (kind_given k steps.now second.now)) }
{
    let kind = kind_behind(steps.as_slice(), Kind::Bytes, k, 0)?;
    match second {
        Some(second) => kind_behind_join(second, kind, k, steps.len()),
        None => Ok(kind),
    }
}
