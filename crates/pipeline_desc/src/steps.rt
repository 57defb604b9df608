//! The steps of one stream.
ghost use Rattle.std.specs.Prelude.{◌≡◌, ◌+◌, ◌^◌, ◌<◌, ◌≤◌, true, ◌&&◌, ◌++◌, count_by, is_some, length, IfOk};
ghost use Rattle.std.specs.List.{list_all};
ghost use Rattle.toml.specs.Data.{as_str, get_member};
ghost use Rattle.toml.specs.View.{items_view, table_view};
ghost use Rattle.pipeline_desc.specs.Limits.{most_steps};
ghost use Rattle.pipeline_desc.specs.Reading.{ReadsAs, each_from};
ghost use Rattle.pipeline_desc.specs.Sound.{is_sound_step};
ghost use Rattle.pipeline_desc.specs.Steps.{are_few, are_fitting, put_one_between, puts_between, step_meant, steps_at, steps_behind};
ghost use Rattle.pipeline_desc.specs.Values.{each_as, seen_as};

use crate::refusal::{Position, RefusalKind, Refused, refuse};
use crate::setting::Setting;
use crate::step::Step;
use crate::stream::Second;
use crate::values::texts;
use crate::words::step;
use chunk_core::List;
use pull_nodes::Pipe;
use std::alloc::Global;
use toml::{Table, Value};

/// The most steps of a stream.
const MOST_STEPS: usize = 16;

/// The step of each text, in order; the first has this number.
fn each_step(
    alloc: Global,
    setting: &Setting<'_>,
    words: &[Value],
    k: u32,
    first: usize,
) -> Result<List<Step>, Refused>
    requires seen { is_some (each_as as_str (items_view words.now)) ≡ true }
    requires first { first < 2 ^ 32 }
    ensures meant { ReadsAs (λ s. s) result (each_from (step_meant setting.now k) first (seen_as as_str words.now)) }
    ensures sound { IfOk result (λ s. list_all (is_sound_step setting.now.tables) s ≡ true) }
    ensures few { IfOk result (λ s. first + length s + 1 < 2 ^ 32) }
{
    // A description is too short for 2^32 steps.
    if words.len() >= u32::MAX as usize - first {
        return Err(Refused::Memory);
    }
    let mut steps = List::new(alloc);
    for i in 0..words.len() {
        let Some(word) = words[i].as_str() else {
            unreachable!()
        };
        let step = step(alloc, setting, word.as_bytes(), k, (first + i) as u32)?;
        steps.push(step)?;
    }
    Ok(steps)
}

/// The steps of stream k at a key, the first of which has this number.
pub(crate) fn steps(
    alloc: Global,
    setting: &Setting<'_>,
    table: &Table,
    key: &str,
    k: u32,
    first: usize,
) -> Result<List<Step>, Refused>
    requires { first < 2 ^ 32 }
    ensures meant { ReadsAs (λ s. s) result (steps_at setting.now k first (get_member key.now (table_view table.now))) }
    ensures sound { IfOk result (λ s. list_all (is_sound_step setting.now.tables) s ≡ true) }
    ensures few { IfOk result (λ s. first + length s + 1 < 2 ^ 32) }
{
    let words = texts(table, key, Position::InStream(k))?;
    each_step(alloc, setting, words, k, first)
}

/// The step puts a line between each two.
fn puts_between(step: &Step) -> bool
    ensures { result ≡ puts_between step.now }
{
    match step {
        Step::Pipe(Pipe::Intersperse(_)) => true,
        _ => false,
    }
}

/// How many steps put a line between each two.
fn between_count(steps: &[Step]) -> usize
    ensures { result ≡ count_by puts_between steps.now }
{
    steps.iter().filter(|step| puts_between(step)).count()
}

/// The steps behind a second side, where there is one.
fn steps_behind(second: &Option<Second>) -> &[Step]
    ensures { result.now ≡ steps_behind second.now }
{
    match second {
        Some(second) => second.after.as_slice(),
        None => &[],
    }
}

/// A stream may have so many steps, and at most one of them puts a line between each two.
fn are_fitting(steps: &[Step], behind: &[Step]) -> bool
    ensures { result ≡ (are_few (steps.now ++ behind.now) && put_one_between (steps.now ++ behind.now)) }
{
    steps.len() + behind.len() <= MOST_STEPS && between_count(steps) + between_count(behind) <= 1
}

/// Stream k may have these steps, and a second side with the steps behind it.
pub fn check_steps(steps: &List<Step>, second: &Option<Second>, k: u32) -> Result<(), Refused>
    ensures fitting { ReadsAs (λ u. u) result (are_fitting k (steps.now ++ steps_behind second.now)) }
    ensures few { IfOk result (λ u. length (steps.now ++ steps_behind second.now) ≤ most_steps) }
    ensures between { IfOk result (λ u. count_by puts_between (steps.now ++ steps_behind second.now) ≤ 1) }
{
    if !are_fitting(steps.as_slice(), steps_behind(second)) {
        return Err(refuse(RefusalKind::OutOfRange, Position::InStream(k)));
    }
    Ok(())
}
