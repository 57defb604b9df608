//! The words of `eval`.
ghost use Rattle.std.specs.Prelude.{◌≡◌, ◌≤◌, IfOk, IfSome, option_map};
ghost use Rattle.clap.specs.Words.{app_of};
ghost use Rattle.command_words.specs.Words.{IsLimited, eval_app, eval_at, eval_numbers, eval_of, evaluation_of, number_or};

use crate::asked::Asked;
use crate::names::is_file_path;
use crate::numbers::number_within;
use crate::reading::{matches_in, texts_of};
use chunk_core::Word;
use clap::{Arg, Command};
use std::alloc::{AllocError, Global};

/// How many hands work at once, where the words don't tell.
const JOBS: u32 = 4;

/// How many lines a group has, where the words don't tell.
const GROUP: u32 = 256;

/// What the words of `eval` ask for.
pub(crate) fn asked_of_eval(alloc: Global, words: &[Word]) -> Result<Option<Asked>, AllocError>
    ensures asked { IfOk result (λ asked. asked ≡ eval_of words.now) }
    ensures limits { IfOk result (λ asked. IfSome asked IsLimited) }
{
    let texts = texts_of(alloc, words)?;
    let Some(matches) = matches_in(eval_command(alloc)?, texts.as_slice())? else {
        return Ok(None);
    };
    eval_told(
        alloc,
        matches.get_str("jobs"),
        matches.get_str("group"),
        matches.get_str("path"),
        matches.get_str("steps"),
    )
}

fn eval_command<'a>(alloc: Global) -> Result<Command<'a>, AllocError>
    ensures { IfOk result (λ command. app_of command ≡ eval_app) }
{
    let path = Arg::new(alloc, "path").required(true);
    let steps = Arg::new(alloc, "steps").required(true);
    numbers_command(alloc)?.arg(path)?.arg(steps)
}

fn numbers_command<'a>(alloc: Global) -> Result<Command<'a>, AllocError>
    ensures { IfOk result (λ command. app_of command ≡ eval_numbers) }
{
    let jobs = Arg::new(alloc, "jobs").long("jobs");
    let group = Arg::new(alloc, "group").long("group");
    Command::new(alloc, "eval")
        .disable_help_flag(true)
        .arg(jobs)?
        .arg(group)
}

/// An evaluation, by what the words told.
fn eval_told(
    alloc: Global,
    jobs: Option<&str>,
    group: Option<&str>,
    path: Option<&str>,
    steps: Option<&str>,
) -> Result<Option<Asked>, AllocError>
    ensures asked { IfOk result (λ asked. asked ≡ eval_at (option_map (λ text. text.now) jobs.entry) (option_map (λ text. text.now) group.entry) (option_map (λ text. text.now) path.entry) (option_map (λ text. text.now) steps.entry)) }
    ensures limits { IfOk result (λ asked. IfSome asked IsLimited) }
{
    let (Some(path), Some(steps)) = (path, steps) else {
        return Ok(None);
    };
    let Some(jobs) = number_told(JOBS, 1, 64, jobs) else {
        return Ok(None);
    };
    let Some(group) = number_told(GROUP, 1, 65_536, group) else {
        return Ok(None);
    };
    evaluation(alloc, jobs, group, path, steps)
}

/// The number that a text writes, where it is one of these, or the one that stands for no text.
fn number_told(default: u32, low: u32, high: u32, text: Option<&str>) -> Option<u32>
    requires { (low ≤ default) × (default ≤ high) }
    ensures value { result ≡ number_or default low high (option_map (λ text. text.now) text.entry) }
    ensures limits { IfSome result (λ n. (low ≤ n) × (n ≤ high)) }
{
    match text {
        Some(text) => number_within(low, high, text),
        None => Some(default),
    }
}

/// An evaluation of a path, unless that is none.
fn evaluation(
    alloc: Global,
    jobs: u32,
    group: u32,
    path: &str,
    steps: &str,
) -> Result<Option<Asked>, AllocError>
    requires { (1 ≤ jobs) × (jobs ≤ 64) × (1 ≤ group) × (group ≤ 65536) }
    ensures asked { IfOk result (λ asked. asked ≡ evaluation_of jobs group path.now steps.now) }
    ensures limits { IfOk result (λ asked. IfSome asked IsLimited) }
{
    if !is_file_path(path) {
        return Ok(None);
    }
    let path = Word::of(alloc, path)?;
    let steps = Word::of(alloc, steps)?;
    Ok(Some(Asked::Eval {
        jobs,
        group,
        path,
        steps,
    }))
}
