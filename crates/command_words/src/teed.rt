//! The words of `tee`.
ghost use Rattle.std.specs.Prelude.{◌≡◌, ◌≤◌, false, IfOk, IfSome, codes, map, option_map};
ghost use Rattle.clap.specs.Words.{app_of, rule_of};
ghost use Rattle.command_words.specs.Words.{IsLimited, branches_of, tee_app, tee_at, tee_of, words_rule};

use crate::asked::Asked;
use crate::cat::chunk_told;
use crate::names::is_file_path;
use crate::reading::{matches_in, texts_of};
use chunk_core::{List, Word};
use clap::{Arg, ArgAction, Command};
use std::alloc::{AllocError, Global};

/// The most branches.
const MOST_BRANCHES: usize = 16;

/// What the words of `tee` ask for.
pub(crate) fn asked_of_tee(alloc: Global, words: &[Word]) -> Result<Option<Asked>, AllocError>
    ensures asked { IfOk result (λ asked. asked ≡ tee_of words.now) }
    ensures limits { IfOk result (λ asked. IfSome asked IsLimited) }
{
    let texts = texts_of(alloc, words)?;
    let Some(matches) = matches_in(tee_command(alloc)?, texts.as_slice())? else {
        return Ok(None);
    };
    tee_told(
        alloc,
        matches.get_str("chunk"),
        matches.get_str("path"),
        matches.get_raw("steps"),
    )
}

fn tee_command<'a>(alloc: Global) -> Result<Command<'a>, AllocError>
    ensures { IfOk result (λ command. app_of command ≡ tee_app) }
{
    let chunk = Arg::new(alloc, "chunk").long("chunk");
    let path = Arg::new(alloc, "path").required(true);
    Command::new(alloc, "tee")
        .disable_help_flag(true)
        .arg(chunk)?
        .arg(path)?
        .arg(steps_words(alloc))
}

fn steps_words<'a>(alloc: Global) -> Arg<'a>
    ensures rule { rule_of result ≡ words_rule (codes "steps") }
    ensures local { result.global ≡ false }
{
    Arg::new(alloc, "steps")
        .required(true)
        .action(ArgAction::Append)
}

/// Branches of a file, by what the words told.
fn tee_told(
    alloc: Global,
    chunk: Option<&str>,
    path: Option<&str>,
    branches: Option<&[&str]>,
) -> Result<Option<Asked>, AllocError>
    ensures asked { IfOk result (λ asked. asked ≡ tee_at (option_map (λ text. text.now) chunk.entry) (option_map (λ text. text.now) path.entry) (option_map (λ texts. map (λ text. text.now) texts.now) branches.entry)) }
    ensures limits { IfOk result (λ asked. IfSome asked IsLimited) }
{
    let (Some(path), Some(branches)) = (path, branches) else {
        return Ok(None);
    };
    let Some(chunk) = chunk_told(chunk) else {
        return Ok(None);
    };
    branches_told(alloc, chunk, path, branches)
}

/// Branches of a file, unless there are none or too many.
fn branches_told(
    alloc: Global,
    chunk: u32,
    path: &str,
    branches: &[&str],
) -> Result<Option<Asked>, AllocError>
    requires { (1 ≤ chunk) × (chunk ≤ 65536) }
    ensures asked { IfOk result (λ asked. asked ≡ branches_of chunk path.now (map (λ text. text.now) branches.entry.now)) }
    ensures limits { IfOk result (λ asked. IfSome asked IsLimited) }
{
    if !is_file_path(path) || branches.is_empty() || MOST_BRANCHES < branches.len() {
        return Ok(None);
    }
    let path = Word::of(alloc, path)?;
    let branches = words_of(alloc, branches)?;
    Ok(Some(Asked::Tee {
        chunk,
        path,
        branches,
    }))
}

/// The texts as words.
fn words_of(alloc: Global, texts: &[&str]) -> Result<List<Word>, AllocError>
    ensures { IfOk result (λ words. words ≡ map (λ text. text.now) texts.entry.now) }
{
    let mut words = List::new(alloc);
    for text in texts {
        words.push(Word::of(alloc, text)?)?;
    }
    Ok(words)
}
