//! The words of `gen`.
ghost use Rattle.std.specs.Prelude.{◌≡◌, ◌≤◌, IfOk, IfSome, option_and_then, option_map};
ghost use Rattle.clap.specs.Words.{app_of};
ghost use Rattle.command_words.specs.Numbers.{number_in_word};
ghost use Rattle.command_words.specs.Words.{IsLimited, gen_app, gen_at, gen_of};

use crate::asked::Asked;
use crate::numbers::number_within;
use crate::reading::{matches_in, texts_of};
use chunk_core::Word;
use clap::{Arg, Command};
use std::alloc::{AllocError, Global};

/// What the words of `gen` ask for.
pub(crate) fn asked_of_gen(alloc: Global, words: &[Word]) -> Result<Option<Asked>, AllocError>
    ensures asked { IfOk result (λ asked. asked ≡ gen_of words.now) }
    ensures limits { IfOk result (λ asked. IfSome asked IsLimited) }
{
    let texts = texts_of(alloc, words)?;
    let Some(matches) = matches_in(gen_command(alloc)?, texts.as_slice())? else {
        return Ok(None);
    };
    Ok(gen_told(
        matches.get_str("seed"),
        matches.get_str("streams"),
        matches.get_str("lines"),
    ))
}

fn gen_command<'a>(alloc: Global) -> Result<Command<'a>, AllocError>
    ensures { IfOk result (λ command. app_of command ≡ gen_app) }
{
    let seed = Arg::new(alloc, "seed").required(true);
    let streams = Arg::new(alloc, "streams").required(true);
    let lines = Arg::new(alloc, "lines").required(true);
    Command::new(alloc, "gen")
        .disable_help_flag(true)
        .arg(seed)?
        .arg(streams)?
        .arg(lines)
}

/// A case, by what the words told.
fn gen_told(seed: Option<&str>, streams: Option<&str>, lines: Option<&str>) -> Option<Asked>
    ensures asked { result ≡ gen_at (option_map (λ text. text.now) seed.entry) (option_map (λ text. text.now) streams.entry) (option_map (λ text. text.now) lines.entry) }
    ensures limits { IfSome result IsLimited }
{
    let seed = told_within(0, u32::MAX, seed)?;
    let streams = told_within(1, 64, streams)?;
    let lines = told_within(0, 100_000, lines)?;
    Some(Asked::Gen {
        seed,
        streams,
        lines,
    })
}

/// The number that a text writes, where there is one and it is one of these.
fn told_within(low: u32, high: u32, text: Option<&str>) -> Option<u32>
    ensures value { result ≡ option_and_then (number_in_word low high) (option_map (λ text. text.now) text.entry) }
    ensures limits { IfSome result (λ n. (low ≤ n) × (n ≤ high)) }
{
    number_within(low, high, text?)
}
