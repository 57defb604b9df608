//! The words of `run`.
ghost use Rattle.std.specs.Prelude.{◌≡◌, IfOk, IfSome, option_map};
ghost use Rattle.clap.specs.Words.{app_of};
ghost use Rattle.command_words.specs.Words.{IsLimited, run_app, run_at, run_of};

use crate::asked::Asked;
use crate::numbers::number_within;
use crate::reading::{matches_in, texts_of};
use chunk_core::Word;
use clap::{Arg, Command};
use std::alloc::{AllocError, Global};

/// What the words of `run` ask for.
pub(crate) fn asked_of_run(alloc: Global, words: &[Word]) -> Result<Option<Asked>, AllocError>
    ensures asked { IfOk result (λ asked. asked ≡ run_of words.now) }
    ensures limits { IfOk result (λ asked. IfSome asked IsLimited) }
{
    let texts = texts_of(alloc, words)?;
    let Some(matches) = matches_in(run_command(alloc)?, texts.as_slice())? else {
        return Ok(None);
    };
    Ok(run_told(matches.get_str("max-open")))
}

fn run_command<'a>(alloc: Global) -> Result<Command<'a>, AllocError>
    ensures { IfOk result (λ command. app_of command ≡ run_app) }
{
    let max_open = Arg::new(alloc, "max-open").long("max-open");
    Command::new(alloc, "run")
        .disable_help_flag(true)
        .arg(max_open)
}

/// A description, by what the words told.
fn run_told(max_open: Option<&str>) -> Option<Asked>
    ensures asked { result ≡ run_at (option_map (λ text. text.now) max_open.entry) }
    ensures limits { IfSome result IsLimited }
{
    let Some(text) = max_open else {
        return Some(Asked::Run { max_open: None });
    };
    let most = number_within(1, 64, text)?;
    Some(Asked::Run {
        max_open: Some(most),
    })
}
