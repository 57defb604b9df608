//! The words of `cat`.
ghost use Rattle.std.specs.Prelude.{◌≡◌, ◌≤◌, IfOk, IfSome, option_map};
ghost use Rattle.clap.specs.Words.{app_of};
ghost use Rattle.command_words.specs.Words.{IsLimited, cat_app, cat_at, cat_of, chunk_of};

use crate::asked::Asked;
use crate::names::is_file_path;
use crate::numbers::number_within;
use crate::reading::{matches_in, texts_of};
use chunk_core::Word;
use clap::{Arg, Command};
use std::alloc::{AllocError, Global};

/// How many bytes of a file one frame has at most, where the words don't tell.
const CHUNK: u32 = 4096;

/// What the words of `cat` ask for.
pub(crate) fn asked_of_cat(alloc: Global, words: &[Word]) -> Result<Option<Asked>, AllocError>
    ensures asked { IfOk result (λ asked. asked ≡ cat_of words.now) }
    ensures limits { IfOk result (λ asked. IfSome asked IsLimited) }
{
    let texts = texts_of(alloc, words)?;
    let Some(matches) = matches_in(cat_command(alloc)?, texts.as_slice())? else {
        return Ok(None);
    };
    cat_told(alloc, matches.get_str("chunk"), matches.get_str("path"))
}

fn cat_command<'a>(alloc: Global) -> Result<Command<'a>, AllocError>
    ensures { IfOk result (λ command. app_of command ≡ cat_app) }
{
    let chunk = Arg::new(alloc, "chunk").long("chunk");
    let path = Arg::new(alloc, "path").required(true);
    Command::new(alloc, "cat")
        .disable_help_flag(true)
        .arg(chunk)?
        .arg(path)
}

/// One file, by what the words told.
fn cat_told(
    alloc: Global,
    chunk: Option<&str>,
    path: Option<&str>,
) -> Result<Option<Asked>, AllocError>
    ensures asked { IfOk result (λ asked. asked ≡ cat_at (option_map (λ text. text.now) chunk.entry) (option_map (λ text. text.now) path.entry)) }
    ensures limits { IfOk result (λ asked. IfSome asked IsLimited) }
{
    let Some(path) = path else {
        return Ok(None);
    };
    let Some(chunk) = chunk_told(chunk) else {
        return Ok(None);
    };
    if !is_file_path(path) {
        return Ok(None);
    }
    let path = Word::of(alloc, path)?;
    Ok(Some(Asked::Cat { chunk, path }))
}

/// The number of bytes that the option tells, or the one that stands for none.
pub(crate) fn chunk_told(text: Option<&str>) -> Option<u32>
    ensures value { result ≡ chunk_of (option_map (λ text. text.now) text.entry) }
    ensures limits { IfSome result (λ n. (1 ≤ n) × (n ≤ 65536)) }
{
    match text {
        Some(text) => number_within(1, 65_536, text),
        None => Some(CHUNK),
    }
}
