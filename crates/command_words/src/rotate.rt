//! The words of `rotate`.
ghost use Rattle.std.specs.Prelude.{◌≡◌, ◌≤◌, false, IfOk, IfSome, codes, option_map};
ghost use Rattle.clap.specs.Words.{app_of, rule_of};
ghost use Rattle.command_words.specs.Words.{IsLimited, needed_rule, rotate_app, rotate_at, rotate_of, rotation_of};

use crate::asked::Asked;
use crate::names::{is_file_of, is_file_path, is_prefix};
use crate::numbers::number_within;
use crate::reading::{matches_in, texts_of};
use chunk_core::Word;
use clap::{Arg, Command};
use std::alloc::{AllocError, Global};

/// What the words of `rotate` ask for.
pub(crate) fn asked_of_rotate(alloc: Global, words: &[Word]) -> Result<Option<Asked>, AllocError>
    ensures asked { IfOk result (λ asked. asked ≡ rotate_of words.now) }
    ensures limits { IfOk result (λ asked. IfSome asked IsLimited) }
{
    let texts = texts_of(alloc, words)?;
    let Some(matches) = matches_in(rotate_command(alloc)?, texts.as_slice())? else {
        return Ok(None);
    };
    rotate_told(
        alloc,
        matches.get_str("bytes"),
        matches.get_str("path"),
        matches.get_str("prefix"),
    )
}

fn rotate_command<'a>(alloc: Global) -> Result<Command<'a>, AllocError>
    ensures { IfOk result (λ command. app_of command ≡ rotate_app) }
{
    let bytes = bytes_option(alloc);
    let path = Arg::new(alloc, "path").required(true);
    let prefix = Arg::new(alloc, "prefix").required(true);
    Command::new(alloc, "rotate")
        .disable_help_flag(true)
        .arg(bytes)?
        .arg(path)?
        .arg(prefix)
}

fn bytes_option<'a>(alloc: Global) -> Arg<'a>
    ensures rule { rule_of result ≡ needed_rule (codes "bytes") }
    ensures local { result.global ≡ false }
{
    Arg::new(alloc, "bytes").long("bytes").required(true)
}

/// A rotation, by what the words told.
fn rotate_told(
    alloc: Global,
    bytes: Option<&str>,
    path: Option<&str>,
    prefix: Option<&str>,
) -> Result<Option<Asked>, AllocError>
    ensures asked { IfOk result (λ asked. asked ≡ rotate_at (option_map (λ text. text.now) bytes.entry) (option_map (λ text. text.now) path.entry) (option_map (λ text. text.now) prefix.entry)) }
    ensures limits { IfOk result (λ asked. IfSome asked IsLimited) }
{
    let (Some(bytes), Some(path), Some(prefix)) = (bytes, path, prefix) else {
        return Ok(None);
    };
    let Some(bytes) = number_within(1, 1_000_000_000, bytes) else {
        return Ok(None);
    };
    rotation(alloc, bytes, path, prefix)
}

/// A rotation of a path, unless it is one of the files that would be made.
fn rotation(
    alloc: Global,
    bytes: u32,
    path: &str,
    prefix: &str,
) -> Result<Option<Asked>, AllocError>
    requires { (1 ≤ bytes) × (bytes ≤ 1000000000) }
    ensures asked { IfOk result (λ asked. asked ≡ rotation_of bytes path.now prefix.now) }
    ensures limits { IfOk result (λ asked. IfSome asked IsLimited) }
{
    if !is_file_path(path) || !is_prefix(prefix) || is_file_of(prefix, path) {
        return Ok(None);
    }
    let path = Word::of(alloc, path)?;
    let prefix = Word::of(alloc, prefix)?;
    Ok(Some(Asked::Rotate {
        bytes,
        path,
        prefix,
    }))
}
