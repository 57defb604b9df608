//! The words of `audit`.
ghost use Rattle.std.specs.Prelude.{◌≡◌, IfOk};
ghost use Rattle.clap.specs.Words.{app_of};
ghost use Rattle.command_words.specs.Words.{audit_app, audit_of};

use crate::asked::Asked;
use crate::reading::{matches_in, texts_of};
use chunk_core::Word;
use clap::Command;
use std::alloc::{AllocError, Global};

/// What the words of `audit` ask for.
pub(crate) fn asked_of_audit(alloc: Global, words: &[Word]) -> Result<Option<Asked>, AllocError>
    ensures { IfOk result (λ asked. asked ≡ audit_of words.now) }
{
    let texts = texts_of(alloc, words)?;
    match matches_in(audit_command(alloc), texts.as_slice())? {
        Some(_) => Ok(Some(Asked::Audit)),
        None => Ok(None),
    }
}

fn audit_command<'a>(alloc: Global) -> Command<'a>
    ensures { app_of result ≡ audit_app }
{
    Command::new(alloc, "audit").disable_help_flag(true)
}
