//! The commands, and which of them the words ask for.
ghost use Rattle.std.specs.Prelude.{◌≡◌, IfOk, IfSome};
ghost use Rattle.std.specs.Str.{bytes_eq};
ghost use Rattle.command_words.specs.Words.{IsLimited, command_of};

use crate::audit::asked_of_audit;
use crate::cat::asked_of_cat;
use crate::evaluated::asked_of_eval;
use crate::generated::asked_of_gen;
use crate::rotate::asked_of_rotate;
use crate::run::asked_of_run;
use crate::teed::asked_of_tee;
use chunk_core::{List, Word};
use std::alloc::{AllocError, Global};

/// What is asked of the program.
#[derive(Drop)]
pub enum Asked {
    /// The file at this path is to be printed, in frames of so many bytes at most.
    Cat {
        chunk: u32,
        path: Word,
    },
    /// The description that the source has is to be run, with so many streams open at most where
    /// that is told.
    Run {
        max_open: Option<u32>,
    },
    /// The case of this seed is to be made, run and summed up, with so many streams and so many
    /// lines in the file of each.
    Gen {
        seed: u32,
        streams: u32,
        lines: u32,
    },
    /// The ledger whose text the source has is to be judged.
    Audit,
    /// The file at this path is to be copied into files of so many bytes, each named by the prefix,
    /// a dot and its number. None of these names is the path.
    Rotate {
        bytes: u32,
        path: Word,
        prefix: Word,
    },
    /// The file at this path is to be read once, in pieces of so many bytes at most, for a branch
    /// for each of these words of steps.
    Tee {
        chunk: u32,
        path: Word,
        branches: List<Word>,
    },
    /// The lines of the file at this path are to go through the steps of a word in groups of so
    /// many, by so many hands at once.
    Eval {
        jobs: u32,
        group: u32,
        path: Word,
        steps: Word,
    },
}

/// What the words ask for: `cat [--chunk N] PATH`, with N from 1 to 65,536 (4,096 where it isn't
/// told) and a PATH of 1 to 1,024 bytes, `run [--max-open N]`, with N from 1 to 64,
/// `gen SEED STREAMS LINES`, with 0 to 4,294,967,295, 1 to 64 and 0 to 100,000, `audit`,
/// `rotate --bytes N PATH PREFIX`, with N from 1 to 1,000,000,000, a PATH as before and a PREFIX of
/// 1 to 1,019 bytes, where PATH isn't PREFIX, `.` and a decimal number below 1,024 without leading
/// zeros, `tee [--chunk N] PATH STEPS ..`, with N and PATH as for `cat` and 1 to 16 words STEPS, or
/// `eval [--jobs N] [--group G] PATH STEPS`, with N from 1 to 64 (4 where it isn't told) and G from
/// 1 to 65,536 (256). Other words mean nothing. What a word STEPS means isn't looked at here.
pub fn asked_by(alloc: Global, words: &[Word]) -> Result<Option<Asked>, AllocError>
    ensures asked { IfOk result (λ asked. asked ≡ command_of words.now) }
    ensures limits { IfOk result (λ asked. IfSome asked IsLimited) }
{
    let [name, ..] = words else {
        return Ok(None);
    };
    if name.as_str() == "cat" {
        asked_of_cat(alloc, words)
    } else if name.as_str() == "run" {
        asked_of_run(alloc, words)
    } else if name.as_str() == "gen" {
        asked_of_gen(alloc, words)
    } else if name.as_str() == "audit" {
        asked_of_audit(alloc, words)
    } else if name.as_str() == "rotate" {
        asked_of_rotate(alloc, words)
    } else if name.as_str() == "tee" {
        asked_of_tee(alloc, words)
    } else if name.as_str() == "eval" {
        asked_of_eval(alloc, words)
    } else {
        Ok(None)
    }
}
