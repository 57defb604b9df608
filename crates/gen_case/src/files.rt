//! The files of a case.
ghost use Rattle.std.specs.Prelude.{◌≡◌, IfOk};
ghost use Rattle.gen_case.specs.Case.{files_of, stream_file, stream_path, table_file, table_path};

use crate::Case;
use crate::lines::{stream_text, table_text};
use chunk_core::{List, Word};
use device_port::FileOf;
use std::alloc::{AllocError, Global};

/// The path of the file of stream k.
pub fn stream_path(alloc: Global, k: u32) -> Result<Word, AllocError>
    ensures { IfOk result (λ path. path ≡ stream_path k) }
{
    let path = format!(in alloc; "g{k}")?;
    Word::of(alloc, path.as_str())
}

/// The path of the table's file.
pub fn table_path(alloc: Global) -> Result<Word, AllocError>
    ensures { IfOk result (λ path. path ≡ table_path) }
{
    Word::of(alloc, "gt")
}

fn stream_file(alloc: Global, case: Case, k: u32) -> Result<FileOf, AllocError>
    ensures { IfOk result (λ file. file ≡ stream_file case k) }
{
    Ok(FileOf {
        path: stream_path(alloc, k)?,
        bytes: stream_text(alloc, case, k)?,
    })
}

fn table_file(alloc: Global) -> Result<FileOf, AllocError>
    ensures { IfOk result (λ file. file ≡ table_file) }
{
    Ok(FileOf {
        path: table_path(alloc)?,
        bytes: table_text(alloc)?,
    })
}

/// The files: those of the streams in order, and then the table's.
#[tactic(auto, using(crate::proofs::Counting::value_more))]
pub fn files_of(alloc: Global, case: Case) -> Result<List<FileOf>, AllocError>
    ensures { IfOk result (λ files. files ≡ files_of case) }
{
    let mut files = List::new(alloc);
    for k in 0..case.streams {
        files.push(stream_file(alloc, case, k)?)?;
    }
    files.push(table_file(alloc)?)?;
    Ok(files)
}
