//! The paths of the files.
ghost use Rattle.std.specs.Prelude.{◌≡◌, IfOk};
ghost use Rattle.rotate_rules.specs.Pieces.{file_name};

use chunk_core::Word;
use std::alloc::{AllocError, Global};

/// The path of file i.
pub(crate) fn file_path(alloc: Global, prefix: &Word, i: u32) -> Result<Word, AllocError>
    ensures { IfOk result (λ path. path ≡ file_name prefix.now i) }
{
    let prefix = prefix.as_str();
    let path = format!(in alloc; "{prefix}.{i}")?;
    Word::of(alloc, path.as_str())
}
