//! Names of files among the words.
ghost use Rattle.std.specs.Prelude.{◌≡◌};
ghost use Rattle.command_words.specs.Words.{is_file_of as is_file_of_prefix, is_file_path as is_file_path_of, is_prefix as is_prefix_of};

use crate::numbers::number;
use itoa::Buffer;

/// The most files that a rotation makes.
const MOST_FILES: u64 = 1024;

pub(crate) fn is_file_path(path: &str) -> bool
    ensures { result ≡ is_file_path_of path.now }
{
    1 <= path.len() && path.len() <= 1024
}

pub(crate) fn is_prefix(prefix: &str) -> bool
    ensures { result ≡ is_prefix_of prefix.now }
{
    1 <= prefix.len() && prefix.len() <= 1019
}

/// Whether the path names a file that a rotation of this prefix may make.
pub(crate) fn is_file_of(prefix: &str, path: &str) -> bool
    ensures { result ≡ is_file_of_prefix prefix.now path.now }
{
    let Some(behind) = path.strip_prefix(prefix) else {
        return false;
    };
    let Some(text) = behind.strip_prefix(".") else {
        return false;
    };
    match number(text) {
        Some(i) => i < MOST_FILES && Buffer::new().format(i) == text,
        None => false,
    }
}
