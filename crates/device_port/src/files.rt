//! The files of a depot in memory, and places where devices are made.
ghost use Rattle.std.specs.Prelude.{◌≡◌, find, reverse, option_map};
ghost use Rattle.std.specs.Option.{option_copied};
ghost use Rattle.std.specs.Str.{bytes_eq};
ghost use Rattle.device_port.specs.Files.{wrote, bytes_at};

use crate::{Mode, Record};
use chunk_core::{Line, Word};

/// A file by its bytes.
#[derive(Drop)]
pub struct FileOf {
    pub path: Word,
    pub bytes: Line,
}

/// A path, and what a device was made for there.
#[derive(Drop)]
pub struct PlaceOf {
    pub path: Word,
    pub mode: Mode,
}

/// The first of the files with this path.
fn first_at<'a>(files: &'a [FileOf], path: &str) -> Option<&'a FileOf>
    ensures { option_copied result ≡ find (λ f. bytes_eq f.path path.now) files.now }
{
    files.iter().find(|f| f.path.as_str() == path)
}

/// The last of the records that left its bytes at this path.
fn last_written<'a>(records: &'a [Record], path: &str) -> Option<&'a Record>
    ensures { option_copied result ≡ find (wrote path.now) (reverse records.now) }
{
    records.iter().rev().find(|r| r.wrote(path))
}

/// The bytes at a path: those of the first file, or what came back last.
pub(crate) fn bytes_at<'a>(
    files: &'a [FileOf],
    records: &'a [Record],
    path: &str,
) -> Option<&'a [u8]>
    ensures { option_map (λ b. b.now) result ≡ bytes_at files.now records.now path.now }
{
    match last_written(records, path) {
        Some(record) => Some(record.written.as_slice()),
        None => match first_at(files, path) {
            Some(file) => Some(file.bytes.as_slice()),
            None => None,
        },
    }
}
