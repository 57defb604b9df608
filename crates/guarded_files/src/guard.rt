//! What guards the files of a run.
use chunk_core::Word;
use std::alloc::Global;
use std::fs::{Metadata, OpenOptions};
use std::io;
use std::io::{ErrorKind, Write};
use std::os::unix::fs::MetadataExt;
use std::rt::Files;

/// A file, by the device that it is on and its number there.
#[derive(Clone, Copy, PartialEq, Eq)]
pub(crate) struct FileId {
    device: u64,
    inode: u64,
}

impl FileId {
    fn of(metadata: &Metadata) -> FileId {
        FileId {
            device: metadata.dev(),
            inode: metadata.ino(),
        }
    }
}

/// The name of the standard output.
const OUTPUT: &str = "/dev/stdout";

/// The file that is the standard output, where it is one, and the file that failed calls are told to, if to one.
#[derive(Drop)]
pub struct Guard {
    alloc: Global,
    output: Option<FileId>,
    log: Option<Word>,
}

impl Guard {
    /// The guard of a run. Failed calls are told to the file at `log`, if one is named.
    pub fn new<R: Files>(rt: &R, alloc: Global, log: Option<Word>) -> Guard {
        let output = match rt.metadata(OUTPUT) {
            Ok(metadata) if metadata.is_file() => Some(FileId::of(&metadata)),
            _ => None,
        };
        Guard { alloc, output, log }
    }

    /// Whether a path leads to the file that is the standard output, so that no other may write to it.
    pub(crate) fn is_output<R: Files>(&self, rt: &R, path: &str) -> bool {
        let Some(output) = self.output else {
            return false;
        };
        match rt.metadata(path) {
            Ok(metadata) => FileId::of(&metadata) == output,
            Err(_) => false,
        }
    }

    /// A copy of a path, where failed calls are told.
    pub(crate) fn path_to_tell(&self, path: &str) -> io::Result<Option<Word>> {
        match self.log {
            None => Ok(None),
            Some(_) => Ok(Some(Word::of(self.alloc, path)?)),
        }
    }

    /// Tells a failed call, where that is asked for. A call that was interrupted is made again.
    pub(crate) fn tell<R: Files>(&self, rt: &R, act: &str, path: &str, error: &io::Error) {
        let Some(log) = &self.log else {
            return;
        };
        if error.kind() == ErrorKind::Interrupted {
            return;
        }
        let Ok(line) = format!(in self.alloc; "{act} {path:?}: {error}\n") else {
            return;
        };
        let mut how = OpenOptions::new();
        how.append(true).create(true);
        if let Ok(mut file) = how.open(rt, log.as_str()) {
            let _ = file.write_all(line.as_bytes());
        }
    }
}
