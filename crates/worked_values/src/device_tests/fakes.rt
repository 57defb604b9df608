//! Files of the tests' own, which answer as they are told.
use std::alloc::Global;
use std::fs::{Metadata, OpenFile, OpenOptions};
use std::io;
use std::io::{ErrorKind, Read, Seek, SeekFrom, Write};
use std::rt::Files;

/// What one read or write does.
#[derive(Clone, Copy)]
pub enum Answer {
    Interrupted,
    /// It gives or takes so many bytes, as far as there is room.
    Moves(usize),
    Fails,
    /// It would have to wait, and so fails.
    WouldBlock,
}

/// A file that answers its reads and writes in turn, and fails once there is no answer left. Each
/// byte that it gives is an `x`.
#[derive(Drop)]
pub struct Scripted<'a> {
    answers: &'a [Answer],
    at: usize,
    pub taken: Vec<u8>,
    sync: Option<ErrorKind>,
}

impl<'a> Scripted<'a> {
    pub fn new(alloc: Global, answers: &'a [Answer], sync: Option<ErrorKind>) -> Scripted<'a> {
        Scripted {
            answers,
            at: 0,
            taken: Vec::new(alloc),
            sync,
        }
    }

    /// How many bytes the next call moves.
    fn next(&mut self) -> io::Result<usize> {
        let answer = self.answers.get(self.at);
        self.at = self.at.saturating_add(1);
        match answer {
            Some(Answer::Moves(count)) => Ok(*count),
            Some(Answer::Interrupted) => Err(io::Error::from(ErrorKind::Interrupted)),
            Some(Answer::WouldBlock) => Err(io::Error::from(ErrorKind::WouldBlock)),
            Some(Answer::Fails) | None => Err(io::Error::from(ErrorKind::Other)),
        }
    }
}

impl<'a> Read for Scripted<'a> {
    fn read(&mut self, buf: &mut [u8]) -> io::Result<usize> {
        let count = self.next()?.min(buf.len());
        buf[..count].fill(b'x');
        Ok(count)
    }
}

impl<'a> Write for Scripted<'a> {
    fn write(&mut self, bytes: &[u8]) -> io::Result<usize> {
        let count = self.next()?.min(bytes.len());
        self.taken.extend_from_slice(&bytes[..count])?;
        Ok(count)
    }

    fn flush(&mut self) -> io::Result<()> {
        Ok(())
    }
}

impl<'a> Seek for Scripted<'a> {
    fn seek(&mut self, _to: SeekFrom) -> io::Result<u64> {
        Err(io::Error::from(ErrorKind::NotSeekable))
    }
}

impl<'a> OpenFile for Scripted<'a> {
    fn metadata(&self) -> io::Result<Metadata> {
        Err(io::Error::from(ErrorKind::Unsupported))
    }

    fn set_len(&self, _size: u64) -> io::Result<()> {
        Err(io::Error::from(ErrorKind::Unsupported))
    }

    fn sync_all(&self) -> io::Result<()> {
        self.sync_data()
    }

    fn sync_data(&self) -> io::Result<()> {
        match self.sync {
            Some(kind) => Err(io::Error::from(kind)),
            None => Ok(()),
        }
    }
}

/// A file system whose file `read` is only to be read, and whose file `written` is only to be
/// created or emptied and written.
#[derive(Clone, Copy)]
pub struct Scripts<'a> {
    pub alloc: Global,
    pub answers: &'a [Answer],
    /// How making a file safe on its disk fails.
    pub sync: Option<ErrorKind>,
}

impl<'a> Files for Scripts<'a> {
    type File = Scripted<'a>;

    type Dir = Scripted<'a>;

    fn open_file(&self, how: &OpenOptions, path: &str) -> io::Result<Scripted<'a>> {
        let reads = how.asks_read() && !how.asks_write();
        let empties = how.asks_create() && how.asks_truncate() && !how.asks_append();
        let writes = how.asks_write() && !how.asks_read() && empties;
        if (path == "read" && reads) || (path == "written" && writes) {
            return Ok(Scripted::new(self.alloc, self.answers, self.sync));
        }
        Err(io::Error::from(ErrorKind::NotFound))
    }

    fn open_dir(&self, _path: &str) -> io::Result<Scripted<'a>> {
        Err(io::Error::from(ErrorKind::Unsupported))
    }

    fn metadata(&self, _path: &str) -> io::Result<Metadata> {
        Err(io::Error::from(ErrorKind::Unsupported))
    }

    fn symlink_metadata(&self, _path: &str) -> io::Result<Metadata> {
        Err(io::Error::from(ErrorKind::Unsupported))
    }

    fn copy(&self, _from: &str, _to: &str) -> io::Result<u64> {
        Err(io::Error::from(ErrorKind::Unsupported))
    }

    fn rename(&self, _from: &str, _to: &str) -> io::Result<()> {
        Err(io::Error::from(ErrorKind::Unsupported))
    }

    fn remove_file(&self, _path: &str) -> io::Result<()> {
        Err(io::Error::from(ErrorKind::Unsupported))
    }

    fn create_dir(&self, _path: &str) -> io::Result<()> {
        Err(io::Error::from(ErrorKind::Unsupported))
    }

    fn remove_dir(&self, _path: &str) -> io::Result<()> {
        Err(io::Error::from(ErrorKind::Unsupported))
    }

    fn remove_dir_all<B: std::alloc::Allocator>(&self, _alloc: B, _path: &str) -> io::Result<()> {
        Err(io::Error::from(ErrorKind::Unsupported))
    }
}
