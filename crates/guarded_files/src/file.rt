//! A file whose failed calls are told.
use crate::guard::Guard;
use chunk_core::Word;
use std::fs::{FileTimes, Metadata, OpenFile, Permissions};
use std::io;
use std::io::{Read, Seek, SeekFrom, Write};
use std::rt::Files;

/// A file whose failed calls are told.
#[derive(Drop)]
pub struct GuardedFile<'a, R: Files> {
    pub(crate) file: R::File,
    pub(crate) rt: R,
    pub(crate) guard: &'a Guard,
    pub(crate) path: Option<Word>,
}

impl<'a, R: Files> GuardedFile<'a, R> {
    /// Tells how an act failed, if it did.
    fn tell<T>(&self, act: &str, answer: &io::Result<T>) {
        if let (Some(path), Err(error)) = (&self.path, answer) {
            self.guard.tell(&self.rt, act, path.as_str(), error);
        }
    }
}

impl<'a, R: Files> Read for GuardedFile<'a, R> {
    ghost remaining = { λ f. R.File.Read.remaining f.file };

    fn read(&mut self, buf: &mut [u8]) -> io::Result<usize> {
        let answer = self.file.read(buf);
        self.tell("read", &answer);
        answer
    }
}

impl<'a, R: Files> Write for GuardedFile<'a, R> {
    ghost contents = { λ f. R.File.Write.contents f.file };

    fn write(&mut self, buf: &[u8]) -> io::Result<usize> {
        let answer = self.file.write(buf);
        self.tell("write", &answer);
        answer
    }

    fn flush(&mut self) -> io::Result<()> {
        let answer = self.file.flush();
        self.tell("write", &answer);
        answer
    }
}

impl<'a, R: Files> Seek for GuardedFile<'a, R> {
    ghost stream_position = { λ f. R.File.Seek.stream_position f.file };

    ghost stream_bytes = { λ f. R.File.Seek.stream_bytes f.file };

    fn seek(&mut self, to: SeekFrom) -> io::Result<u64> {
        let answer = self.file.seek(to);
        self.tell("seek", &answer);
        answer
    }
}

impl<'a, R: Files> OpenFile for GuardedFile<'a, R> {
    fn metadata(&self) -> io::Result<Metadata> {
        self.file.metadata()
    }

    fn set_len(&self, size: u64) -> io::Result<()> {
        self.file.set_len(size)
    }

    fn sync_all(&self) -> io::Result<()> {
        let answer = self.file.sync_all();
        self.tell("close", &answer);
        answer
    }

    fn sync_data(&self) -> io::Result<()> {
        let answer = self.file.sync_data();
        self.tell("close", &answer);
        answer
    }

    fn set_permissions(&self, perm: Permissions) -> io::Result<()> {
        self.file.set_permissions(perm)
    }

    fn set_times(&self, times: FileTimes) -> io::Result<()> {
        self.file.set_times(times)
    }
}
