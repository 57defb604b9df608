//! Files that are opened under a guard.
use crate::file::GuardedFile;
use crate::guard::Guard;
use std::alloc::Allocator;
use std::fs::{Metadata, OpenOptions};
use std::io;
use std::io::ErrorKind;
use std::rt::Files;

/// The files of a runtime, which are opened under a guard.
#[derive(Clone, Copy)]
pub struct GuardedFiles<'a, R> {
    rt: R,
    guard: &'a Guard,
}

impl<'a, R: Files> GuardedFiles<'a, R> {
    pub fn new(rt: R, guard: &'a Guard) -> GuardedFiles<'a, R> {
        GuardedFiles { rt, guard }
    }

    /// Opens a file, unless it is the standard output and is to be written.
    fn open_under_guard(&self, how: &OpenOptions, path: &str) -> io::Result<R::File> {
        let writes = how.asks_write() || how.asks_append();
        if writes && self.guard.is_output(&self.rt, path) {
            return Err(io::Error::new(
                ErrorKind::ResourceBusy,
                "it is the standard output, which gets the frames",
            ));
        }
        self.rt.open_file(how, path)
    }
}

impl<'a, R: Files + Copy> Files for GuardedFiles<'a, R> {
    type File = GuardedFile<'a, R>;

    type Dir = R::Dir;

    fn open_file(&self, how: &OpenOptions, path: &str) -> io::Result<GuardedFile<'a, R>> {
        match self.open_under_guard(how, path) {
            Ok(file) => Ok(GuardedFile {
                file,
                rt: self.rt,
                guard: self.guard,
                path: self.guard.path_to_tell(path)?,
            }),
            Err(error) => {
                self.guard.tell(&self.rt, "open", path, &error);
                Err(error)
            }
        }
    }

    fn open_dir(&self, path: &str) -> io::Result<R::Dir> {
        self.rt.open_dir(path)
    }

    fn metadata(&self, path: &str) -> io::Result<Metadata> {
        self.rt.metadata(path)
    }

    fn symlink_metadata(&self, path: &str) -> io::Result<Metadata> {
        self.rt.symlink_metadata(path)
    }

    fn copy(&self, from: &str, to: &str) -> io::Result<u64> {
        self.rt.copy(from, to)
    }

    fn rename(&self, from: &str, to: &str) -> io::Result<()> {
        self.rt.rename(from, to)
    }

    fn remove_file(&self, path: &str) -> io::Result<()> {
        self.rt.remove_file(path)
    }

    fn create_dir(&self, path: &str) -> io::Result<()> {
        self.rt.create_dir(path)
    }

    fn remove_dir(&self, path: &str) -> io::Result<()> {
        self.rt.remove_dir(path)
    }

    fn remove_dir_all<B: Allocator>(&self, alloc: B, path: &str) -> io::Result<()> {
        self.rt.remove_dir_all(alloc, path)
    }
}
