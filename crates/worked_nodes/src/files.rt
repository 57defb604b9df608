//! Files in memory.
use chunk_core::{Line, List, Word};
use device_port::{Act, FileOf, MemDepot, Trip};
use std::alloc::{AllocError, Global};

/// The file `a`: its bytes, the call on it that fails, if one does, and the most bytes that a write
/// takes. Beside it stands `b`, with the bytes of `world`.
#[derive(Clone, Copy)]
pub(crate) struct Files<'a> {
    pub(crate) a: &'a [u8],
    pub(crate) fail: Option<(Act, u32)>,
    pub(crate) most: usize,
}

/// `a` has the bytes of `hello` and a line end.
pub(crate) const HELLO: Files<'static> = Files {
    a: b"hello\n",
    fail: None,
    most: usize::MAX,
};

impl<'a> Files<'a> {
    /// `a` has these bytes.
    pub(crate) fn of(a: &'a [u8]) -> Files<'a> {
        Files { a, ..HELLO }
    }

    /// The same where a call on `a` fails.
    pub(crate) fn failing(self, act: Act, nth: u32) -> Files<'a> {
        let fail = Some((act, nth));
        Files { fail, ..self }
    }
}

fn file(alloc: Global, path: &str, bytes: &[u8]) -> Result<FileOf, AllocError> {
    Ok(FileOf {
        path: Word::of(alloc, path)?,
        bytes: Line::copy_of(alloc, bytes)?,
    })
}

fn trips(alloc: Global, fail: Option<(Act, u32)>) -> Result<List<Trip>, AllocError> {
    let mut trips = List::new(alloc);
    if let Some((act, nth)) = fail {
        let path = Word::of(alloc, "a")?;
        trips.push(Trip { path, act, nth })?;
    }
    Ok(trips)
}

/// A depot of these files.
pub(crate) fn depot(alloc: Global, files: Files<'_>) -> Result<MemDepot, AllocError> {
    let mut list = List::new(alloc);
    list.push(file(alloc, "a", files.a)?)?;
    list.push(file(alloc, "b", b"world")?)?;
    MemDepot::new(alloc, list, trips(alloc, files.fail)?)
}
