//! The outside of a run as traits: what is read (`Source`), what is written (`Sink`), files that are
//! opened once and closed once (`Device`), where these come from (`Depot`), and a place where a test
//! can hold a stream (`Gate`).
//!
//! Contracts see each object by one record of what it tells: counts of its faults, which never fall,
//! and contents where it tells them. The objects in memory (`MemSource`, `MemSink`, `MemDepot`) tell
//! everything, and those of their calls fail that are named, by number or as a `Trip`. The real ones
//! (`StdSource`, `StdSink`, `FileDepot`) tell no content: what the system gives and takes is beyond
//! contracts.
//!
//! Reads and writes that a signal interrupts are tried again and are no failures. Nothing is
//! buffered: each write of a `StdSink` is one of its writer's. `put` writes until all is written.
//!
//! A call that failed answers `Failed`, without the system's reason, and its count rose by one. A
//! device that failed to close is closed all the same. What makes something, as `Depot::make`, fails
//! with `AllocError`, and then nothing was made.
//!
//! A depot in memory with the file `a`, whose second read fails:
//!
//! ```
//! let mut files = List::new(alloc);
//! let (path, bytes) = (Word::of(alloc, "a")?, Line::copy_of(alloc, b"hello")?);
//! files.push(FileOf { path, bytes })?;
//! let mut fail = List::new(alloc);
//! let (path, act) = (Word::of(alloc, "a")?, Act::Read);
//! fail.push(Trip { path, act, nth: 2 })?;
//! MemDepot::new(alloc, files, fail)
//! ```
//!
//! A device of this depot is read until that fails, closed, and comes back:
//!
//! ```
//! let mut depot = depot_of_one(alloc)?;
//! let mut device = depot.make(alloc, &Word::of(alloc, "a")?, Mode::Read)?;
//! let mut buf = [0u8; 4];
//! assert_eq!(rt; device.open(), Ok(()));
//! assert_eq!(rt; device.read(&mut buf), Ok(4));
//! assert_eq!(rt; buf.as_slice(), b"hell".as_slice());
//! assert_eq!(rt; device.read(&mut buf), Err(Failed));
//! assert_eq!(rt; device.close(Exit::Errored), Ok(()));
//! depot.retire(device);
//! for record in depot.retired() {
//!     assert_eq!(rt; record.stage, Stage::Closed(Exit::Errored));
//!     assert_eq!(rt; (record.read_faults, record.closes()), (1, 1));
//! }
//! ```
#![tactic(auto)]

pub(crate) mod calls;
pub mod depot;
pub mod device;
pub mod file_depot;
pub mod file_device;
pub mod files;
pub mod gate;
pub mod mem;
pub mod mem_depot;
pub mod mem_device;
pub mod real;
pub mod record;
pub mod sink;
pub mod source;
pub mod trip;

pub use depot::Depot;
pub use device::{Device, Mode};
pub use file_depot::FileDepot;
pub use file_device::FileDevice;
pub use files::{FileOf, PlaceOf};
pub use gate::{Gate, OpenGate};
pub use mem::{MemSink, MemSource};
pub use mem_depot::MemDepot;
pub use mem_device::MemDevice;
pub use real::{StdSink, StdSource};
pub use record::{Record, Stage};
pub use sink::{Sink, put};
pub use source::Source;
pub use trip::{Act, Trip};

/// A call on the outside failed.
#[derive(Clone, Copy, Debug, PartialEq, Eq)]
pub struct Failed;
