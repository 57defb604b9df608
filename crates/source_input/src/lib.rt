//! A source, such as standard input, is read whole before anything is done with it.
//!
//! `read_source` gives all that a source has, or its first bytes up to a limit: who tells apart a
//! text of so many bytes from a longer one hands in one more. Nothing is read behind the limit, nor
//! behind a read that failed. `NotRead` says why there are no bytes: a read failed, or memory was
//! wanting. What the source is afterwards is told in each case.
//!
//! ```
//! let mut src = MemSource::new(alloc, b"a text", List::new(alloc))?;
//! let text = read_source(alloc, &mut src, 100)?;
//! assert_eq!(rt; text.as_slice(), b"a text".as_slice());
//!
//! let mut long = MemSource::new(alloc, b"a text", List::new(alloc))?;
//! let front = read_source(alloc, &mut long, 3)?;
//! assert_eq!(rt; front.as_slice(), b"a t".as_slice());
//!
//! let mut fails = List::new(alloc);
//! fails.push(1)?;
//! let mut failing = MemSource::new(alloc, b"a text", fails)?;
//! let why = read_source(alloc, &mut failing, 100).err();
//! assert_eq!(rt; why, Some(NotRead::Failed));
//! ```
#![tactic(auto)]

pub mod reading;

pub use reading::{NotRead, read_source};
