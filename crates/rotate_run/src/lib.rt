//! The work of the command `rotate`: one file, copied into files of so many bytes each.
//!
//! `run_rotate` opens a file, copies it into files PREFIX.0, PREFIX.1 and so on, with at most two of them open at a
//! time, closes all and gives the devices back. The room for the rows, scopes and events of 1,024 files is made before
//! the first device, so that the copying takes memory for the next file's name and device alone. It answers an
//! `Outcome`: how the copying ended, the ledger, and whether memory was wanting. Nothing is an error of the call itself.
//!
//! ```
//! let mut depot = depot_of(rt.alloc(), &cat_of(b"abcdef"))?;
//! let path = Word::of(rt.alloc(), "a")?;
//! let prefix = Word::of(rt.alloc(), "p")?;
//! let outcome = run_rotate(rt.alloc(), &path, &prefix, 4, &mut depot);
//! assert!(rt; depot.file("p.0") == Some(b"abcd".as_slice()));
//! assert!(rt; depot.file("p.1") == Some(b"ef".as_slice()));
//! assert_eq!(rt; outcome.ends.len(), 1);
//! assert_eq!(rt; outcome.ledger.len(), 10);
//! assert!(rt; !outcome.memory);
//! ```
#![tactic(auto)]

pub(crate) mod back;
pub(crate) mod closed;
pub(crate) mod ran;
pub(crate) mod room;
pub mod rotate;

pub use rotate::run_rotate;
