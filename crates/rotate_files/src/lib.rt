//! Files of so many bytes each, written one after the other over a `Hotswap`.
//!
//! `begin` acquires the open file that is read as row 0, over a tree with room for all. `copy` reads it to its end and writes the
//! bytes on to the last file of the `Rotation`, and where that is full makes the next one, opens it and swaps it in; `end`
//! closes all. `copy` stops (`Stop`) where a read or a write fails, a file can't be opened, there would be one file too many,
//! or memory is wanting, and its contract tells where: which bytes were given, and what each file was written. Who rotates
//! makes the tree and its room, and gives the devices back:
//!
//! ```
//! let mut rotation = begin::<D::Dev, S>(tree, desk, device);
//! let copied = copy::<D, S>(alloc, &mut rotation, desk, depot, prefix, bytes, buffer);
//! let (how, unopened) = how_it_ended(copied);
//! let (seat, shelf) = end::<D::Dev, S>(rotation, desk, how.exit());
//! ```
#![tactic(auto)]

pub mod beginning;
pub mod copying;
pub(crate) mod name;
pub mod rotation;
pub(crate) mod row;
pub mod stop;
pub(crate) mod write;

pub use beginning::{begin, end};
pub use copying::copy;
pub use rotation::Rotation;
pub use stop::Stop;
