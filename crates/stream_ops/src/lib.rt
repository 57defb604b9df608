//! Pipes over whole elements: a pipe's answers are the same however its input is cut.
//!
//! `DropPipe` leaves the first elements out, `FilterPipe` lines without a text, `ChangesPipe`
//! elements that are equal to the one before them; `NumberPipe` puts its number before each line,
//! `CountPipe` gives the number of elements at the end, `InterspersePipe` a line between each two,
//! and `ChunkNPipe` groups of a size. Each is made by `new`, is fed load by load (`feed`), and told
//! the end again and again (`finish`) until it answers `Fed::End`. `ZipState` and `MergeState`, with
//! `Side`, are those of `stream_sides`.
//!
//! None of them knows a fault. After the end or `AllocError` a pipe may only be dropped.
//!
//! ```
//! let mut pipe = NumberPipe::new(alloc)?;
//! let Fed::Out(first) = pipe.feed(alloc, lines(alloc, front)?)? else {
//!     return Ok(None);
//! };
//! let Fed::Out(second) = pipe.feed(alloc, lines(alloc, back)?)? else {
//!     return Ok(None);
//! };
//! let Fed::End = pipe.finish(alloc)? else {
//!     return Ok(None);
//! };
//! Ok(Some(text_of(alloc, [first, second].as_slice())?))
//! ```
#![tactic(auto)]

pub mod changes;
pub mod chunk_n;
pub(crate) mod compared;
pub mod count;
pub mod drop;
pub mod filter;
pub mod intersperse;
pub(crate) mod loads;
pub mod number;

pub use crate::drop::DropPipe;
pub use changes::ChangesPipe;
pub use chunk_n::ChunkNPipe;
pub use count::CountPipe;
pub use filter::FilterPipe;
pub use intersperse::InterspersePipe;
pub use number::NumberPipe;
pub use stream_sides::{MergeState, Side, ZipState};
