//! Values that everything above speaks of: lists, words, chunks and loads, the codes and ends of
//! streams, and the protocol of pipes.
//!
//! - `List`, with `Line` and `Row`, grows at its end; `Word` is UTF-8 text, such as a path.
//! - `Chunk` is a window on a vector that others may share; `split`, `share` and `into_vec` copy no
//!   element. `ChunkQueue` takes elements of chunks in a row.
//! - `Load` is a piece of a stream, of bytes, lines or rows, and `render` gives its text. `copy` copies
//!   no element, and `empty` takes no memory.
//! - `Code` says what went wrong in a stream, `How` how it ended, `Exit` what a finalizer is told.
//! - `Feed` is a pipe that is fed loads, and `Fed` its answer. `Refill`, `Spare` and `SpareRows` are
//!   for pipes that fill the memory of loads that were let go.
//!
//! The one error is `AllocError`, for want of memory: a list, chunk or queue is then as it was, what
//! was handed in is dropped, and a pipe may only be dropped. `Chunk::into_vec` gives the chunk back
//! where it can't be a vector.
//!
//! ```
//! let alloc = rt.alloc();
//! let mut rest = Chunk::of_vec(alloc, Vec::from_slice(alloc, b"hello world")?)?;
//! let front = rest.split(6)?;
//! assert_eq!(rt; front.as_slice(), b"hello ".as_slice());
//!
//! let mut queue = ChunkQueue::new(alloc);
//! queue.push(rest)?;
//! queue.push(front)?;
//! let word = Load::Bytes(queue.take(5)?);
//! assert_eq!(rt; render(alloc, &word)?.as_slice(), b"world".as_slice());
//!
//! let mut lines = Vec::new(alloc);
//! lines.push(Line::copy_of(alloc, b"one")?)?;
//! lines.push(Line::copy_of(alloc, b"two")?)?;
//! let load = Load::Lines(Chunk::of_vec(alloc, lines)?);
//! assert_eq!(rt; load.len(), 2);
//! assert_eq!(rt; render(alloc, &load)?.as_slice(), b"one\ntwo\n".as_slice());
//! ```
#![tactic(auto)]

pub mod chunk;
pub mod code;
pub mod feed;
pub mod list;
pub mod load;
pub mod queue;
pub mod refill;
pub mod spare;
pub mod word;

pub use chunk::{Chunk, ChunkIter};
pub use code::{Code, Exit, How, Span};
pub use feed::{Fed, Feed};
pub use list::{Line, List, Row};
pub use load::{Load, render};
pub use queue::ChunkQueue;
pub use refill::Refill;
pub use spare::{Spare, SpareRows};
pub use word::Word;
