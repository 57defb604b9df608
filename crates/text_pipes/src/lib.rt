//! The pipes over text: a pipe's answers are the same however its input is cut.
//!
//! `LinesPipe` gives lines of bytes, `UpperPipe` capitals, `HexPipe` hexadecimal lines, `Utf8Pipe`
//! the input as far as it is UTF-8, `LossyPipe` valid text in place of what isn't. Each is made by
//! `new`, is fed load by load (`feed`), and told the end again and again (`finish`) until it answers
//! `Fed::End`.
//!
//! `Fed::Fault` comes with what was given before it: `LongLine` from `LinesPipe`, `Malformed` and
//! `Truncated` from `Utf8Pipe`; the others know no fault. After a fault, the end or `AllocError` a
//! pipe may only be dropped.
//!
//! ```
//! let mut pipe = LinesPipe::new(alloc)?;
//! let Fed::Out(first) = pipe.feed(alloc, bytes(alloc, front)?)? else {
//!     return Ok(None);
//! };
//! let Fed::Out(second) = pipe.feed(alloc, bytes(alloc, back)?)? else {
//!     return Ok(None);
//! };
//! let Fed::Out(last) = pipe.finish(alloc)? else {
//!     return Ok(None);
//! };
//! Ok(Some(text_of(alloc, [first, second, last].as_slice())?))
//! ```
#![tactic(auto)]

pub(crate) mod held;
pub mod hexadecimal;
pub mod lines;
pub(crate) mod loads;
pub mod lossy;
pub mod upper;
pub mod utf8;

pub use hexadecimal::HexPipe;
pub use lines::LinesPipe;
pub use lossy::LossyPipe;
pub use upper::UpperPipe;
pub use utf8::Utf8Pipe;
