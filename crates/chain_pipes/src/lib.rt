//! A chain of steps as one pipe, so that whatever runs a pipe runs a chain.
//!
//! `Chain::new` makes the state of steps that fit behind bytes and look nothing up; it is fed and told
//! the end as any pipe (`Feed`). Where a `take` is met what stands behind it ends: the chain goes on
//! taking input, and gives nothing more. Its one error is `AllocError`.
//!
//! Two pieces of bytes, of which a line may have its parts in both, and then the end:
//!
//! ```
//! let mut chain = Chain::new(alloc, &steps(alloc, word)?)?;
//! let Fed::Out(first) = chain.feed(alloc, bytes(alloc, front)?)? else {
//!     return Ok(None);
//! };
//! let Fed::Out(second) = chain.feed(alloc, bytes(alloc, back)?)? else {
//!     return Ok(None);
//! };
//! let Fed::End = chain.finish(alloc)? else {
//!     return Ok(None);
//! };
//! Ok(Some(text_of(alloc, [first, second].as_slice())?))
//! ```
#![tactic(auto)]

pub(crate) mod batch;
pub mod chain;
pub(crate) mod joining;
pub mod laws;
pub(crate) mod link;

pub use chain::Chain;
