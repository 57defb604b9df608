//! Reads a chain of steps from one word, as a command line has it.
//!
//! A word has its steps between bars, each written as in a description; an empty word has none. The
//! first step gets bytes. `steps` gives them in order, or `StepsRefused`: `Bad` where a part is no
//! step or needs a table, where there are more than 16 steps or two that put a line between each two,
//! and where a step doesn't take the kind that it gets; `Memory` stands for want of memory. A bar can
//! stand in no argument.
//!
//! ```
//! /// How many steps a word has, where it has some.
//! fn count_of(alloc: Global, word: &[u8]) -> Result<Option<usize>, AllocError> {
//!     match steps(alloc, word) {
//!         Ok(steps) => Ok(Some(steps.len())),
//!         Err(StepsRefused::Bad) => Ok(None),
//!         Err(StepsRefused::Memory) => Err(AllocError),
//!     }
//! }
//! ```
#![tactic(auto)]

pub mod laws;
pub mod word;

pub use word::{StepsRefused, steps};
