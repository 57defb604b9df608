//! What the words of a command line ask for.
//!
//! The first word names the command. The rest is read by one simple command of `clap` for each, and
//! means nothing where that refuses it: so an option is spelled `--chunk 4` or `--chunk=4`, at most
//! once, before or after the other word, and behind `--` each word is an argument. Numbers are
//! spelled as Rust's `u64` reads them.
//!
//! ```
//! let mut copies = Vec::new(alloc);
//! for word in words {
//!     copies.push(Word::of(alloc, word)?)?;
//! }
//! let Some(Asked::Cat { chunk, .. }) = asked_by(alloc, &copies)? else {
//!     return Ok(None);
//! };
//! Ok(Some(chunk))
//! ```
#![tactic(auto)]

pub mod asked;
pub(crate) mod audit;
pub(crate) mod cat;
pub(crate) mod evaluated;
pub(crate) mod generated;
pub mod laws;
pub(crate) mod names;
pub(crate) mod numbers;
pub(crate) mod reading;
pub(crate) mod rotate;
pub(crate) mod run;
pub(crate) mod teed;

pub use asked::{Asked, asked_by};
