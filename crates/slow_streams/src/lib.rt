//! What streams give, as slow as it is plain: whole inputs through one step after the other.
//!
//! `read_of` tells what a file gives that is read in pieces, `through` what a chain of steps makes of it, and `texts_of` all that a stream
//! may print which reads one file or two: more than one text where two are merged. Such a `Text` tells what may have been printed of it
//! where the stream ended so.
//!
//! ```
//! let given = through(alloc, &chain.steps, given, &Vec::new(alloc))?;
//! Text::of(alloc, chain.kind, &given, given.end)
//! ```
#![tactic(auto)]

pub mod given;
pub mod records;
pub mod sides;
pub mod steps;
pub mod text;
pub mod utf8;

pub use given::{Given, Item, read_of};
pub use records::table_of;
pub use sides::texts_of;
pub use steps::{Tables, lines_in, through};
pub use text::Text;
pub use utf8::lines_of;
