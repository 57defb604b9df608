//! The outer stream of a plan, which is pulled for one stream after another.
//!
//! A plan has its tables and streams in parts (`OuterPart`). The tables of the first part are rows of the root of
//! the main tree, and each other part has a child scope of the root for its own. `Outer::new` is an outer stream
//! that wasn't pulled. `Outer::pull` leases a scope of the main tree for the next stream: `Next::Leased`. Before the
//! first stream of a part it begins that part: it opens its scope and reads its tables there (`outer_tables`); and it
//! closes the scope once it is pulled behind the last stream of the part. Where no stream comes any more it tells how
//! the outer stream is over: `Next::Over`, as done, as failed with the fault of a table, or for want of memory. The
//! root is open still then: who pulled sets the context of the run where the outer stream failed, and closes the root
//! with the exit of that end. `tables` are the dictionaries that were read so far, in which a stream that is begun now
//! looks up.
//!
//! Where a plan has a list behind its parts it is pulled so:
//!
//! ```
//! match self
//!     .outer
//!     .pull::<D, S>(alloc, tree, desk, parts, tables, depot)
//! {
//!     NextOfParts::Leased(lease) => Next::Leased(lease),
//!     NextOfParts::Over(how) => match how {
//!         How::Done => match plan.list() {
//!             Some(list) => self.begin_list::<D, S>(alloc, tree, desk, plan, list, depot),
//!             None => Next::Over(How::Done),
//!         },
//!         _ => Next::Over(how),
//!     },
//! }
//! ```
#![tactic(auto)]

pub mod next;
pub mod outer;

pub use next::{Next, OuterPart};
pub use outer::Outer;
