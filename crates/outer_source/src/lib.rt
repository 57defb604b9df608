//! The outer stream of a plan with its list, which is pulled for one stream after another.
//!
//! `OuterSource::pull` gives the described streams first, part by part (`outer_stream`): `Next::Leased`. Behind
//! the last part, where the plan has a list, it opens a child scope of the root and acquires the list's device
//! there. From then on each pull reads one line and leases that scope for the line's stream: `Next::Listed` with
//! the file that it reads. The list is read no further than its next line needs (`list_lines`), so that streams
//! of the first lines run while the others aren't there yet.
//!
//! The outer stream is over (`Next::Over`) at the end of the list, behind which the child scope is closed; with
//! the fault of a table or of the list; or for want of memory. A line beyond the list's `max` is the fault
//! `toomany`. Else a line that is empty, longer than 1,024 bytes, or a file that a described stream writes is the
//! fault `badpath`. Nothing more is read behind a fault. The root is open still, as with `Outer`.
//!
//! Who gathers the streams of a run pulls it so:
//!
//! ```
//! match self.outer_stream.pull::<D, S>(
//!     alloc,
//!     &mut self.tree,
//!     desk,
//!     self.parts.as_slice(),
//!     plan,
//!     depot,
//! ) {
//!     Next::Leased(lease) => self.let_wait(lease, None),
//!     Next::Listed(lease, path) => self.let_wait(lease, Some(path)),
//!     Next::Over(how) => match why_stopped(how) {
//!         Some(why) => {
//!             self.stop(desk, why, how);
//!             self.skip(desk);
//!         }
//!         None => self.close(desk, how),
//!     },
//! }
//! ```
#![tactic(auto)]

pub(crate) mod bad;
pub mod next;
pub mod source;

pub use next::Next;
pub use source::OuterSource;
