//! The lines of a list, which is read piece by piece from a device.
//!
//! `ListLines` reads a device through a pipe that takes bytes and gives lines. `next` gives the next
//! line, or tells how the list is over. A line that waits comes without a read: the device is read only
//! while none waits, at most 4,096 bytes at a time, so that it is read no further than the next line
//! needs. The fault of a read or of the pipe shows behind the lines before it. A device that gives 2^40
//! bytes is read no further, and the list fails as `endless`.
//!
//! What was given and how the list is over is a run of the device's bytes through the pipe (`ListRun`),
//! also where memory was wanting.
//!
//! Here a list's device is in a row of a tree, as in `list_rows`:
//!
//! ```
//! list.next(alloc, tree.pay_mut(row).device_mut())
//! ```
#![tactic(auto)]

pub mod lines;
pub mod listed;

pub use lines::ListLines;
pub use listed::Listed;
