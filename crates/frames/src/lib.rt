//! The frames in which a stream's output is printed.
//!
//! `put_frame` prints bytes as one frame of a stream: the stream's number and how many bytes follow, on
//! a line of their own; the bytes; and a line end. It takes no memory, and answers `Failed` where a
//! write failed, with a proper front of the frame written. `put_load` prints a load as one frame.
//! Bytes are written as they are; fields and lines are rendered first, which takes memory. `NotPut`
//! tells why a load wasn't printed: `Unwritten`, where a write failed, or `Memory`, where there was
//! none for the text of another load than bytes, and nothing was written. Who prints many frames one after another
//! makes a `FrameRoom` once: `put_frame_in` and `put_load_in` put each short frame together in it, where the others
//! clear room of their own for each.
//!
//! ```
//! let payload = filled(rt.alloc(), &[("", 9000)])?;
//! let frame = filled(rt.alloc(), &[("7 9000\n", 9000), ("\n", 0)])?;
//! let mut out = sink_of(rt.alloc(), &[])?;
//! assert_eq!(rt; payload.len(), 9000);
//! assert_eq!(rt; put_frame(&mut out, 7, &payload), Ok(()));
//! assert_eq!(rt; out.written(), frame.as_slice());
//! let mut full = sink_of(rt.alloc(), &[2])?;
//! assert_eq!(rt; put_frame(&mut full, 7, &payload), Err(Failed));
//! assert_eq!(rt; full.written(), b"7 9000\n".as_slice());
//! ```
#![tactic(auto)]

pub mod frame;
pub mod room;

pub use frame::{NotPut, put_frame, put_load, put_load_in};
pub use room::{FrameRoom, put_frame_in};
