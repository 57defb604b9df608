//! Rows and seats: the right of one stream to act on rows, the contract of such a seat, and seats on
//! one thread.
//!
//! A row holds one resource. `RowSeat` has the calls: a row is placed, leased for other streams,
//! closed, and handed with its payload to the one who lets go of it last (`Left::Yours`), who takes
//! it and finalizes it; each event is noted with the call that it goes with. `split` makes the seat
//! of a further stream, `join` takes it in again, and `finish` gives the ledger of all seats.
//! `PlainSeat::new` makes a main seat on one thread, with its `PlainTable`.
//!
//! A seat does only what its stream has the right to: that is what the calls ask (`requires`), in
//! words of the seat's `View`, of which no value is made. So the only error is `AllocError`, of
//! `PlainSeat::new` and of `split`; no other call takes memory.
//!
//! The whole life of a row:
//!
//! ```
//! let (mut seat, mut desk) = PlainSeat::<u32>::new(alloc, StreamNo::Outer, 1, 3)?;
//! seat.note(&mut desk, What::Acquire { row: 0, scope: 0 });
//! seat.place(&mut desk, 0, 7);
//! *seat.pay_mut(0) = 8;
//! seat.note(
//!     &mut desk,
//!     What::Close {
//!         scope: 0,
//!         exit: Exit::Succeeded,
//!     },
//! );
//! seat.close(&mut desk, 0);
//! let pay = seat.take(&mut desk, 0);
//! seat.note(
//!     &mut desk,
//!     What::Final {
//!         row: 0,
//!         exit: Exit::Succeeded,
//!         ok: true,
//!     },
//! );
//! let ledger = seat.finish(&mut desk);
//! Ok((pay, ledger))
//! ```
#![tactic(auto)]

pub mod front;
pub mod hand;
pub mod knowledge;
pub mod laws;
pub mod plain;
pub mod seat;
pub mod token;
pub mod view;
pub mod words;

pub use front::{MarksFront, Sight};
pub use plain::{PlainSeat, PlainTable};
pub use seat::RowSeat;
pub use view::{Left, View};
