//! The tables of a plan, which the outer stream reads before it gives a stream.
//!
//! `read_tables` has the depot make a device for each table, in order. It opens the device, acquires it
//! as the next row, from the first one that it is told, in an open scope of the main tree, reads it
//! whole, and puts a dictionary of what it holds behind those that are there, before the next device is
//! made. So a lease of that scope keeps the tables for a stream.
//!
//! A table that isn't read is the last that is tried. `NotRead::Fault` has the code: of a device that
//! can't be opened, which goes back to the depot at once; of a read that fails; or of what the table
//! holds. A table has at most 16,777,216 bytes, and no more than one byte beyond is read. At
//! `NotRead::Memory` each device is in its row too, or none was made. In no case is the root closed:
//! the caller closes it with the exit of the outer stream, which closes the devices. `open_device` makes
//! and opens a device alone, for what the outer stream reads otherwise.
//!
//! What was done stands in a `ReadsTables`, plain data that only contracts see: the devices in their
//! rows, the one that came back, and how each table came out (`ComeOut`).
//!
//! Here the outer stream gives no stream behind its tables:
//!
//! ```
//! let mut tree = begin(seat, room);
//! let mut dicts = Dicts::new(alloc);
//! let read = read_tables(alloc, &mut tree, desk, 0, 0, tables, &mut dicts, depot);
//! let exit = match read {
//!     Ok(()) => Exit::Succeeded,
//!     Err(NotRead::Fault(_)) => Exit::Errored,
//!     Err(NotRead::Memory) => Exit::Canceled,
//! };
//! close_outer(&mut tree, desk, exit);
//! let (ledger, rows) = settle(tree, desk);
//! Told { read, ledger, rows }
//! ```
#![tactic(auto)]

pub mod not_read;
pub mod opening;
pub(crate) mod table;
pub mod tables;
pub(crate) mod whole;

pub use not_read::NotRead;
pub use opening::open_device;
pub use tables::read_tables;
