//! What the branches of a tee say, printed.
//!
//! A `Printer` has the end of the channel that the branches send through. `take` receives the next message: a
//! text is printed as a frame under the number of its branch, and an end is kept. Once a write failed nothing
//! more is printed, and a branch whose end comes then counts as halted, unless it found no memory. `is_over`
//! says whether the end of each branch came, and `must_stop` whether the branches are to stop: a write failed, or
//! one of them found a fault or no memory. `end` takes the printer apart. `Printer::new` alone takes memory, and
//! answers `AllocError`.
//!
//! Nothing here runs.
#![tactic(auto)]

pub mod printer;

pub use printer::{Printer, PrinterEnd};
