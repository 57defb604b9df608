//! Descriptions of runs: a text is read to a plan, or refused for its first fault, and a plan tells
//! the node, the rows and the events of each of its streams.
//!
//! `read` gives the `Plan` that the bytes mean, which is within all limits whatever is done with it.
//! `Refused::Desc` has the first fault with its number (`RefusalKind::number`), and the stream and
//! the step where it stands in one; `Refused::Memory` stands for want of memory. Of stream k `rows`
//! and `events` tell what a run of it needs, and `node` makes the node, which is placed in these
//! rows; its one error is `AllocError`. The keys, the steps and the order of the refusals are told
//! in docs/FORMAT.md. `words::step`, `steps::check_steps` and `kinds::kind_given` are the reader's
//! own calls for steps, for who reads steps from elsewhere.
//!
//! ```
//! let alloc = rt.alloc();
//! let errors = "[[stream]]\npath = 'app.log'\nsteps = ['utf8', 'lines', 'filter ERROR']\n";
//! let plan = read(alloc, errors.as_bytes())?;
//! assert_eq!(rt; (plan.chunk(), plan.take()), (4096, None));
//! assert_eq!(rt; plan.streams().len(), 1);
//! assert_eq!(rt; plan.stream(0).path.as_str(), "app.log");
//! let part = node(alloc, &plan, 0)?;
//! assert_eq!(rt; part.kind(), Ok(Kind::Lines));
//! assert!(rt; part.placed(rows(&plan, 0)));
//! assert!(rt; part.events() <= events(&plan, 0));
//!
//! let clash = read(
//!     alloc,
//!     b"[[stream]]\npath = 'a'\nsteps = ['lines', 'utf8']\n",
//! );
//! let (stream, step) = (Some(0), Some(1));
//! let kind = RefusalKind::KindClash;
//! let refusal = Refusal { kind, stream, step };
//! assert_eq!(rt; clash.err(), Some(Refused::Desc(refusal)));
//! ```
#![tactic(auto)]

pub(crate) mod described;
pub mod group;
pub mod join;
pub mod kinds;
pub mod laws;
pub mod listing;
pub(crate) mod lists;
pub mod nodes;
pub(crate) mod outputs;
pub mod plan;
pub mod reader;
pub mod refusal;
pub mod setting;
pub mod step;
pub mod steps;
pub mod stream;
pub(crate) mod streams;
pub mod table;
pub(crate) mod tables;
pub(crate) mod values;
pub mod words;

pub use group::GroupSpec;
pub use join::Join;
pub use listing::ListSpec;
pub use nodes::{events, node, outer_rows, rows};
pub use plan::Plan;
pub use reader::read;
pub use refusal::{Refusal, RefusalKind, Refused};
pub use step::Step;
pub use stream::{Second, StreamSpec};
pub use table::TableSpec;
