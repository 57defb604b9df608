//! The states of nodes with two sides.
//!
//! `ZipState` pairs lines of two sides, load by load: `need` tells which side is wanted, and `give`
//! takes a load of it and gives the pairs that are now whole, as rows of two fields. What waits is
//! of one side. `MergeState` tells whose turn it is: `next` is never a side that has `ended`, and
//! after a side `gave` the other one is next, where it hasn't ended.
//!
//! The one error is `AllocError`, for want of memory: the state is then as it was, and the load that
//! was handed in is dropped.
//!
//! ```
//! let mut state = ZipState::new(alloc);
//! assert_eq!(rt; state.need(), Side::Left);
//! let pairs = fed(alloc, &mut state, b"abc")?;
//! assert!(rt; pairs.is_empty());
//! assert_eq!(rt; state.need(), Side::Right);
//! let pairs = fed(alloc, &mut state, b"x")?;
//! assert_eq!(rt; pairs.as_slice(), b"a,x\n".as_slice());
//! ```
#![tactic(auto)]

pub mod merge_state;
pub mod side;
pub mod zip_state;

pub use merge_state::MergeState;
pub use side::Side;
pub use zip_state::ZipState;
