//! A resource that takes the place of the one before, as the next file of a rotated output does.
//!
//! `Hotswap` is a tree of scopes whose root has one open child at most. `swap` opens a child of the
//! root, acquires a row there, and then closes the child of the row before, so that the old resource
//! ends only when the new one stands, and never more than two are open (`swaps_hold_two`). `pay_mut`
//! lends the payload of an open row, `current` tells the row that is held, and `end` closes the root,
//! and with it what is held. None of them takes memory or fails: the tree has its room and its seat
//! the events before the first swap, four for each. Nothing here runs by itself: whoever swaps makes
//! the resource, opens it, and gives what was let go back.
#![tactic(auto)]

pub mod laws;
pub mod swap;

pub use swap::{Held, Hotswap};
