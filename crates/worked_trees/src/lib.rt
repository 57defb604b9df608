//! Tests, by public calls alone, of trees of scopes over plain and shared seats, of the main tree of a
//! run with the tables that its outer stream reads, and of what a collector reports. They stand above
//! the crates that they test, so that none of these is proved twice for its tests.
#![tactic(auto)]

#[cfg(test)]
mod asserts;
#[cfg(test)]
mod coins;
#[cfg(test)]
mod guests;
#[cfg(test)]
mod laws;
#[cfg(test)]
mod main_tree;
#[cfg(test)]
mod reports;
#[cfg(test)]
mod scripts;
#[cfg(test)]
mod shared;
#[cfg(test)]
mod tables;
