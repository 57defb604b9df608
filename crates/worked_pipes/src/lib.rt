//! Tests of the pipes by their public calls alone: what they give before the end, over
//! loads of none, and while loads are held. They stand above the crates of pipes, so that none of these
//! is proved twice for its tests.
#![tactic(auto)]

#[cfg(test)]
mod asserts;
#[cfg(test)]
mod cuttings;
#[cfg(test)]
mod dictionaries;
#[cfg(test)]
mod feeding;
#[cfg(test)]
mod lookups;
#[cfg(test)]
mod operators;
#[cfg(test)]
mod texts;
