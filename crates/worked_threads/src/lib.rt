//! Tests, by public calls alone, of what threads share: boards of interruption, channels, topics, hands that
//! work is dealt to, and tables of rows with a seat for each thread; and a caller of workers. They stand above
//! the crates that they test, so that none of these is proved twice for its tests.
#![tactic(auto)]

#[cfg(test)]
mod asserts;
#[cfg(test)]
mod boards;
#[cfg(test)]
mod channels;
#[cfg(test)]
mod hands;
#[cfg(test)]
mod seats;
#[cfg(test)]
mod topics;
pub mod uses;
