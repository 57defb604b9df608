//! Tests of the crates of values, ledgers, devices and seats, by their public calls alone. They stand
//! above these crates, so that none of them is proved twice for its tests.
#![tactic(auto)]

#[cfg(test)]
mod asserts;
#[cfg(test)]
mod chunk_tests;
#[cfg(test)]
mod copies;
#[cfg(test)]
mod device_tests;
#[cfg(test)]
mod ledger_reading;
#[cfg(test)]
mod ledger_texts;
#[cfg(test)]
mod seat_lives;
#[cfg(test)]
mod spare_tests;
