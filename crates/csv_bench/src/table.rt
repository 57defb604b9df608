//! The table.
use csv_pipes::{Dict, table_of};
use std::alloc::{AllocError, Global};

/// How many keys.
const KEYS: u16 = 1000;

fn digit_of(number: u16) -> u8 {
    b'0' + (number % 10) as u8
}

/// The text of the table.
fn text(alloc: Global) -> Result<Vec<u8>, AllocError> {
    let mut text = Vec::new(alloc);
    for key in 0..KEYS {
        let last = digit_of(key);
        for byte in [
            digit_of(key / 100),
            digit_of(key / 10),
            last,
            b',',
            last,
            b'\n',
        ] {
            text.push(byte)?;
        }
    }
    Ok(text)
}

pub fn dict(alloc: Global) -> Result<Dict, AllocError> {
    table_of(alloc, text(alloc)?.as_slice()).map_err(|_| AllocError)
}
