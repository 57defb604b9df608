//! What a pipe gave, in two numbers.
use chunk_core::{Line, Load, Row};

/// How many elements came, and a checksum of them: of each byte, or, where time is measured, of
/// lengths and last bytes alone.
#[derive(Clone, Copy)]
pub struct Tally {
    count: u64,
    sum: u64,
    quick: bool,
}

impl Tally {
    /// Nothing came.
    pub fn new(quick: bool) -> Tally {
        Tally {
            count: 0,
            sum: 0xCBF2_9CE4_8422_2325,
            quick,
        }
    }

    pub fn count(&self) -> u64 {
        self.count
    }

    pub fn sum(&self) -> u64 {
        self.sum
    }

    pub fn put(&mut self, load: &Load) {
        self.count = self.count.wrapping_add(load.len() as u64);
        match load {
            Load::Bytes(bytes) => self.put_bytes(bytes.as_slice()),
            Load::Lines(lines) => self.put_lines(lines.as_slice(), b'\n'),
            Load::Rows(rows) => self.put_rows(rows.as_slice()),
        }
    }

    fn put_rows(&mut self, rows: &[Row]) {
        for row in rows {
            self.put_lines(row.as_slice(), b',');
            self.put_number(b'\n' as u64);
        }
    }

    fn put_lines(&mut self, lines: &[Line], end: u8) {
        for line in lines {
            self.put_bytes(line.as_slice());
            if !self.quick {
                self.put_number(end as u64);
            }
        }
    }

    fn put_bytes(&mut self, bytes: &[u8]) {
        if self.quick {
            self.put_quickly(bytes);
            return;
        }
        for byte in bytes {
            self.put_number(*byte as u64);
        }
    }

    fn put_quickly(&mut self, bytes: &[u8]) {
        let last = bytes.last().copied().unwrap_or(0);
        self.put_number(bytes.len() as u64 ^ (last as u64) << 32);
    }

    fn put_number(&mut self, number: u64) {
        self.sum = (self.sum ^ number).wrapping_mul(0x0000_0100_0000_01B3);
    }
}
