//! A sink that gathers totals.
use device_port::{Failed, Sink};

/// Takes all that it is given, and keeps only how much that was.
#[derive(Drop)]
pub struct TotalSink {
    bytes: u64,
    digits: u64,
}

impl TotalSink {
    ghost use Rattle.std.specs.Prelude.{◌≡◌, None};

    /// Nothing was given yet.
    pub fn new() -> TotalSink
        ensures { ⟦<TotalSink as Sink>⟧.told result ≡ record { written = None; faults = 0 } }
    {
        TotalSink {
            bytes: 0,
            digits: 0,
        }
    }

    /// How many bytes it was given, and how many of them were digits; neither goes above 2^64 - 1.
    pub fn totals(&self) -> (u64, u64) {
        (self.bytes, self.digits)
    }
}

impl Sink for TotalSink {
    ghost use Rattle.std.specs.Prelude.{None};

    ghost told = { λ _. record { written = None; faults = 0 } };

    fn write(&mut self, bytes: &[u8]) -> Result<usize, Failed> {
        for byte in bytes {
            if byte.is_ascii_digit() {
                self.digits = self.digits.saturating_add(1);
            }
        }
        self.bytes = self.bytes.saturating_add(bytes.len() as u64);
        Ok(bytes.len())
    }
}
