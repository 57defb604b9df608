//! A source that gives little at a time.
ghost use Rattle.std.specs.Prelude.{◌≡◌, IfOk};

use device_port::{Failed, Source};
use std::alloc::{AllocError, Global};

/// A source that gives one byte a read, and fails once where it is at a place. It tells no content,
/// as standard input doesn't.
#[derive(Drop)]
pub struct OneByOne {
    bytes: Vec<u8>,
    at: usize,
    fails_at: Option<usize>,
    ended: bool,
    faults: u64,
}

impl OneByOne {
    pub fn new(alloc: Global, bytes: &[u8], fails_at: Option<usize>) -> Result<OneByOne, AllocError>
        ensures { IfOk result (λ s. s.faults ≡ 0) }
    {
        Ok(OneByOne {
            bytes: Vec::from_slice(alloc, bytes)?,
            at: 0,
            fails_at,
            ended: false,
            faults: 0,
        })
    }

    /// How many bytes it gave.
    pub fn given(&self) -> usize {
        self.at
    }
}

impl Source for OneByOne {
    ghost use Rattle.std.specs.Prelude.{None};

    ghost told = { λ s. record { left = None; ended = s.ended; faults = s.faults } };

    fn read(&mut self, buf: &mut [u8]) -> Result<usize, Failed> {
        if self.fails_at == Some(self.at) {
            self.fails_at = None;
            self.faults += 1;
            return Err(Failed);
        }
        match self.bytes.get(self.at) {
            Some(byte) => {
                buf[0] = *byte;
                self.at += 1;
                self.ended = false;
                Ok(1)
            }
            None => {
                self.ended = true;
                Ok(0)
            }
        }
    }
}
