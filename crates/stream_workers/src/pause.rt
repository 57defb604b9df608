//! How a thread waits between two tries.
use crossbeam_utils::Backoff;
use std::sync::Wait;
use std::thread::Parker;
use std::time::Duration;

/// The first nap, and the longest, in microseconds.
const SHORTEST: u64 = 100;

const LONGEST: u64 = 2000;

/// Steps a `Backoff`. Once that has done its part each step is a nap, each twice as long as the one before
/// it, up to two milliseconds: who waits a little goes on soon, and who waits long takes hardly any of a
/// processor.
#[derive(Drop)]
pub struct Pause {
    backoff: Backoff,
    bed: Parker,
    nap: u64,
}

impl Pause {
    pub fn new() -> Pause {
        Pause {
            backoff: Backoff::new(),
            bed: Parker::new(),
            nap: SHORTEST,
        }
    }

    /// Waits a little, longer the more steps there were.
    pub fn step<R: Wait>(&mut self, rt: &R) {
        if !self.backoff.is_completed() {
            self.backoff.snooze();
            return;
        }
        self.bed.park_timeout(rt, Duration::from_micros(self.nap));
        self.nap = self.nap.saturating_mul(2).min(LONGEST);
    }

    /// Begins with short steps again.
    pub fn reset(&mut self) {
        self.backoff.reset();
        self.nap = SHORTEST;
    }
}
