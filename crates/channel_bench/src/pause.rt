//! How an end waits between two tries.
use crossbeam_utils::Backoff;
use std::sync::Wait;
use std::thread::Parker;
use std::time::Duration;

/// Steps a `Backoff`. Once that has done its part, the thread yields each time, or naps.
#[derive(Drop)]
pub struct Pause {
    backoff: Backoff,
    bed: Parker,
    naps: bool,
}

impl Pause {
    pub fn new(naps: bool) -> Pause {
        Pause {
            backoff: Backoff::new(),
            bed: Parker::new(),
            naps,
        }
    }

    pub fn step<R: Wait>(&self, rt: &R) {
        if self.naps && self.backoff.is_completed() {
            self.bed.park_timeout(rt, Duration::from_micros(500));
        } else {
            self.backoff.snooze();
        }
    }

    pub fn reset(&self) {
        self.backoff.reset();
    }
}
