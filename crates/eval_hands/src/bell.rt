//! How one that waits for another thread is woken.
use crossbeam_utils::Backoff;
use std::alloc::{AllocError, Global};
use std::sync::Wait;
use std::sync::atomic::AtomicU64;
use std::sync::atomic::Ordering::SeqCst;
use std::thread::Parker;
use std::time::Duration;

/// How long one waits for its bell before it looks again, in milliseconds.
const LONGEST: u64 = 50;

/// The bells of a run: that of the caller, and one for each hand. A bell rings behind what it tells of, so that who waits
/// for its bell misses nothing; it looks again in any case after fifty milliseconds.
#[derive(Drop)]
pub struct Bells {
    caller: Parker,
    hands: Vec<Parker>,
    /// How many loads were dealt, and how many results taken.
    dealt: AtomicU64,
    taken: AtomicU64,
}

impl Bells {
    /// The bells of a caller and of so many hands.
    pub fn new(alloc: Global, jobs: u32) -> Result<Bells, AllocError> {
        let mut hands = Vec::with_capacity(alloc, jobs as usize)?;
        for _ in 0..jobs {
            hands.push(Parker::new())?;
        }
        Ok(Bells {
            caller: Parker::new(),
            hands,
            dealt: AtomicU64::new(0),
            taken: AtomicU64::new(0),
        })
    }

    /// Which hand the load or the result with this number is of.
    fn hand_of(&self, number: u64) -> Option<usize> {
        (number as usize).checked_rem(self.hands.len())
    }

    /// This hand has done something: the caller's bell rings where the next result is to come of it.
    pub(crate) fn ring_caller(&self, hand: u32) {
        if self.hand_of(self.taken.load(SeqCst)) == Some(hand as usize) {
            self.caller.unpark();
        }
    }

    /// The next result was taken.
    pub(crate) fn count_taken(&self) {
        self.taken.fetch_add(1, SeqCst);
    }

    /// The next load was dealt: the bell of its hand rings.
    pub(crate) fn ring_next(&self) {
        let dealt = self.dealt.fetch_add(1, SeqCst);
        if let Some(bell) = self.hand_of(dealt).and_then(|it| self.hands.get(it)) {
            bell.unpark();
        }
    }

    /// The hands' ends were sent.
    pub(crate) fn ring_all(&self) {
        for bell in self.hands.as_slice() {
            bell.unpark();
        }
    }
}

/// Waits of one thread, the first of which are short.
#[derive(Drop)]
pub(crate) struct Watch {
    backoff: Backoff,
}

impl Watch {
    pub(crate) fn new() -> Watch {
        Watch {
            backoff: Backoff::new(),
        }
    }

    /// Begins with short waits again.
    pub(crate) fn reset(&mut self) {
        self.backoff.reset();
    }

    /// Waits a little, and behind some such waits until this bell rings.
    fn step<R: Wait>(&mut self, rt: &R, bell: &Parker) {
        if !self.backoff.is_completed() {
            self.backoff.snooze();
            return;
        }
        bell.park_timeout(rt, Duration::from_millis(LONGEST));
    }

    /// Waits for a hand.
    pub(crate) fn wait_for_hands<R: Wait>(&mut self, rt: &R, bells: &Bells) {
        self.step(rt, &bells.caller);
    }

    /// Waits for the caller, as this hand.
    pub(crate) fn wait_for_caller<R: Wait>(&mut self, rt: &R, bells: &Bells, hand: u32) {
        if let Some(bell) = bells.hands.get(hand as usize) {
            self.step(rt, bell);
        }
    }
}
