//! Numbers that look random, the same at each run.
ghost use Rattle.std.specs.Prelude.{◌<◌, ◌≤◌, length};

use std::alloc::Global;

/// A row of numbers, which a seed and a number determine, and the memory for what is drawn.
#[derive(Clone, Copy)]
pub struct Dice {
    pub alloc: Global,
    state: u64,
}

impl Dice {
    pub fn of(alloc: Global, seed: u64, number: u64) -> Dice {
        let state = seed.wrapping_mul(0x9e37_79b9_7f4a_7c15);
        let mut dice = Dice { alloc, state };
        dice.state = dice.next() ^ number.wrapping_mul(0xd1b5_4a32_d192_ed03);
        dice
    }

    /// The next number of 64 bits.
    fn next(&mut self) -> u64 {
        self.state = self.state.wrapping_add(0x9e37_79b9_7f4a_7c15);
        let first = (self.state ^ (self.state >> 30)).wrapping_mul(0xbf58_476d_1ce4_e5b9);
        let second = (first ^ (first >> 27)).wrapping_mul(0x94d0_49bb_1331_11eb);
        second ^ (second >> 31)
    }

    /// The next number below a limit, or 0 where that is 0.
    pub fn below(&mut self, limit: usize) -> usize
        ensures { 0 < limit → result < limit }
    {
        let number = (self.next() >> 1) as usize;
        if limit == 0 { 0 } else { number % limit }
    }

    /// A number from the first of these up to the second.
    pub fn between(&mut self, least: usize, most: usize) -> usize {
        let span = most.saturating_sub(least).saturating_add(1);
        least.saturating_add(self.below(span))
    }

    /// A number up to this one, small ones more often.
    pub fn few(&mut self, most: usize) -> usize
        ensures { result ≤ most }
    {
        let limit = self.below(most.saturating_add(1));
        self.below(limit.saturating_add(1)).min(most)
    }

    /// True once in so many times.
    pub fn chance(&mut self, one_in: usize) -> bool {
        self.below(one_in) == 0
    }

    /// One of these.
    pub fn pick<T: Copy>(&mut self, items: &[T]) -> T
        requires { 0 < length items.now }
    {
        items[self.below(items.len())]
    }
}
