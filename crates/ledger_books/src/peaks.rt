//! The greatest of the numbers in a range of places, while they change.
ghost use Rattle.std.specs.Prelude.{◌≡◌, ◌≤◌, ◌<◌, ◌+◌, ◌^◌, ◌⊎◌, ℕ, suc, IfOk, length, nat_eq, if◌then◌else◌, slice_index_or, slice_set};
ghost use Rattle.ledger_books.specs.Peaks.{IsHeap, RisesBut, peak_at};

use std::alloc::{AllocError, Global};

/// A number at each of some places, 0 at first, with the greatest of any range of them a few steps
/// away. Knot 1 is the top, knots 2 * n and 2 * n + 1 stand below knot n, and none is greater than the
/// one above it. The numbers are the last half of the knots.
#[derive(Drop)]
pub struct Peaks {
    knots: Vec<u64>,
    half: usize,
}

/// Half of a number, without what is left.
fn half_of(n: usize) -> usize
    ensures { (result + result ≡ n) ⊎ (suc (result + result) ≡ n) }
{
    n / 2
}

/// The greater of the knot and a number.
fn raised(knots: &[u64], at: usize, number: u64) -> u64
    ensures number { number ≤ result }
    ensures knot { slice_index_or knots.now at 0 ≤ result }
{
    let Some(knot) = knots.get(at).copied() else {
        return number;
    };
    if knot <= number {
        return number;
    }
    knot
}

/// Sets a knot, if there is one.
fn put(knots: &mut Vec<u64>, at: usize, number: u64)
    ensures { knots.new.items ≡ slice_set knots.old.items at number }
{
    if at < knots.len() {
        knots[at] = number;
    }
}

/// Sets a knot to the greater of the two below it.
fn mend(knots: &mut Vec<u64>, at: usize)
    requires { suc (at + at) < 2 ^ 64 }
    ensures long { length knots.new.items ≡ length knots.old.items }
    ensures rises { (h c : ℕ) → length knots.old.items ≡ h + h → 0 < at → at < h → (at + at ≡ c) ⊎ (suc (at + at) ≡ c) → RisesBut knots.old.items h c → RisesBut knots.new.items h at }
    ensures numbers { (i : ℕ) → at < i → slice_index_or knots.new.items i 0 ≡ slice_index_or knots.old.items i 0 }
{
    let left = raised(knots.as_slice(), at + at, 0);
    let number = raised(knots.as_slice(), at + at + 1, left);
    put(knots, at, number);
}

/// Mends what stands above a knot that was set.
fn mend_above(knots: &mut Vec<u64>, below: usize)
    ensures long { length knots.new.items ≡ length knots.old.items }
    ensures rises { (h : ℕ) → length knots.old.items ≡ h + h → below < h + h → RisesBut knots.old.items h below → RisesBut knots.new.items h 0 }
    ensures numbers { (h i : ℕ) → below < h + h → h ≤ i → slice_index_or knots.new.items i 0 ≡ slice_index_or knots.old.items i 0 }
{
    let mut at = below;
    while at > 1 {
        at = half_of(at);
        mend(knots, at);
    }
}

/// The greatest of the knots between two of them.
fn most_between(knots: &[u64], from: usize, to: usize) -> u64
    ensures { (h q : ℕ) → RisesBut knots.now h 0 → 0 < from → to ≤ h + h → from ≤ q → q < to → slice_index_or knots.now q 0 ≤ result }
{
    let mut low = from;
    let mut high = to;
    let mut most = 0;
    while low < high {
        most = raised(knots, low, most);
        most = raised(knots, high - 1, most);
        low = half_of(low + 1);
        high = half_of(high);
    }
    most
}

impl Peaks {
    /// Of so many places.
    pub fn new(alloc: Global, count: usize) -> Result<Peaks, AllocError>
        ensures { IfOk result IsHeap }
    {
        let Some(half) = count.checked_add(1) else {
            return Err(AllocError);
        };
        let Some(all) = half.checked_add(half) else {
            return Err(AllocError);
        };
        let mut knots = Vec::new(alloc);
        let Ok(()) = knots.resize(all, 0) else {
            return Err(AllocError);
        };
        Ok(Peaks { knots, half })
    }

    /// How many places there are.
    pub fn len(&self) -> usize
        ensures { result ≡ self.now.half }
    {
        self.half
    }

    /// The number at the place.
    pub fn at(&self, place: usize) -> u64
        ensures { IsHeap self.now → place < self.now.half → result ≡ peak_at self.now place }
    {
        let place = self.half.saturating_add(place);
        self.knots.get(place).copied().unwrap_or(0)
    }

    /// Sets the number at the place.
    pub fn set(&mut self, place: usize, number: u64)
        ensures half { self.new.half ≡ self.old.half }
        ensures heap { place < self.old.half → IsHeap self.old → IsHeap self.new }
        ensures at { (i : ℕ) → place < self.old.half → IsHeap self.old → i < self.old.half → peak_at self.new i ≡ (if nat_eq i place then number else peak_at self.old i) }
    {
        let at = self.half.saturating_add(place);
        put(&mut self.knots, at, number);
        mend_above(&mut self.knots, at);
    }

    /// No number in the range is greater than this one: it is the greatest of them.
    pub fn most(&self, from: usize, to: usize) -> u64
        ensures { (i : ℕ) → IsHeap self.now → from ≤ i → i < to → i < self.now.half → peak_at self.now i ≤ result }
    {
        let low = self.half.saturating_add(from);
        let high = self.half.saturating_add(to.min(self.half));
        most_between(self.knots.as_slice(), low, high)
    }
}
