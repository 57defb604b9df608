//! A value that only contracts read: it has no bytes, and running code can neither read it nor
//! choose by it. So a type may tell its callers, in clauses, of a past that it keeps no record of.
//!
//! `know` makes a `Known` that has what a type says (`Says`) of what is looked at, and `step` one
//! that follows from an older one and what is given (`Steps`). Neither takes memory or fails.
//!
//! A depot of real files keeps what it made so:
//!
//! ```
//! /// One more device was made.
//! struct Made;
//!
//! impl<R, F> Steps<FileDevice<R, F>, Course> for Made {
//!     ghost use Rattle.std.specs.Prelude.{◌++◌, ◌∷◌, []};
//!     ghost use Rattle.device_port.specs.Real.{file_told};
//!
//!     ghost next = { λ depot dev. record depot { made = depot.made ++ (file_told dev).place ∷ [] } };
//! }
//! ```
//!
//! ```
//! let dev = FileDevice::new(self.rt, self.count, path, mode);
//! self.course = step::<FileDevice<R, R::File>, Course, Made>(&self.course, &dev);
//! self.count += 1;
//! Ok(dev)
//! ```
#![tactic(auto)]

ghost use Rattle.std.specs.Prelude.{◌≡◌, ⊤, [], ℕ};
ghost use base.Fml.{ftrue};

pub mod crossing;

use logbook::{Gain, Offer, Plain, Rule, Seen, Start};
use std::marker::{Model, PhantomData};

/// How a value follows from another.
pub trait Says<X, V> {
    ghost says: { X → V };
}

/// A book under no rule.
pub struct Blank;

impl<V> Rule<V, ()> for Blank {
    ghost holds = { λ cells log. ⊤ };

    ghost first = { [] };

    ghost hinted = { λ n log. ⊤ };

    ghost shows = { λ log. [] };

    ghost keeps = { λ names log. ftrue };

    ghost moves = { λ ask before after answer. ⊤ };
}

impl<V> Gain<V, ()> for Blank {
    ghost after = { λ names about answer. ftrue };
}

struct Asks<M> {
    of: PhantomData<M>,
}

impl<X, V, M: Says<X, V>> Plain<X, V, ()> for Asks<M> {
    ghost use Rattle.std.specs.Prelude.{None};

    ghost ask = { M.says };

    ghost state = { λ x. None };
}

/// It has no bytes. Contracts see its value.
#[derive(Drop)]
pub struct Known<V> {
    inner: Offer<V, (), Blank, Blank>,
}

impl<V> Model for Known<V> {
    ghost Value = { V };

    ghost view = { λ k. k.inner.ask };
}

pub fn know<X, V, M: Says<X, V>>(about: &X) -> Known<V>
    ensures { result ≡ M.says about.now }
{
    let (seen, _first, _second) = Seen::open(Start::alone(), 0, 0);
    Known {
        inner: seen.plain::<Blank, X, Asks<M>>(about),
    }
}

/// How a value follows from an older one and what is given.
pub trait Steps<X, V> {
    ghost next: { V → X → V };
}

struct Next<M> {
    of: PhantomData<M>,
}

impl<'a, 'b, X, V, M: Steps<X, V>> Says<(&'a Known<V>, &'b X), V> for Next<M> {
    ghost says = { λ p. M.next p.0.now p.1.now };
}

pub fn step<X, V, M: Steps<X, V>>(old: &Known<V>, by: &X) -> Known<V>
    ensures { result ≡ M.next old.now by.now }
{
    know::<(&Known<V>, &X), V, Next<M>>(&(old, by))
}
