//! Whether each device of a node is acquired in one place and used in one place.
ghost use Rattle.std.specs.Prelude.{◌≡◌, not, nat_eq};
ghost use Rattle.std.specs.List.{list_any as any, list_all as all};
ghost use Rattle.pull_nodes.specs.Shape.{places_of, uses_of};
ghost use Rattle.pull_nodes.specs.Placed.{is_placed, is_within, are_apart, is_once, is_loose};
ghost use Rattle.chunk_core.specs.Lists.{are_distinct};

use crate::node::{Node, by_parts};
use chunk_core::Span;

impl Node {
    /// Each place is within the span, acquired by one `Weak` alone and used by one `Read` or
    /// `Into` alone, which stands in the part of that `Weak`.
    pub fn placed(&self, span: Span) -> bool
        ensures { result ≡ is_placed span self.now }
    {
        self.is_within(span)
            && self.is_distinct()
            && self.each_is_used_once(self)
            && self.each_use_is_tied(self)
    }

    /// Each place is within the span.
    #[tactic(auto, using(crate::proofs::Joins::all_append))]
    fn is_within(&self, span: Span) -> bool
        ensures { result ≡ all (is_within span) (places_of self.now) }
    {
        match self {
            Node::Weak(place, a) => span.from <= *place && *place < span.to && a.is_within(span),
            node => by_parts!(
                node,
                true,
                |a| a.is_within(span),
                |a, b| a.is_within(span) && b.is_within(span)
            ),
        }
    }

    /// No place is acquired twice.
    #[tactic(auto, using(crate::proofs::Joins::distinct_append))]
    fn is_distinct(&self) -> bool
        ensures { result ≡ are_distinct (places_of self.now) }
    {
        match self {
            Node::Weak(place, a) => !a.acquires(*place) && a.is_distinct(),
            node => by_parts!(
                node,
                true,
                |a| a.is_distinct(),
                |a, b| { a.is_distinct() && b.is_distinct() && a.is_apart_from(b) }
            ),
        }
    }

    /// No place is acquired by the other node too.
    #[tactic(auto, using(crate::proofs::Joins::apart_append))]
    fn is_apart_from(&self, other: &Node) -> bool
        ensures { result ≡ are_apart (places_of self.now) (places_of other.now) }
    {
        match self {
            Node::Weak(place, a) => !other.acquires(*place) && a.is_apart_from(other),
            node => by_parts!(
                node,
                true,
                |a| a.is_apart_from(other),
                |a, b| { a.is_apart_from(other) && b.is_apart_from(other) }
            ),
        }
    }

    /// The place is acquired.
    #[tactic(auto, using(crate::proofs::Joins::any_append))]
    fn acquires(&self, place: u32) -> bool
        ensures { result ≡ any (nat_eq place) (places_of self.now) }
    {
        match self {
            Node::Weak(at, a) => place == *at || a.acquires(place),
            node => by_parts!(
                node,
                false,
                |a| a.acquires(place),
                |a, b| a.acquires(place) || b.acquires(place)
            ),
        }
    }

    /// Each place is used once in the whole.
    #[tactic(auto, using(crate::proofs::Joins::all_append))]
    fn each_is_used_once(&self, whole: &Node) -> bool
        ensures { result ≡ all (is_once (uses_of whole.now)) (places_of self.now) }
    {
        match self {
            Node::Weak(place, a) => whole.uses_once(*place) && a.each_is_used_once(whole),
            node => by_parts!(
                node,
                true,
                |a| a.each_is_used_once(whole),
                |a, b| { a.each_is_used_once(whole) && b.each_is_used_once(whole) }
            ),
        }
    }

    /// The place is used once.
    #[tactic(auto, using(crate::proofs::Joins::once_append))]
    fn uses_once(&self, place: u32) -> bool
        ensures { result ≡ is_once (uses_of self.now) place }
    {
        match self {
            Node::Read(at) => place == *at,
            Node::Into(at, a) if place == *at => !a.uses(place),
            node => by_parts!(
                node,
                false,
                |a| a.uses_once(place),
                |a, b| {
                    (a.uses_once(place) && !b.uses(place)) || (!a.uses(place) && b.uses_once(place))
                }
            ),
        }
    }

    /// The place is used.
    #[tactic(auto, using(crate::proofs::Joins::any_append))]
    fn uses(&self, place: u32) -> bool
        ensures { result ≡ any (nat_eq place) (uses_of self.now) }
    {
        match self {
            Node::Read(at) => place == *at,
            Node::Into(at, a) => place == *at || a.uses(place),
            node => by_parts!(
                node,
                false,
                |a| a.uses(place),
                |a, b| a.uses(place) || b.uses(place)
            ),
        }
    }

    /// No place that is used here is used loosely in the whole.
    #[tactic(auto, using(crate::proofs::Joins::all_append))]
    fn each_use_is_tied(&self, whole: &Node) -> bool
        ensures { result ≡ all (λ p. not (is_loose p whole.now)) (uses_of self.now) }
    {
        match self {
            Node::Read(place) => !whole.is_loose(*place),
            Node::Into(place, a) => !whole.is_loose(*place) && a.each_use_is_tied(whole),
            node => by_parts!(
                node,
                true,
                |a| a.each_use_is_tied(whole),
                |a, b| { a.each_use_is_tied(whole) && b.each_use_is_tied(whole) }
            ),
        }
    }

    /// The place is used outside of each `Weak` of it.
    fn is_loose(&self, place: u32) -> bool
        ensures { result ≡ is_loose place self.now }
    {
        match self {
            Node::Read(at) => place == *at,
            Node::Weak(at, a) => place != *at && a.is_loose(place),
            Node::Into(at, a) => place == *at || a.is_loose(place),
            node => by_parts!(
                node,
                false,
                |a| a.is_loose(place),
                |a, b| a.is_loose(place) || b.is_loose(place)
            ),
        }
    }
}
