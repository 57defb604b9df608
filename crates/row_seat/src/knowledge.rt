//! What each call does to what is known of seats: values without bytes, which only contracts read.
ghost use Rattle.std.specs.Prelude.{◌≡◌, ◌++◌, ◌∷◌, [], slice_set};

use crate::token::Token;
use chunk_core::Span;
use known::{Known, Says, Steps, know};
use res_ledger::{Event, StreamNo};
use std::collections::LinkedList;

/// One view of all becomes another.
pub struct Puts;

impl<'a, 'b, 'c, P> Says<
    (
        &'a Known<LinkedList<Token<P>>>,
        &'b Known<u64>,
        &'c Known<Token<P>>,
    ),
    LinkedList<Token<P>>,
> for Puts {
    ghost use Rattle.std.specs.Prelude.{slice_set};

    ghost says = { λ x. slice_set x.0.now x.1.now x.2.now };
}

/// The views, where the one with the number `id` is `token`.
pub fn put<P>(
    views: &Known<LinkedList<Token<P>>>,
    id: &Known<u64>,
    token: &Known<Token<P>>,
) -> Known<LinkedList<Token<P>>>
    ensures { result ≡ slice_set views.now id.now token.now }
{
    know::<
        (&Known<LinkedList<Token<P>>>, &Known<u64>, &Known<Token<P>>),
        LinkedList<Token<P>>,
        Puts,
    >(&(views, id, token))
}

/// One more view.
pub struct Adds;

impl<'a, 'b, P> Says<(&'a Known<LinkedList<Token<P>>>, &'b Known<Token<P>>), LinkedList<Token<P>>>
    for Adds {
    ghost use Rattle.std.specs.Prelude.{◌++◌, ◌∷◌, []};

    ghost says = { λ x. x.0.now ++ x.1.now ∷ [] };
}

/// The views, and one more.
pub fn add<P>(
    views: &Known<LinkedList<Token<P>>>,
    token: &Known<Token<P>>,
) -> Known<LinkedList<Token<P>>>
    ensures { result ≡ views.now ++ token.now ∷ [] }
{
    know::<(&Known<LinkedList<Token<P>>>, &Known<Token<P>>), LinkedList<Token<P>>, Adds>(&(
        views, token,
    ))
}

/// How many views there are.
pub struct Counts;

impl<P> Says<Known<LinkedList<Token<P>>>, u64> for Counts {
    ghost use Rattle.std.specs.Prelude.{length};

    ghost says = { λ x. length x };
}

/// An event is noted.
pub struct Noting;

impl<P> Steps<Event, Token<P>> for Noting {
    ghost use Rattle.row_seat.specs.Steps.{noted};

    ghost next = { noted };
}

/// A row is placed.
pub struct Placing;

impl<P> Steps<u32, Token<P>> for Placing {
    ghost use Rattle.row_seat.specs.Steps.{placed};

    ghost next = { placed };
}

/// A row is taken.
pub struct Taking;

impl<P> Steps<u32, Token<P>> for Taking {
    ghost use Rattle.row_seat.specs.Steps.{took};

    ghost next = { took };
}

/// A row is leased for a stream.
pub struct Leasing;

impl<P> Steps<(u32, u32), Token<P>> for Leasing {
    ghost use Rattle.row_seat.specs.Steps.{leased};

    ghost next = { λ t x. leased t x.0 x.1 };
}

/// A lease is given up.
pub struct Leaving;

impl<P> Steps<(u32, u32), Token<P>> for Leaving {
    ghost use Rattle.row_seat.specs.Steps.{gone};

    ghost next = { λ t x. gone t x.0 x.1 };
}

/// A row is handed over with the payload in its slot.
pub struct Handing;

impl<'a, P> Steps<(u32, &'a Option<P>), Token<P>> for Handing {
    ghost use Rattle.row_seat.specs.Steps.{handed_from};

    ghost next = { λ t x. handed_from t x.0 x.1.now };
}

/// A row is closed and its payload left.
pub struct Shutting;

impl<P> Steps<(u32, P), Token<P>> for Shutting {
    ghost use Rattle.row_seat.specs.Steps.{shut};

    ghost next = { λ t x. shut t x.0 x.1 };
}

/// A row is handed over with a payload.
pub struct HandingOver;

impl<P> Steps<(u32, P), Token<P>> for HandingOver {
    ghost use Rattle.row_seat.specs.Steps.{handed_over};

    ghost next = { λ t x. handed_over t x.0 x.1 };
}

/// What the main seat keeps where a seat is split off.
pub struct Halving;

impl<P> Steps<(u32, Span, u64), Token<P>> for Halving {
    ghost use Rattle.row_seat.specs.Steps.{split_main};

    ghost next = { λ t x. split_main t x.0 x.1.from x.1.to x.2 };
}

/// What the seat that is split off gets.
pub struct Splitting;

impl<P> Steps<(u32, Span, u64), Token<P>> for Splitting {
    ghost use Rattle.row_seat.specs.Steps.{split_off};

    ghost next = { λ t x. split_off t x.0 x.1.from x.1.to x.2 };
}

/// A seat is taken in.
pub struct Joining;

impl<P> Steps<Known<Token<P>>, Token<P>> for Joining {
    ghost use Rattle.row_seat.specs.Steps.{joined};

    ghost next = { λ t x. joined t x };
}

/// What is left of a seat that was taken in.
pub struct TakingIn;

impl<P> Says<Known<Token<P>>, Token<P>> for TakingIn {
    ghost use Rattle.row_seat.specs.Steps.{taken_in};

    ghost says = { λ x. taken_in x };
}

/// What the first seat knows.
pub struct Starting;

impl<P> Says<(StreamNo, u32, u64), Token<P>> for Starting {
    ghost use Rattle.std.specs.Prelude.{◌-◌, ◌^◌};
    ghost use Rattle.row_seat.specs.Steps.{first_token};

    ghost says = { λ x. first_token x.0 x.1 x.2 (2 ^ 32 - 1) };
}

/// The views where there is one seat.
pub struct Alone;

impl<P> Says<Known<Token<P>>, LinkedList<Token<P>>> for Alone {
    ghost use Rattle.std.specs.Prelude.{[], ◌∷◌};

    ghost says = { λ t. t ∷ [] };
}

/// The number of the first view.
pub struct Zero;

impl<P> Says<Known<LinkedList<Token<P>>>, u64> for Zero {
    ghost says = { λ t. 0 };
}
