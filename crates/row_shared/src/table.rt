//! The table that all seats share. Word 0 is the next stamp, and word r + 1 that of row r: 0 while it
//! is empty, 1 + 4n while it is open with n leases, 3 + 4n once it is closed. Slot r is for the payload
//! of row r, from its close until it is taken.
ghost use Rattle.std.specs.Prelude.{ℕ};

use atomic_table::{Join, Play, Seat, Shared, Split, Table, TableRule};
use res_ledger::{StreamNo, What};
use row_seat::Sight;
use row_seat::token::Token;
use std::alloc::Global;
use std::collections::LinkedList;
use std::marker::{Brand, PhantomData};

/// What a seat at the table knows. No value of it is made.
pub struct Place<P> {
    pub token: Token<P>,
    /// The rows whose slot the seat holds.
    pub lifted: LinkedList<u32>,
    /// What was seen of the ledger, by a mark or by a seat that is to have one.
    pub sights: LinkedList<Sight>,
}

/// What the table is told when it is made.
#[derive(Drop)]
pub struct Start {
    pub by: StreamNo,
    pub rows: u32,
    pub seats: u32,
    pub events: u64,
}

/// The rule of rows and stamps.
pub struct RowRule;

impl<P> TableRule<Option<P>, Place<P>, Start> for RowRule {
    ghost use Rattle.row_shared.specs.Places.{IsRows, first_place};

    ghost holds = { λ k s. IsRows k s };

    ghost first = { first_place };
}

pub type RowTable<P> = Table<Option<P>, Place<P>, Start, RowRule, Global>;

pub type RowShared<P> = Shared<Option<P>, Place<P>, Start, RowRule>;

pub type RowPass<P> = Seat<Option<P>, Place<P>>;

/// What a step is about, beside its word. Each call picks it.
pub trait About {
    ghost use Rattle.std.specs.Prelude.{ℕ};
    ghost use Rattle.res_ledger.specs.declared.event.What.{What};
    ghost use Rattle.res_ledger.specs.declared.event.StreamNo.{StreamNo};

    ghost what: { What };

    ghost room: { ℕ };

    ghost stream: { ℕ };

    ghost from: { ℕ };

    ghost to: { ℕ };

    ghost count: { ℕ };

    ghost name: { StreamNo };
}

impl About for Brand {
    ghost use Rattle.res_ledger.specs.declared.event.What.TheVariants.{Open};
    ghost use Rattle.res_ledger.specs.declared.event.StreamNo.TheVariants.{Outer};

    ghost what = { Open 0 0 };

    ghost room = { 0 };

    ghost stream = { 0 };

    ghost from = { 0 };

    ghost to = { 0 };

    ghost count = { 0 };

    ghost name = { Outer };
}

/// An event is noted: the stamp word grows by one.
pub struct Ticks<W> {
    of: PhantomData<W>,
}

impl<P, W: About> Play<Option<P>, Place<P>> for Ticks<W> {
    ghost use Rattle.row_shared.specs.Told.{Ticked};

    ghost then = { λ step me n after. Ticked step.slots W.what W.room me.0.token n after };
}

/// A row is placed.
pub struct Places;

impl<P> Play<Option<P>, Place<P>> for Places {
    ghost use Rattle.std.specs.Prelude.{◌-◌};
    ghost use Rattle.row_shared.specs.Told.{Placed};

    ghost then = { λ step me _ after. Placed step.slots (step.word - 1) me.0.token after };
}

/// A lease of a row is added.
pub struct Leases<W> {
    of: PhantomData<W>,
}

impl<P, W: About> Play<Option<P>, Place<P>> for Leases<W> {
    ghost use Rattle.std.specs.Prelude.{◌-◌};
    ghost use Rattle.row_shared.specs.Told.{Leased};

    ghost then = { λ step me _ after. Leased step.slots W.stream (step.word - 1) me.0.token after };
}

/// A lease of a row is given up.
pub struct Quits<W> {
    of: PhantomData<W>,
}

impl<P, W: About> Play<Option<P>, Place<P>> for Quits<W> {
    ghost use Rattle.std.specs.Prelude.{◌-◌};
    ghost use Rattle.row_shared.specs.Told.{Quit};

    ghost then = { λ step me n after. Quit step.slots W.stream (step.word - 1) me.0.token n after };
}

/// The slot of an open row is taken.
pub struct Lifts;

impl<P> Play<Option<P>, Place<P>> for Lifts {
    ghost use Rattle.std.specs.Prelude.{◌-◌};
    ghost use Rattle.row_shared.specs.Told.{Lifted};

    ghost then = { λ step me _ after. Lifted (step.word - 1) me.0.token after };
}

/// A row is closed, and its slot given back.
pub struct Shuts;

impl<P> Play<Option<P>, Place<P>> for Shuts {
    ghost use Rattle.std.specs.Prelude.{◌-◌};
    ghost use Rattle.row_shared.specs.Told.{Shut};

    ghost then = { λ step me n after. Shut step.slots (step.word - 1) me n after };
}

/// The slot of a handed row is taken, and the row counts as taken.
pub struct Fetches;

impl<P> Play<Option<P>, Place<P>> for Fetches {
    ghost use Rattle.std.specs.Prelude.{◌-◌};
    ghost use Rattle.row_shared.specs.Told.{Fetched};

    ghost then = { λ step me _ after. Fetched (step.word - 1) me.0.token after };
}

/// The slot is given back.
pub struct Returns;

impl<P> Play<Option<P>, Place<P>> for Returns {
    ghost use Rattle.std.specs.Prelude.{◌≡◌};
    ghost use Rattle.row_shared.specs.Places.{idle};

    ghost then = { λ _ me _ after. after ≡ idle me.0.token };
}

/// A look at the table after a seat was taken in.
pub struct Meets<W> {
    of: PhantomData<W>,
}

impl<P, W: About> Play<Option<P>, Place<P>> for Meets<W> {
    ghost use Rattle.row_shared.specs.Told.{Met};

    ghost then = { λ step me _ after. Met step.slots W.room me.0.token after };
}

/// A look at the table when all seats are in.
pub struct Ends;

impl<P> Play<Option<P>, Place<P>> for Ends {
    ghost use Rattle.row_shared.specs.Told.{Ended};

    ghost then = { λ _ me _ after. Ended me.0.token after };
}

/// A look at the front of the ledger.
pub struct Sees;

impl<P> Play<Option<P>, Place<P>> for Sees {
    ghost use Rattle.row_shared.specs.Told.{Saw};

    ghost then = { λ step me n after. Saw step.slots me.0.token n after };
}

/// A look at the table after a mark was taken in.
pub struct Recalls;

impl<P> Play<Option<P>, Place<P>> for Recalls {
    ghost use Rattle.row_shared.specs.Told.{Recalled};

    ghost then = { λ _ me _ after. Recalled me.0.token me.0.sights after };
}

/// What a seat saw is kept by a mark.
pub struct Marks;

impl<P> Split<Place<P>> for Marks {
    ghost use Rattle.row_shared.specs.Places.{at_rest, nobody, seeing};

    ghost left = { λ v. at_rest v.token };

    ghost right = { λ v. seeing nobody v.sights };
}

/// A mark is taken in.
pub struct Unmarks;

impl<P> Join<Place<P>> for Unmarks {
    ghost use Rattle.std.specs.Prelude.{[]};
    ghost use Rattle.row_shared.specs.Places.{nobody, seeing};

    ghost both = { λ v w. seeing v.token w.sights };

    ghost spent = { seeing nobody [] };
}

/// A seat is split off.
pub struct Cuts<W> {
    of: PhantomData<W>,
}

impl<P, W: About> Split<Place<P>> for Cuts<W> {
    ghost use Rattle.row_shared.specs.Places.{at_rest};
    ghost use Rattle.row_seat.specs.Steps.{split_main, split_off};

    ghost left = { λ v. at_rest (split_main v.token W.stream W.from W.to W.count) };

    ghost right = { λ v. at_rest (split_off v.token W.stream W.from W.to W.count) };
}

/// A seat is taken in.
pub struct Merges<W> {
    of: PhantomData<W>,
}

impl<P, W: About> Join<Place<P>> for Merges<W> {
    ghost use Rattle.row_seat.specs.Steps.{joined};
    ghost use Rattle.row_shared.specs.Places.{at_rest, gone_by};

    ghost both = { λ v w. at_rest (joined v.token w.token) };

    ghost spent = { gone_by W.name };
}
