//! Seats on one thread, as plain data.
ghost use Rattle.std.specs.Prelude.{◌≡◌, ℕ, ◌<◌, ◌-◌, ◌^◌, IfOk, slice_index_or, length};

use crate::hand::{find, take_out};
use crate::knowledge::{
    Alone, Counts, Halving, Handing, HandingOver, Joining, Leasing, Leaving, Noting, Placing,
    Shutting, Splitting, Starting, Taking, TakingIn, Zero, add, put,
};
use crate::seat::RowSeat;
use crate::token::Token;
use crate::view::Left;
use crate::words::{CLOSE, LEASE, OPEN};
use chunk_core::Span;
use known::{Known, know, step};
use res_ledger::{Event, Ledger, StreamNo, What};
use std::alloc::{AllocError, Global};
use std::collections::LinkedList;

// The word of a row that is closed, and on which no lease stands.
const HANDED: u64 = 3;

/// A seat of one thread.
#[derive(Drop)]
pub struct PlainSeat<P> {
    by: StreamNo,
    id: Known<u64>,
    hands: Vec<(u32, P)>,
    token: Known<Token<P>>,
}

/// The rows of the seats of one thread, and the events that they noted.
#[derive(Drop)]
pub struct PlainTable<P> {
    alloc: Global,
    words: Vec<u64>,
    slots: Vec<Option<P>>,
    events: Vec<Event>,
    views: Known<LinkedList<Token<P>>>,
}

impl<P: Drop> RowSeat for PlainSeat<P> {
    ghost use Rattle.row_seat.specs.PlainSeats.{shown, Sits, lent, shown_lent, fitting_lent};

    type Pay = P;

    type Desk = PlainTable<P>;

    ghost view = { shown };

    ghost fits = { Sits };

    ghost with_pay = { lent };

    ghost pay_view = { shown_lent };

    ghost pay_fits = { fitting_lent };

    fn place(&mut self, desk: &mut PlainTable<P>, row: u32, pay: P) {
        self.hands.push_reserved((row, pay));
        self.token = step::<u32, Token<P>, Placing>(&self.token, &row);
        desk.views = put(&desk.views, &self.id, &self.token);
        desk.words[row as usize] = OPEN;
    }

    fn pay_mut(&mut self, row: u32) -> &mut P {
        let i = find(&self.hands, row);
        let hand = &mut self.hands[i];
        &mut hand.1
    }

    fn lease(&mut self, desk: &mut PlainTable<P>, stream: u32, row: u32) {
        self.token = step::<(u32, u32), Token<P>, Leasing>(&self.token, &(stream, row));
        desk.views = put(&desk.views, &self.id, &self.token);
        desk.words[row as usize] += LEASE;
    }

    fn leave(&mut self, desk: &mut PlainTable<P>, stream: u32, row: u32) -> Left {
        self.token = step::<(u32, u32), Token<P>, Leaving>(&self.token, &(stream, row));
        let rest = desk.words[row as usize] - LEASE;
        desk.words[row as usize] = rest;
        if rest == HANDED {
            self.token = step::<(u32, &Option<P>), Token<P>, Handing>(
                &self.token,
                &(row, &desk.slots[row as usize]),
            );
            desk.views = put(&desk.views, &self.id, &self.token);
            Left::Yours
        } else {
            desk.views = put(&desk.views, &self.id, &self.token);
            Left::Stays
        }
    }

    fn close(&mut self, desk: &mut PlainTable<P>, row: u32) -> Left {
        let pay = take_out(&mut self.hands, row);
        let hand = (row, pay);
        self.token = step::<(u32, P), Token<P>, Shutting>(&self.token, &hand);
        let word = desk.words[row as usize] + CLOSE;
        desk.words[row as usize] = word;
        if word == HANDED {
            self.token = step::<(u32, P), Token<P>, HandingOver>(&self.token, &hand);
            desk.views = put(&desk.views, &self.id, &self.token);
            desk.slots[row as usize] = Some(hand.1);
            Left::Yours
        } else {
            desk.views = put(&desk.views, &self.id, &self.token);
            desk.slots[row as usize] = Some(hand.1);
            Left::Stays
        }
    }

    fn take(&mut self, desk: &mut PlainTable<P>, row: u32) -> P {
        self.token = step::<u32, Token<P>, Taking>(&self.token, &row);
        desk.views = put(&desk.views, &self.id, &self.token);
        match desk.slots[row as usize].take() {
            Some(pay) => pay,
            None => unreachable!(),
        }
    }

    fn note(&mut self, desk: &mut PlainTable<P>, what: What) -> u64 {
        let stamp = desk.events.len() as u64;
        let event = Event {
            stamp,
            by: self.by,
            what,
        };
        desk.events.push_reserved(event);
        self.token = step::<Event, Token<P>, Noting>(&self.token, &event);
        desk.views = put(&desk.views, &self.id, &self.token);
        stamp
    }

    fn split(
        &mut self,
        alloc: Global,
        desk: &mut PlainTable<P>,
        stream: u32,
        rows: Span,
        events: u64,
    ) -> Result<PlainSeat<P>, AllocError> {
        let count = if rows.from < rows.to {
            rows.to - rows.from
        } else {
            0
        };
        let hands = Vec::with_capacity(alloc, count as usize)?;
        let id = know::<Known<LinkedList<Token<P>>>, u64, Counts>(&desk.views);
        let token = step::<(u32, Span, u64), Token<P>, Splitting>(
            &self.token,
            &(stream, rows, events),
        );
        self.token = step::<(u32, Span, u64), Token<P>, Halving>(
            &self.token,
            &(stream, rows, events),
        );
        let views = put(&desk.views, &self.id, &self.token);
        desk.views = add(&views, &token);
        Ok(PlainSeat {
            by: StreamNo::Inner(stream),
            id,
            hands,
            token,
        })
    }

    fn join(&mut self, desk: &mut PlainTable<P>, other: PlainSeat<P>) {
        let PlainSeat {
            by: _,
            id,
            hands,
            token,
        } = other;
        hands.destroy_empty();
        self.token = step::<Known<Token<P>>, Token<P>, Joining>(&self.token, &token);
        let taken_in = know::<Known<Token<P>>, Token<P>, TakingIn>(&token);
        let views = put(&desk.views, &self.id, &self.token);
        desk.views = put(&views, &id, &taken_in);
    }

    fn finish(self, desk: &mut PlainTable<P>) -> Ledger {
        let PlainSeat {
            by: _,
            id: _,
            hands,
            token: _,
        } = self;
        hands.destroy_empty();
        let events = std::mem::replace(&mut desk.events, Vec::new(desk.alloc));
        Ledger::of_events(events)
    }
}

fn vacant<P: Drop>(alloc: Global, rows: u32) -> Result<Vec<Option<P>>, AllocError>
    ensures { IfOk result (λ v. length v.items ≡ rows) }
{
    let mut slots = Vec::with_capacity(alloc, rows as usize)?;
    for _ in 0..rows {
        slots.push(None)?;
    }
    Ok(slots)
}

fn zeros(alloc: Global, rows: u32) -> Result<Vec<u64>, AllocError>
    ensures { IfOk result (λ v. (length v.items ≡ rows) × ((r : ℕ) → slice_index_or v.items r 0 ≡ 0)) }
{
    let mut words = Vec::with_capacity(alloc, rows as usize)?;
    for _ in 0..rows {
        words.push(0)?;
    }
    Ok(words)
}

impl<P: Drop> PlainSeat<P> {
    ghost use Rattle.row_seat.specs.PlainSeats.{shown, Sits};
    ghost use Rattle.row_seat.specs.Views.{start};

    /// A main seat with all `rows`, and its table. The room for all `events` is made here, so that no
    /// later call but `split` needs memory.
    pub fn new(
        alloc: Global,
        by: StreamNo,
        rows: u32,
        events: u64,
    ) -> Result<(PlainSeat<P>, PlainTable<P>), AllocError>
        requires { events < 2 ^ 40 }
        ensures { IfOk result (λ t. (shown t.0 ≡ start by rows events (2 ^ 32 - 1)) × Sits t.0 t.1) }
    {
        let slots = vacant(alloc, rows)?;
        let words = zeros(alloc, rows)?;
        let room = Vec::with_capacity(alloc, events as usize)?;
        let hands = Vec::with_capacity(alloc, rows as usize)?;
        let token = know::<(StreamNo, u32, u64), Token<P>, Starting>(&(by, rows, events));
        let views = know::<Known<Token<P>>, LinkedList<Token<P>>, Alone>(&token);
        let id = know::<Known<LinkedList<Token<P>>>, u64, Zero>(&views);
        let seat = PlainSeat {
            by,
            id,
            hands,
            token,
        };
        let table = PlainTable {
            alloc,
            words,
            slots,
            events: room,
            views,
        };
        Ok((seat, table))
    }
}
