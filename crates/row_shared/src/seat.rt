//! A seat at the shared table, and the handle that is its desk.
ghost use Rattle.std.specs.Prelude.{◌≡◌, ◌-◌, ◌<◌, ◌≤◌, ◌^◌, IfOk};
ghost use Rattle.std.specs.Arc.{arc_value};
ghost use Rattle.row_shared.specs.Orders.{HasAllOf};
ghost use Rattle.row_shared.specs.Seats.{SharedFits};
ghost use Rattle.row_shared.specs.declared.seat.SharedSeat.{SharedSeat};

use crate::steps;
use crate::table::{RowPass, RowTable, Start};
use atomic_table::Table;
use chunk_core::Span;
use res_ledger::{Event, Ledger, StreamNo, What};
use row_seat::hand::{find, take_out};
use row_seat::{Left, RowSeat};
use std::alloc::{AllocError, Global};
use std::sync::Arc;

/// A handle on the table. The last one drops the table, with what is still in a slot.
#[derive(Drop)]
pub struct TableRef<P: Drop> {
    pub(crate) table: Arc<RowTable<P>, Global>,
}

impl<P: Drop> TableRef<P> {
    /// A further handle on the table, which fits the same seats.
    pub fn share(&self) -> Result<TableRef<P>, AllocError>
        ensures { IfOk result (λ t. (s : SharedSeat P) → SharedFits s self.now → SharedFits s t) }
    {
        Ok(TableRef {
            table: Arc::try_clone(&self.table)?,
        })
    }
}

/// A seat at a table that threads share.
///
/// Its open rows' payloads and its own events lie with the seat, so that only words, and the payloads
/// of closed rows, are shared.
#[derive(Drop)]
pub struct SharedSeat<P> {
    by: StreamNo,
    pub(crate) pass: RowPass<P>,
    hands: Vec<(u32, P)>,
    events: Vec<Event>,
}

// Puts the events into the order of their stamps, in place.
fn in_order(mut events: Vec<Event>) -> Ledger
    requires { (log : _) × HasAllOf events.items log }
    ensures { (log : _) → HasAllOf events.items log → result ≡ log }
{
    events.sort_unstable_by_key(|e| e.stamp);
    Ledger::of_events(events)
}

impl<P: Drop> RowSeat for SharedSeat<P> {
    ghost use Rattle.row_shared.specs.Seats.{shown, SharedFits, lent, shown_lent, fits_lent};

    type Pay = P;

    type Desk = TableRef<P>;

    ghost view = { shown };

    ghost fits = { SharedFits };

    ghost with_pay = { lent };

    ghost pay_view = { shown_lent };

    ghost pay_fits = { fits_lent };

    fn place(&mut self, desk: &mut TableRef<P>, row: u32, pay: P) {
        steps::place(&desk.table.shared, &mut self.pass, row);
        self.hands.push_reserved((row, pay));
    }

    fn pay_mut(&mut self, row: u32) -> &mut P {
        let i = find(&self.hands, row);
        let hand = &mut self.hands[i];
        &mut hand.1
    }

    fn lease(&mut self, desk: &mut TableRef<P>, stream: u32, row: u32) {
        steps::lease(&desk.table.shared, &mut self.pass, stream, row)
    }

    fn leave(&mut self, desk: &mut TableRef<P>, stream: u32, row: u32) -> Left {
        steps::leave(&desk.table.shared, &mut self.pass, stream, row)
    }

    fn close(&mut self, desk: &mut TableRef<P>, row: u32) -> Left {
        let pay = take_out(&mut self.hands, row);
        steps::close(&desk.table.shared, &mut self.pass, row, pay)
    }

    fn take(&mut self, desk: &mut TableRef<P>, row: u32) -> P {
        steps::take(&desk.table.shared, &mut self.pass, row)
    }

    fn note(&mut self, desk: &mut TableRef<P>, what: What) -> u64 {
        let stamp = steps::tick(&desk.table.shared, &mut self.pass, what);
        self.events.push_reserved(Event {
            stamp,
            by: self.by,
            what,
        });
        stamp
    }

    fn split(
        &mut self,
        alloc: Global,
        desk: &mut TableRef<P>,
        stream: u32,
        rows: Span,
        events: u64,
    ) -> Result<SharedSeat<P>, AllocError> {
        let count = if rows.from < rows.to {
            rows.to - rows.from
        } else {
            0
        };
        let hands = Vec::with_capacity(alloc, count as usize)?;
        let pages = Vec::with_capacity(alloc, events as usize)?;
        let pass = steps::split(&desk.table.shared, &mut self.pass, stream, rows, events);
        Ok(SharedSeat {
            by: StreamNo::Inner(stream),
            pass,
            hands,
            events: pages,
        })
    }

    fn join(&mut self, desk: &mut TableRef<P>, other: SharedSeat<P>) {
        let SharedSeat {
            by,
            pass,
            hands,
            mut events,
        } = other;
        hands.destroy_empty();
        steps::join(&desk.table.shared, &mut self.pass, pass, by);
        match self.events.append(&mut events) {
            Ok(()) => {}
            Err(_) => unreachable!(),
        }
    }

    fn finish(self, desk: &mut TableRef<P>) -> Ledger {
        let SharedSeat {
            by: _,
            mut pass,
            hands,
            events,
        } = self;
        hands.destroy_empty();
        steps::end(&desk.table.shared, &mut pass);
        in_order(events)
    }
}

impl<P: Drop> SharedSeat<P> {
    ghost use Rattle.row_shared.specs.Seats.{shown, SharedFits};
    ghost use Rattle.row_seat.specs.Views.{start};

    /// A main seat with all `rows`, and a handle on its table, for at most `seats` seats in all. The
    /// room for all `events` is made here, so that no later call but `split` needs memory.
    pub fn new(
        alloc: Global,
        by: StreamNo,
        rows: u32,
        seats: u32,
        events: u64,
    ) -> Result<(SharedSeat<P>, TableRef<P>), AllocError>
        requires seats { 1 ≤ seats }
        requires events { events < 2 ^ 40 }
        ensures { IfOk result (λ t. (shown t.0 ≡ start by rows events (seats - 1)) × SharedFits t.0 t.1) }
    {
        let words = Vec::from_elem(alloc, 0u64, rows as usize + 1)?;
        let hands = Vec::with_capacity(alloc, rows as usize)?;
        let pages = Vec::with_capacity(alloc, events as usize)?;
        let start = Start {
            by,
            rows,
            seats,
            events,
        };
        let (table, pass): (RowTable<P>, RowPass<P>) = Table::vacant(
            alloc,
            words.as_slice(),
            rows as usize,
            &start,
        )?;
        let table = Arc::new(alloc, table)?;
        Ok((
            SharedSeat {
                by,
                pass,
                hands,
                events: pages,
            },
            TableRef { table },
        ))
    }
}
