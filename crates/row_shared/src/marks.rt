//! Marks: what a seat at a shared table saw of the ledger.
use crate::seat::{SharedSeat, TableRef};
use crate::sights;
use crate::table::RowPass;
use row_seat::MarksFront;

/// Keeps what a seat saw of the ledger. It has no bytes, and may go to another thread with the seat.
#[derive(Drop)]
pub struct SharedMark<P> {
    pass: RowPass<P>,
}

impl<P: Drop> MarksFront for SharedSeat<P> {
    ghost use Rattle.row_shared.specs.Marked.{MarkFits, keeps_mark, sight_in};

    type Mark = SharedMark<P>;

    ghost sight = { sight_in };

    ghost marked = { MarkFits };

    fn mark(&mut self, desk: &mut TableRef<P>) -> (u64, SharedMark<P>) {
        let (front, pass) = sights::mark(&desk.table.shared, &mut self.pass);
        (front, SharedMark { pass })
    }

    fn recall(&mut self, desk: &mut TableRef<P>, mark: SharedMark<P>) {
        let SharedMark { pass } = mark;
        sights::recall(&desk.table.shared, &mut self.pass, pass)
    }

    ghost mark_stays = { λ s m k d e. keeps_mark s m k d e };
}
