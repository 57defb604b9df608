//! Making leases.
ghost use Rattle.std.specs.Prelude.{◌≡◌, ◌≢◌, ℕ, true, nat_eq};
ghost use Rattle.chunk_core.specs.Lists.{IsAmong, are_distinct};
ghost use Rattle.res_ledger.specs.Ledger.{IsLeased};
ghost use Rattle.res_ledger.specs.declared.event.StreamNo.TheVariants.{Inner};
ghost use Rattle.row_seat.specs.Views.{HasRow, OthersFit};
ghost use Rattle.std.specs.List.{IsDistinct};
ghost use Rattle.scope_tree.specs.Leased.{leased_all};

use row_seat::RowSeat;

/// The lease of a scope for a stream. It is never let go of by itself: a tree takes it in `cancel`, or
/// who holds it abandons it.
pub struct Lease {
    pub(crate) stream: u32,
    /// The rows that it covers, in the order in which they were acquired.
    pub(crate) rows: Vec<u32>,
    ghost distinct: { are_distinct rows.items ≡ true },
}

impl Lease {
    /// Lets go of a lease that nobody will cancel. Its tree can't come to rest then.
    pub fn abandon(self) {
        let Lease { stream: _, rows: _ } = self;
    }
}

/// Leases each of the rows for the stream.
pub fn lease_rows<S: RowSeat>(seat: &mut S, desk: &mut S::Desk, stream: u32, rows: &[u32])
    requires fits { S.fits seat.old desk.old }
    requires main { (S.view seat.old).main ≡ true }
    requires rows { ((r : ℕ) → IsAmong r rows.now → HasRow (S.view seat.old).opened r) × IsDistinct nat_eq rows.now }
    requires stream { ((S.view seat.old).by ≢ Inner stream) × ¬ (IsAmong stream (S.view seat.old).had) × ¬ (IsLeased (S.view seat.old).events stream) }
    requires none { (r : ℕ) → ¬ (IsAmong (stream, r) (S.view seat.old).pairs) }
    ensures seat { S.view seat.new ≡ leased_all (S.view seat.old) stream rows.now }
    ensures fits { S.fits seat.new desk.new }
    ensures others { OthersFit S.view S.fits (S.view seat.old).by desk.old desk.new }
{
    'each: for row in rows {
        seat.lease(desk, stream, *row);
    }
}
