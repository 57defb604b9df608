//! The front of the ledger, as a seat sees it.
ghost use Rattle.std.specs.Prelude.{◌≡◌, ◌<◌, ◌^◌};

use crate::seat::RowSeat;
use res_ledger::StreamNo;

/// What a seat saw of the ledger: its stream, how many events that had noted, and how many all seats
/// had. No value of it is made.
pub struct Sight {
    pub by: StreamNo,
    pub count: u64,
    pub front: u64,
}

/// Seats that see how far the ledger is. What a seat saw is kept by a mark, and stays so whatever is
/// noted since.
pub trait MarksFront: RowSeat {
    ghost use Rattle.row_seat.specs.Fronts.{StandsBehind, sight_of};
    ghost use Rattle.row_seat.specs.Views.{IsFreshStamp, OthersFit};
    ghost use Rattle.row_seat.specs.declared.front.Sight.{Sight};
    ghost use Rattle.res_ledger.specs.declared.event.StreamNo.{StreamNo};

    /// What keeps it.
    type Mark;

    // What the seat saw.
    ghost sight: { Self.Mark → Sight };
    // The mark and the desk come from one maker.
    ghost marked: { Self.Mark → Self.Desk → Type 0 };

    /// How many events the ledger has: each of this seat has a lesser stamp. The mark keeps that.
    fn mark(&mut self, desk: &mut Self::Desk) -> (u64, Self::Mark)
        requires fits { Self.fits self.old desk.old }
        ensures view { Self.view self.new ≡ Self.view self.old }
        ensures front { IsFreshStamp (Self.view self.old) result.0 }
        ensures small { result.0 < 2 ^ 40 }
        ensures sight { Self.sight result.1 ≡ sight_of (Self.view self.old) result.0 }
        ensures marked { Self.marked result.1 desk.new }
        ensures fits { Self.fits self.new desk.new }
        ensures others { OthersFit Self.view Self.fits (Self.view self.old).by desk.old desk.new };

    /// What its stream has noted since the mark stands behind the front that was seen then.
    fn recall(&mut self, desk: &mut Self::Desk, mark: Self::Mark)
        requires fits { Self.fits self.old desk.old }
        requires marked { Self.marked mark desk.old }
        requires name { (Self.sight mark).by ≡ (Self.view self.old).by }
        ensures view { Self.view self.new ≡ Self.view self.old }
        ensures behind { StandsBehind (Self.sight mark) (Self.view self.old).events }
        ensures fits { Self.fits self.new desk.new }
        ensures others { OthersFit Self.view Self.fits (Self.view self.old).by desk.old desk.new };

    // What is done at a desk leaves a mark at it.
    ghost mark_stays: { (s : Self) (m : Self.Mark) (k : StreamNo) (d e : Self.Desk) → Self.fits s d → OthersFit Self.view Self.fits k d e → Self.marked m d → Self.marked m e };
}
