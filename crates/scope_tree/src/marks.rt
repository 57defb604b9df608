//! What a tree's seat sees of the ledger.
ghost use Rattle.std.specs.Prelude.{◌≡◌, ◌<◌, ◌^◌};
ghost use Rattle.row_seat.specs.Fronts.{StandsBehind, sight_of};
ghost use Rattle.row_seat.specs.Views.{IsFreshStamp, OthersFit};
ghost use Rattle.scope_tree.specs.Trees.{Fits, seen};

use crate::branch::Finish;
use crate::tree::Tree;
use row_seat::MarksFront;

impl<S: MarksFront> Tree<S>
where
    S::Pay: Finish,
{
    /// How many events the ledger has: each of this tree has a lesser stamp. The mark keeps that.
    pub fn mark(&mut self, desk: &mut S::Desk) -> (u64, S::Mark)
        requires fits { Fits S.view S.fits self.old desk.old }
        ensures seen { seen S.view self.new ≡ seen S.view self.old }
        ensures front { IsFreshStamp (seen S.view self.old).seat result.0 }
        ensures small { result.0 < 2 ^ 40 }
        ensures sight { S.sight result.1 ≡ sight_of (seen S.view self.old).seat result.0 }
        ensures marked { S.marked result.1 desk.new }
        ensures fits { Fits S.view S.fits self.new desk.new }
        ensures others { OthersFit S.view S.fits (seen S.view self.old).seat.by desk.old desk.new }
    {
        self.seat.mark(desk)
    }

    /// What the tree's stream has noted since the mark stands behind the front that was seen then.
    pub fn recall(&mut self, desk: &mut S::Desk, mark: S::Mark)
        requires fits { Fits S.view S.fits self.old desk.old }
        requires marked { S.marked mark desk.old }
        requires name { (S.sight mark).by ≡ (seen S.view self.old).seat.by }
        ensures seen { seen S.view self.new ≡ seen S.view self.old }
        ensures behind { StandsBehind (S.sight mark) (seen S.view self.old).seat.events }
        ensures fits { Fits S.view S.fits self.new desk.new }
        ensures others { OthersFit S.view S.fits (seen S.view self.old).seat.by desk.old desk.new }
    {
        self.seat.recall(desk, mark)
    }
}
