//! What a stepper's seat sees of the ledger, and a halt behind that.
ghost use Rattle.std.specs.Prelude.{◌≡◌, ◌<◌, ◌^◌, None};
ghost use Rattle.pull_turns.specs.Led.{CanBeCut};
ghost use Rattle.pull_turns.specs.Piping.{standing};
ghost use Rattle.row_seat.specs.Fronts.{sight_of};
ghost use Rattle.row_seat.specs.Views.{IsFreshStamp, OthersFit};
ghost use Rattle.scope_tree.specs.Calls.{IsOpenScope};
ghost use Rattle.pull_stepper.specs.Behind.{ClosesRootBehind};
ghost use Rattle.pull_stepper.specs.Held.{FinishesDevice};
ghost use Rattle.pull_stepper.specs.Sites.{Since, told_at};
ghost use Rattle.pull_stepper.specs.Steppers.{Works, stepping};
ghost use Rattle.pull_stepper.specs.Stepping.{CanGo, Halts};

use crate::held::Held;
use crate::stepper::Stepper;
use device_port::Device;
use pull_nodes::PipeState;
use row_seat::{MarksFront, RowSeat};

impl<V: Device, S: MarksFront + RowSeat<Pay = Held<V>>, F: PipeState> Stepper<S, V, F> {
    /// How many events the ledger has: each of the stepper's tree has a lesser stamp. The mark keeps
    /// that.
    pub fn mark(&mut self, desk: &mut S::Desk) -> (u64, S::Mark)
        requires fits { Works S.view V.told S.fits self.old desk.old }
        ensures same { stepping S.view F.values self.new ≡ stepping S.view F.values self.old }
        ensures front { IsFreshStamp (stepping S.view F.values self.old).site.tree.seat result.0 }
        ensures small { result.0 < 2 ^ 40 }
        ensures sight { S.sight result.1 ≡ sight_of (stepping S.view F.values self.old).site.tree.seat result.0 }
        ensures marked { S.marked result.1 desk.new }
        ensures fits { Works S.view V.told S.fits self.new desk.new }
        ensures others { OthersFit S.view S.fits (stepping S.view F.values self.old).site.tree.seat.by desk.old desk.new }
    {
        self.runner.outside_mut().tree.mark(desk)
    }

    /// As `halt`: and the root is closed behind the front that the stepper's seat has seen last.
    pub fn halt_behind(&mut self, desk: &mut S::Desk, mark: S::Mark)
        requires fits { Works S.view V.told S.fits self.old desk.old }
        requires runs { (stepping S.view F.values self.old).how ≡ None }
        requires root { IsOpenScope (stepping S.view F.values self.old).site.tree 0 }
        requires marked { S.marked mark desk.old }
        requires sight { S.sight mark ≡ sight_of (stepping S.view F.values self.old).site.tree.seat (S.sight mark).front }
        ensures halts { Halts V.told (stepping S.view F.values self.old) (stepping S.view F.values self.new) }
        ensures behind { ClosesRootBehind (stepping S.view F.values self.new).site.tree.seat (S.sight mark).front }
        ensures cut { CanGo (standing F.stands F.comes) V.told (stepping S.view F.values self.old) → CanBeCut (standing F.stands F.comes (stepping S.view F.values self.old).tables) (told_at V.told (stepping S.view F.values self.new).site) (stepping S.view F.values self.old).rest }
        ensures fits { Works S.view V.told S.fits self.new desk.new }
        ensures since { Since V.told (FinishesDevice V.told) (stepping S.view F.values self.old).site (stepping S.view F.values self.new).site }
        ensures others { OthersFit S.view S.fits (stepping S.view F.values self.old).site.tree.seat.by desk.old desk.new }
    {
        self.halt(desk);
        self.runner.outside_mut().tree.recall(desk, mark);
    }
}
