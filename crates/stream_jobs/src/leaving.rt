//! What is left of a stream whose stepper has ended, or found no memory to begin.
ghost use Rattle.std.specs.Prelude.{◌≡◌, [], ◌∷◌};
ghost use Rattle.chunk_core.specs.declared.code.How.TheVariants as how;
ghost use Rattle.interrupt_ctx.specs.Ends.{SeatSeen};
ghost use Rattle.pull_turns.specs.Piping.{standing};
ghost use Rattle.res_ledger.specs.declared.event.StreamNo.TheVariants.{Inner};
ghost use Rattle.row_seat.specs.Views.{OthersFit};
ghost use Rattle.scope_tree.specs.Trees.{Fits, seen};
ghost use Rattle.scope_tree.specs.Visible.{lessee, rows_covered};
ghost use Rattle.pull_stepper.specs.Sites.{Site};
ghost use Rattle.pull_stepper.specs.Steppers.{Works, stepping};
ghost use Rattle.pull_stepper.specs.Stepping.{IsOver, Stepping, StepperEnds};
ghost use Rattle.stream_jobs.specs.Leaving.{CanLeave, IsVisiting, Leaves};
ghost use Rattle.stream_jobs.specs.Messages.{end_message};
ghost use Rattle.stream_jobs.specs.Running.{IsEndedJob, Origin};
ghost use Rattle.stream_jobs.specs.Unmade.{IsUnmade};

use chunk_core::{Exit, How, List};
use device_port::Device;
use pull_nodes::PipeState;
use pull_stepper::{Ended, Held, Stepper};
use row_seat::RowSeat;
use scope_tree::{Lease, Spent, Tree};

/// What a stream's stepper and its tree leave.
#[derive(Drop)]
pub(crate) struct Left<S, V> {
    pub(crate) seat: S,
    pub(crate) shelf: List<Spent<Held<V>>>,
    pub(crate) unopened: List<V>,
    pub(crate) how: How,
}

/// Cancels the lease of a stream whose tree closed its root as the stream has ended, and takes the
/// tree apart. The rows of the lease that nobody else holds are ended on it.
fn part<V: Device, S: RowSeat<Pay = Held<V>>, F: PipeState>(
    tree: Tree<S>,
    how: How,
    unopened: List<V>,
    lease: Lease,
    desk: &mut S::Desk,
) -> Left<S, V>
    requires fits { Fits S.view S.fits tree desk.old }
    requires ended { (x : Site V) × (s : Stepping V F) × StepperEnds V.told s (seen S.view tree) how unopened × IsVisiting V.told (lessee lease) (rows_covered lease) x s.site × CanLeave V.told (rows_covered lease) s.site }
    ensures leaves { (x : Site V) (s : Stepping V F) → StepperEnds V.told s (seen S.view tree) how unopened → IsVisiting V.told (lessee lease) (rows_covered lease) x s.site → Leaves V.told (lessee lease) (rows_covered lease) x s (S.view result.seat) result.shelf result.unopened result.how }
    ensures how { result.how ≡ how }
    ensures fits { S.fits result.seat desk.new }
    ensures others { OthersFit S.view S.fits (Inner (lessee lease)) desk.old desk.new }
{
    let mut tree = tree;
    tree.cancel(desk, lease, how.exit());
    let (seat, shelf) = tree.end();
    Left {
        seat,
        shelf,
        unopened,
        how,
    }
}

/// Cancels the lease of a stream as its stepper has ended, and takes both apart. The rows of the
/// lease that nobody else holds are ended on the stream's tree.
pub(crate) fn leave<V: Device, S: RowSeat<Pay = Held<V>>, F: PipeState>(
    stepper: Stepper<S, V, F>,
    lease: Lease,
    desk: &mut S::Desk,
) -> Left<S, V>
where
    F::Tables: Drop,
    requires works { Works S.view V.told S.fits stepper desk.old }
    requires over { IsOver V.told (stepping S.view F.values stepper) }
    requires visiting { (x : Site V) × IsVisiting V.told (lessee lease) (rows_covered lease) x (stepping S.view F.values stepper).site }
    requires room { CanLeave V.told (rows_covered lease) (stepping S.view F.values stepper).site }
    ensures leaves { (x : Site V) → IsVisiting V.told (lessee lease) (rows_covered lease) x (stepping S.view F.values stepper).site → Leaves V.told (lessee lease) (rows_covered lease) x (stepping S.view F.values stepper) (S.view result.seat) result.shelf result.unopened result.how }
    ensures fits { S.fits result.seat desk.new }
    ensures others { OthersFit S.view S.fits (Inner (lessee lease)) desk.old desk.new }
{
    let Ended {
        tree,
        how,
        unopened,
    } = stepper.end();
    part::<V, S, F>(tree, how, unopened, lease, desk)
}

/// Closes the root of a tree over which nothing was begun, as canceled, cancels the lease so too and
/// takes the tree apart.
pub(crate) fn leave_unmade<V: Device, S: RowSeat<Pay = Held<V>>, F: PipeState>(
    tree: Tree<S>,
    devices: List<V>,
    lease: Lease,
    desk: &mut S::Desk,
) -> Left<S, V>
    requires fits { Fits S.view S.fits tree desk.old }
    requires unmade { (b : SeatSeen) × (w : Origin V F) × IsUnmade V.told (lessee lease) (rows_covered lease) b (seen S.view tree) devices w }
    ensures left { (b : SeatSeen) (w : Origin V F) → IsUnmade V.told (lessee lease) (rows_covered lease) b (seen S.view tree) devices w → IsEndedJob V.told (standing F.stands F.comes) w (S.view result.seat) result.shelf result.unopened result.how (end_message (lessee lease) how.Memory ∷ []) }
    ensures how { result.how ≡ how.Memory }
    ensures fits { S.fits result.seat desk.new }
    ensures others { OthersFit S.view S.fits (Inner (lessee lease)) desk.old desk.new }
{
    let mut tree = tree;
    tree.close(desk, 0, Exit::Canceled);
    part::<V, S, F>(tree, How::Memory, devices, lease, desk)
}
