//! What a stream does at the board and at the desk.
ghost use Rattle.std.specs.Prelude.{◌≡◌, ◌⊎◌, ◌<◌, ◌≤◌, Some, None, IfSome, IfNone};
ghost use Rattle.std.specs.Option.{option_or};
ghost use Rattle.chunk_core.specs.Lists.{IsAmong};
ghost use Rattle.interrupt_ctx.specs.Ends.{HasFound, HasSet};
ghost use Rattle.interrupt_ctx.specs.Views.{after_look};
ghost use Rattle.interrupt_ctx.specs.declared.why.Stop.{Stop};
ghost use Rattle.res_ledger.specs.declared.event.Event.{Event};
ghost use Rattle.row_seat.specs.Fronts.{sight_of};
ghost use Rattle.row_seat.specs.Views.{IsFreshStamp, MayNote, OthersFit, noted};

use interrupt_ctx::{Board, BoardSeat, Stop, Why};
use res_ledger::What;
use row_seat::MarksFront;
use std::sync::Wait;

/// Interrupts a context, unless that was done before, behind all that this seat has noted.
pub fn interrupt<S: MarksFront>(
    seat: &mut S,
    desk: &mut S::Desk,
    at: &mut BoardSeat,
    board: &Board,
    context: u32,
    why: Why,
) -> Stop
where
    S::Mark: Drop,
    requires fits { S.fits seat.old desk.old }
    requires board { at.old.board ≡ board.now.id }
    requires context { context < board.now.contexts }
    ensures why { result.why ≡ why }
    ensures behind { (e : Event) → IsAmong e (S.view seat.old).events → e.stamp < result.at }
    ensures stops { HasSet at.old at.new context result ⊎ ((there : Stop) × HasFound at.old at.new context there) }
    ensures view { S.view seat.new ≡ S.view seat.old }
    ensures fits { S.fits seat.new desk.new }
    ensures others { OthersFit S.view S.fits (S.view seat.old).by desk.old desk.new }
{
    let (front, _mark) = seat.mark(desk);
    let stop = Stop { why, at: front };
    at.set(board, context, stop);
    stop
}

/// Waits until this seat sees that the ledger has so many events. The mark keeps what it saw then.
fn see_so_far<R: Wait, S: MarksFront>(
    rt: &R,
    seat: &mut S,
    desk: &mut S::Desk,
    least: u64,
) -> S::Mark
where
    S::Mark: Drop,
    requires fits { S.fits seat.old desk.old }
    ensures front { least ≤ (S.sight result).front }
    ensures sight { S.sight result ≡ sight_of (S.view seat.old) (S.sight result).front }
    ensures marked { S.marked result desk.new }
    ensures view { S.view seat.new ≡ S.view seat.old }
    ensures fits { S.fits seat.new desk.new }
    ensures others { OthersFit S.view S.fits (S.view seat.old).by desk.old desk.new }
{
    'looks: for _ in rt.forever() {
        let (front, mark) = seat.mark(desk);
        if least <= front {
            return mark;
        }
    }
    unreachable!()
}

/// Looks at a context once. Where something is found there, this seat has seen then that the ledger has
/// come as far as that says, and the mark keeps what it saw.
pub fn look_behind<R: Wait, S: MarksFront>(
    rt: &R,
    seat: &mut S,
    desk: &mut S::Desk,
    at: &mut BoardSeat,
    board: &Board,
    context: u32,
) -> Option<(Stop, S::Mark)>
where
    S::Mark: Drop,
    requires fits { S.fits seat.old desk.old }
    requires board { at.old.board ≡ board.now.id }
    requires context { context < board.now.contexts }
    ensures looks { at.new ≡ record at.old { view = after_look at.old.view context at.new.view.last.own at.new.view.last.root } }
    ensures found { IfSome result (λ r. option_or at.new.view.last.own at.new.view.last.root ≡ Some r.0) }
    ensures none { IfNone result (option_or at.new.view.last.own at.new.view.last.root ≡ None) }
    ensures front { IfSome result (λ r. r.0.at ≤ (S.sight r.1).front) }
    ensures sight { IfSome result (λ r. S.sight r.1 ≡ sight_of (S.view seat.old) (S.sight r.1).front) }
    ensures marked { IfSome result (λ r. S.marked r.1 desk.new) }
    ensures view { S.view seat.new ≡ S.view seat.old }
    ensures fits { S.fits seat.new desk.new }
    ensures others { OthersFit S.view S.fits (S.view seat.old).by desk.old desk.new }
{
    match at.look(board, context) {
        Some(stop) => Some((stop, see_so_far(rt, seat, desk, stop.at))),
        None => None,
    }
}

/// Notes an event behind what was seen with the mark.
pub fn close_behind<S: MarksFront>(
    seat: &mut S,
    desk: &mut S::Desk,
    what: What,
    mark: S::Mark,
) -> u64
    requires fits { S.fits seat.old desk.old }
    requires marked { S.marked mark desk.old }
    requires sight { S.sight mark ≡ sight_of (S.view seat.old) (S.sight mark).front }
    requires room { 1 ≤ (S.view seat.old).spare }
    requires event { MayNote (S.view seat.old) what }
    ensures behind { (S.sight mark).front ≤ result }
    ensures stamp { IsFreshStamp (S.view seat.old) result }
    ensures view { S.view seat.new ≡ noted (S.view seat.old) (record { stamp = result; by = (S.view seat.old).by; what = what }) }
    ensures fits { S.fits seat.new desk.new }
{
    let stamp = seat.note(desk, what);
    seat.recall(desk, mark);
    stamp
}
