//! The outer stream of a plan with its list.
ghost use Rattle.std.specs.Prelude.{◌≡◌, ℕ, ◌^◌, ◌<◌, ◌≤◌, length, List, Result, Some};
ghost use Rattle.join_tree.specs.Progress.{Progress};
ghost use Rattle.res_ledger.specs.declared.event.StreamNo.TheVariants.{Outer as outer_name};
ghost use Rattle.row_seat.specs.Views.{OthersFit};
ghost use Rattle.scope_tree.specs.Trees.{Fits, seen};
ghost use Rattle.outer_source.specs.Pulls.{BeginsList, ComesOfList, HasEnded, HasLine, MayOpenList, MayRead, PullsAll, TriesList};
ghost use Rattle.outer_source.specs.Standing.{IsSourceAt, unpulled};
ghost use Rattle.outer_stream.specs.declared.next.OuterPart.{OuterPart as Part_told};
ghost use Rattle.outer_tables.specs.declared.not_read.NotRead.{NotRead as Not_read};
ghost use Rattle.pipeline_desc.specs.Meant.{PlanMeant};
ghost use Rattle.pipeline_desc.specs.declared.listing.ListSpec.{ListSpec as List_told};

use crate::bad::{is_bad, text_of};
use crate::next::Next;
use chain_pipes::Chain;
use chunk_core::{Code, How, Word};
use device_port::{Depot, Device};
use join_tree::{close_child, lease_next, open_child};
use list_lines::{ListLines, Listed};
use list_rows::next_line;
use list_runs::new_list;
use outer_stream::{Next as NextOfParts, Outer, OuterPart};
use outer_tables::{NotRead, open_device};
use pipeline_desc::{ListSpec, Plan};
use pull_stepper::Held;
use row_seat::RowSeat;
use scope_tree::Tree;
use std::alloc::{AllocError, Global};

/// The outer stream of a plan and its list, between its pulls.
#[derive(Drop)]
pub struct OuterSource {
    /// The outer stream of the parts. Behind them its scope is that of the list, and it has given
    /// the streams of lines too.
    pub outer: Outer,
    /// The list, once its device was opened.
    pub list: Option<ListLines<Chain>>,
}

impl OuterSource {
    /// One that wasn't pulled.
    pub fn new(alloc: Global) -> OuterSource
        ensures { result ≡ unpulled }
    {
        OuterSource {
            outer: Outer::new(alloc),
            list: None,
        }
    }

    /// Opens a child scope for the list, and its device as a row of it.
    fn open_list<D: Depot, S: RowSeat<Pay = Held<D::Dev>>>(
        &mut self,
        alloc: Global,
        tree: &mut Tree<S>,
        desk: &mut S::Desk,
        plan: &Plan,
        list: &ListSpec,
        depot: &mut D,
    ) -> Result<(), NotRead>
        requires fits { Fits S.view S.fits tree.old desk.old }
        requires may { (parts : List Part_told) × (width : ℕ) × (q : Progress D.Dev) × MayOpenList D.Dev.Device.told plan.now parts width q self.old.outer (seen S.view tree.old) }
        ensures tries { (parts : List Part_told) (width : ℕ) (q : Progress D.Dev) → MayOpenList D.Dev.Device.told plan.now parts width q self.old.outer (seen S.view tree.old) → TriesList D.Dev.Device.told plan.now parts width list.now q self.old.outer self.new.outer (D.told depot.old) (D.told depot.new) (seen S.view tree.old) (seen S.view tree.new) result }
        ensures same { self.new ≡ record self.old { outer = self.new.outer } }
        ensures fits { Fits S.view S.fits tree.new desk.new }
        ensures others { OthersFit S.view S.fits outer_name desk.old desk.new }
    {
        self.outer.scope = open_child(tree, desk);
        let device = open_device(alloc, &list.path, depot)?;
        let row = plan.tables().len() as u32;
        tree.acquired(desk, self.outer.scope, row, Held::new(device));
        Ok(())
    }

    /// Gives the next line a stream, unless it is one too many or bad.
    fn give_line<V: Device, S: RowSeat<Pay = Held<V>>>(
        &mut self,
        alloc: Global,
        tree: &mut Tree<S>,
        desk: &mut S::Desk,
        plan: &Plan,
        line: &[u8],
    ) -> Next
        requires fits { Fits S.view S.fits tree.old desk.old }
        requires has { (parts : List Part_told) × (width : ℕ) × (l : List_told) × (first : V) × (lines : List (List ℕ)) × (q : Progress V) × HasLine V.told plan.now parts width l first lines q self.old line.now (seen S.view tree.old) }
        ensures comes { (parts : List Part_told) (width : ℕ) (l : List_told) (first : V) (lines : List (List ℕ)) (q : Progress V) → HasLine V.told plan.now parts width l first lines q self.old line.now (seen S.view tree.old) → (more : List (List ℕ)) × ComesOfList V.told plan.now parts width l first lines q self.old.outer self.new (seen S.view tree.old) (seen S.view tree.new) result more }
        ensures fits { Fits S.view S.fits tree.new desk.new }
        ensures others { OthersFit S.view S.fits outer_name desk.old desk.new }
    {
        if self.outer.leased == plan.stream_limit() {
            return Next::Over(How::Fault(Code::TooMany));
        }
        let text = text_of(line);
        if is_bad(plan, text) {
            return Next::Over(How::Fault(Code::BadPath));
        }
        let Ok(path) = Word::of(alloc, text) else {
            return Next::Over(How::Memory);
        };
        let stream = self.outer.leased;
        let Ok(lease) = lease_next(alloc, tree, desk, self.outer.scope, stream) else {
            return Next::Over(How::Memory);
        };
        self.outer.leased += 1;
        Next::Listed(lease, path)
    }

    /// Closes the scope of the list where it is done.
    fn end_list<V: Device, S: RowSeat<Pay = Held<V>>>(
        &mut self,
        tree: &mut Tree<S>,
        desk: &mut S::Desk,
        how: How,
    ) -> Next
        requires fits { Fits S.view S.fits tree.old desk.old }
        requires ended { (p : PlanMeant) × (parts : List Part_told) × (width : ℕ) × (l : List_told) × (first : V) × (lines : List (List ℕ)) × (q : Progress V) × (1 ≤ length parts) × HasEnded V.told p parts width l first lines q self.old.outer (seen S.view tree.old) how }
        ensures comes { (p : PlanMeant) (parts : List Part_told) (width : ℕ) (l : List_told) (first : V) (lines : List (List ℕ)) (q : Progress V) → 1 ≤ length parts → HasEnded V.told p parts width l first lines q self.old.outer (seen S.view tree.old) how → (more : List (List ℕ)) × ComesOfList V.told p parts width l first lines q self.old.outer self.new (seen S.view tree.old) (seen S.view tree.new) result more }
        ensures fits { Fits S.view S.fits tree.new desk.new }
        ensures others { OthersFit S.view S.fits outer_name desk.old desk.new }
    {
        match how {
            How::Done => {
                close_child(tree, desk, self.outer.scope);
                Next::Over(how)
            }
            _ => Next::Over(how),
        }
    }

    /// Pulls the list, which was opened.
    fn pull_list<V: Device, S: RowSeat<Pay = Held<V>>>(
        &mut self,
        alloc: Global,
        tree: &mut Tree<S>,
        desk: &mut S::Desk,
        plan: &Plan,
    ) -> Next
        requires fits { Fits S.view S.fits tree.old desk.old }
        requires may { (parts : List Part_told) × (width : ℕ) × (l : List_told) × (first : V) × (lines : List (List ℕ)) × (q : Progress V) × (1 ≤ length parts) × MayRead V.told plan.now parts width l first lines q self.old (seen S.view tree.old) }
        ensures comes { (parts : List Part_told) (width : ℕ) (l : List_told) (first : V) (lines : List (List ℕ)) (q : Progress V) → 1 ≤ length parts → MayRead V.told plan.now parts width l first lines q self.old (seen S.view tree.old) → (more : List (List ℕ)) × ComesOfList V.told plan.now parts width l first lines q self.old.outer self.new (seen S.view tree.old) (seen S.view tree.new) result more }
        ensures fits { Fits S.view S.fits tree.new desk.new }
        ensures others { OthersFit S.view S.fits outer_name desk.old desk.new }
    {
        let row = plan.tables().len() as u32;
        let Some(list) = &mut self.list else {
            unreachable!();
        };
        match next_line(alloc, tree, row, list) {
            Listed::Line(line) => self.give_line::<V, S>(alloc, tree, desk, plan, line.as_slice()),
            Listed::Over(how) => self.end_list::<V, S>(tree, desk, how),
        }
    }

    /// Goes on behind the last part: opens the list, where there is one, and pulls it.
    fn begin_list<D: Depot, S: RowSeat<Pay = Held<D::Dev>>>(
        &mut self,
        alloc: Global,
        tree: &mut Tree<S>,
        desk: &mut S::Desk,
        plan: &Plan,
        list: &ListSpec,
        depot: &mut D,
    ) -> Next
        requires fits { Fits S.view S.fits tree.old desk.old }
        requires list { plan.now.list ≡ Some list.now }
        requires may { (parts : List Part_told) × (width : ℕ) × (q : Progress D.Dev) × MayOpenList D.Dev.Device.told plan.now parts width q self.old.outer (seen S.view tree.old) }
        ensures begins { (parts : List Part_told) (width : ℕ) (q : Progress D.Dev) → MayOpenList D.Dev.Device.told plan.now parts width q self.old.outer (seen S.view tree.old) → (opened : List (Result D.Dev Not_read)) × (more : List (List ℕ)) × BeginsList D.Dev.Device.told plan.now parts width list.now q self.old.outer self.new (D.told depot.old) (D.told depot.new) (seen S.view tree.old) (seen S.view tree.new) result opened more }
        ensures fits { Fits S.view S.fits tree.new desk.new }
        ensures others { OthersFit S.view S.fits outer_name desk.old desk.new }
    {
        match self.open_list::<D, S>(alloc, tree, desk, plan, list, depot) {
            Ok(()) => {}
            Err(NotRead::Fault(code)) => return Next::Over(How::Fault(code)),
            Err(NotRead::Memory) => return Next::Over(How::Memory),
        }
        let Ok(reader) = new_list(alloc) else {
            return Next::Over(How::Memory);
        };
        self.list = Some(reader);
        self.pull_list::<D::Dev, S>(alloc, tree, desk, plan)
    }

    /// Pulls the outer stream once. The described streams come first, and behind them those of the
    /// list's lines.
    pub fn pull<D: Depot, S: RowSeat<Pay = Held<D::Dev>>>(
        &mut self,
        alloc: Global,
        tree: &mut Tree<S>,
        desk: &mut S::Desk,
        parts: &[OuterPart],
        plan: &Plan,
        depot: &mut D,
    ) -> Next
        requires fits { Fits S.view S.fits tree.old desk.old }
        requires limit { length parts.now < 2 ^ 32 }
        requires main { (width : ℕ) × (openings : List (Result D.Dev Not_read)) × (lines : List (List ℕ)) × (q : Progress D.Dev) × IsSourceAt D.Dev.Device.told plan.now parts.now width openings lines q self.old (seen S.view tree.old) }
        ensures pulls { (width : ℕ) (openings : List (Result D.Dev Not_read)) (lines : List (List ℕ)) (q : Progress D.Dev) → IsSourceAt D.Dev.Device.told plan.now parts.now width openings lines q self.old (seen S.view tree.old) → PullsAll D.Dev.Device.told plan.now parts.now width openings lines q self.old self.new (D.told depot.old) (D.told depot.new) (seen S.view tree.old) (seen S.view tree.new) result }
        ensures fits { Fits S.view S.fits tree.new desk.new }
        ensures others { OthersFit S.view S.fits outer_name desk.old desk.new }
    {
        if self.list.is_some() {
            return self.pull_list::<D::Dev, S>(alloc, tree, desk, plan);
        }
        let tables = plan.tables().as_slice();
        match self
            .outer
            .pull::<D, S>(alloc, tree, desk, parts, tables, depot)
        {
            NextOfParts::Leased(lease) => Next::Leased(lease),
            NextOfParts::Over(how) => match how {
                How::Done => match plan.list() {
                    Some(list) => self.begin_list::<D, S>(alloc, tree, desk, plan, list, depot),
                    None => Next::Over(How::Done),
                },
                _ => Next::Over(how),
            },
        }
    }
}
