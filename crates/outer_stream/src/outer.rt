//! The outer stream of a plan.
ghost use Rattle.std.specs.Prelude.{◌≡◌, ◌≢◌, ℕ, suc, ◌+◌, ◌*◌, ◌-◌, ◌^◌, ◌<◌, ◌≤◌, [], length, Some, None};
ghost use Rattle.std.specs.List.{slice_get};
ghost use Rattle.chunk_core.specs.Lists.{IsAmong};
ghost use Rattle.csv_pipes.specs.Dictionaries.{Dictionary};
ghost use Rattle.join_tree.specs.Mains.{IsMain};
ghost use Rattle.join_tree.specs.Progress.{Progress};
ghost use Rattle.pull_stepper.specs.Held.{FinishesDevice};
ghost use Rattle.res_ledger.specs.Own.{opens};
ghost use Rattle.res_ledger.specs.declared.event.StreamNo.TheVariants.{Outer as outer_name};
ghost use Rattle.row_seat.specs.Views.{OthersFit};
ghost use Rattle.scope_tree.specs.Calls.{IsOpenScope};
ghost use Rattle.scope_tree.specs.Trace.{owed, trace};
ghost use Rattle.scope_tree.specs.Trees.{Fits, seen};
ghost use Rattle.outer_stream.specs.Parts.{closing, opening};
ghost use Rattle.outer_stream.specs.declared.next.OuterPart.{OuterPart};
ghost use Rattle.outer_stream.specs.Pulls.{IsOpenAt, MayRead, NextPart, Pulls, ReadsPart};
ghost use Rattle.outer_stream.specs.Steps.{Steps, children};

use crate::next::{Next, OuterPart};
use chunk_core::How;
use csv_pipes::Dicts;
use device_port::{Depot, Device};
use join_tree::{close_child, lease_next, open_child};
use outer_tables::{NotRead, read_tables};
use pipeline_desc::TableSpec;
use pull_stepper::Held;
use row_seat::RowSeat;
use scope_tree::Tree;
use std::alloc::{AllocError, Global};

/// The outer stream of a plan, between its pulls.
#[derive(Drop)]
pub struct Outer {
    /// How many streams it gave.
    pub leased: u32,
    /// How many parts were begun.
    pub part: u32,
    /// The scope of the part that was begun last, and the number behind its last stream.
    pub scope: u32,
    pub behind: u32,
    /// The next table.
    pub table: u32,
    /// The dictionaries of the tables that were read.
    pub tables: Dicts,
}

impl Outer {
    /// One that wasn't pulled.
    pub fn new(alloc: Global) -> Outer
        ensures { result ≡ record { leased = 0; part = 0; scope = 0; behind = 0; table = 0; tables = [] } }
    {
        Outer {
            leased: 0,
            part: 0,
            scope: 0,
            behind: 0,
            table: 0,
            tables: Dicts::new(alloc),
        }
    }

    /// Closes the child scope of the part that was begun last, where it has one.
    fn leave<V: Device, S: RowSeat<Pay = Held<V>>>(
        &mut self,
        tree: &mut Tree<S>,
        desk: &mut S::Desk,
    )
        requires fits { Fits S.view S.fits tree.old desk.old }
        requires main { (width n : ℕ) × (q : Progress V) × IsMain (FinishesDevice V.told) width n (seen S.view tree.old) q × (q.root ≡ None) }
        requires scope { IsOpenScope (seen S.view tree.old) self.old.scope }
        ensures same { self.new ≡ record self.old { scope = 0 } }
        ensures step { Steps V.told (closing self.old.scope) 0 0 (seen S.view tree.old) (seen S.view tree.new) }
        ensures fits { Fits S.view S.fits tree.new desk.new }
        ensures others { OthersFit S.view S.fits outer_name desk.old desk.new }
    {
        if self.scope == 0 {
            return;
        }
        close_child(tree, desk, self.scope);
        self.scope = 0;
    }

    /// Opens a child scope for the next part, unless it is the first.
    fn enter<V: Device, S: RowSeat<Pay = Held<V>>>(
        &mut self,
        tree: &mut Tree<S>,
        desk: &mut S::Desk,
    )
        requires fits { Fits S.view S.fits tree.old desk.old }
        requires main { (width n : ℕ) × (q : Progress V) × IsMain (FinishesDevice V.told) width n (seen S.view tree.old) q × (q.root ≡ None) }
        requires left { self.old.scope ≡ 0 }
        requires room { self.old.part ≢ 0 → length (opens (trace (seen S.view tree.old).seat)) + 1 < (seen S.view tree.old).scopes }
        requires free { self.old.part ≢ 0 → owed (seen S.view tree.old).seat + 2 ≤ (seen S.view tree.old).seat.spare }
        ensures same { self.new ≡ record self.old { scope = self.new.scope } }
        ensures first { self.old.part ≡ 0 → self.new.scope ≡ 0 }
        ensures child { self.old.part ≢ 0 → self.new.scope ≡ length (opens (trace (seen S.view tree.old).seat)) + 1 }
        ensures step { Steps V.told (opening self.new.scope) (children self.new.scope) (2 * children self.new.scope) (seen S.view tree.old) (seen S.view tree.new) }
        ensures scope { IsOpenScope (seen S.view tree.new) self.new.scope }
        ensures fits { Fits S.view S.fits tree.new desk.new }
        ensures others { OthersFit S.view S.fits outer_name desk.old desk.new }
    {
        if self.part == 0 {
            return;
        }
        self.scope = open_child(tree, desk);
    }

    /// Reads the tables of the next part.
    fn read_part<D: Depot, S: RowSeat<Pay = Held<D::Dev>>>(
        &mut self,
        alloc: Global,
        tree: &mut Tree<S>,
        desk: &mut S::Desk,
        parts: &[OuterPart],
        tables: &[TableSpec],
        depot: &mut D,
    ) -> Result<(), NotRead>
        requires fits { Fits S.view S.fits tree.old desk.old }
        requires main { (width n : ℕ) × (q : Progress D.Dev) × IsMain (FinishesDevice D.Dev.Device.told) width n (seen S.view tree.old) q × (q.root ≡ None) }
        requires limits { (length parts.now < 2 ^ 32) × (length tables.now < 2 ^ 32) }
        requires may { (p : OuterPart) × (slice_get parts.now self.old.part ≡ Some p) × MayRead (length tables.now) p self.old (seen S.view tree.old) }
        ensures reads { (p : OuterPart) → slice_get parts.now self.old.part ≡ Some p → ReadsPart D.Dev.Device.told tables.now p self.old self.new (D.told depot.old) (D.told depot.new) (seen S.view tree.old) (seen S.view tree.new) result }
        ensures fits { Fits S.view S.fits tree.new desk.new }
        ensures others { OthersFit S.view S.fits outer_name desk.old desk.new }
    {
        let part = parts[self.part as usize];
        let rows = part.tables;
        let tables = &tables[rows.from as usize..rows.to as usize];
        read_tables(
            alloc,
            tree,
            desk,
            self.scope,
            rows.from,
            tables,
            &mut self.tables,
            depot,
        )?;
        self.part += 1;
        self.behind = part.behind;
        self.table = rows.to;
        Ok(())
    }

    /// Leaves the part that was begun last, and begins the next one, where there is one.
    fn next_part<D: Depot, S: RowSeat<Pay = Held<D::Dev>>>(
        &mut self,
        alloc: Global,
        tree: &mut Tree<S>,
        desk: &mut S::Desk,
        parts: &[OuterPart],
        tables: &[TableSpec],
        depot: &mut D,
    ) -> Result<bool, NotRead>
        requires fits { Fits S.view S.fits tree.old desk.old }
        requires limits { (length parts.now < 2 ^ 32) × (length tables.now < 2 ^ 32) }
        requires main { (n width N : ℕ) × (q : Progress D.Dev) × IsOpenAt D.Dev.Device.told parts.now tables.now n width N q self.old (seen S.view tree.old) }
        requires given { self.old.leased ≡ self.old.behind }
        ensures next { (n width N : ℕ) (q : Progress D.Dev) → IsOpenAt D.Dev.Device.told parts.now tables.now n width N q self.old (seen S.view tree.old) → NextPart D.Dev.Device.told parts.now tables.now n width N q self.old self.new (D.told depot.old) (D.told depot.new) (seen S.view tree.old) (seen S.view tree.new) result }
        ensures fits { Fits S.view S.fits tree.new desk.new }
        ensures others { OthersFit S.view S.fits outer_name desk.old desk.new }
    {
        self.leave::<D::Dev, S>(tree, desk);
        if self.part as usize == parts.len() {
            return Ok(false);
        }
        self.enter::<D::Dev, S>(tree, desk);
        self.read_part::<D, S>(alloc, tree, desk, parts, tables, depot)?;
        Ok(true)
    }

    /// Pulls the outer stream once. Parts are begun until one has a stream that wasn't given yet, and
    /// its scope is leased for that stream.
    pub fn pull<D: Depot, S: RowSeat<Pay = Held<D::Dev>>>(
        &mut self,
        alloc: Global,
        tree: &mut Tree<S>,
        desk: &mut S::Desk,
        parts: &[OuterPart],
        tables: &[TableSpec],
        depot: &mut D,
    ) -> Next
        requires fits { Fits S.view S.fits tree.old desk.old }
        requires limits { (length parts.now < 2 ^ 32) × (length tables.now < 2 ^ 32) }
        requires main { (n width N : ℕ) × (q : Progress D.Dev) × IsOpenAt D.Dev.Device.told parts.now tables.now n width N q self.old (seen S.view tree.old) }
        ensures pulls { (n width N : ℕ) (q : Progress D.Dev) → IsOpenAt D.Dev.Device.told parts.now tables.now n width N q self.old (seen S.view tree.old) → Pulls D.Dev.Device.told parts.now tables.now n width N q self.old self.new (D.told depot.old) (D.told depot.new) (seen S.view tree.old) (seen S.view tree.new) result }
        ensures fits { Fits S.view S.fits tree.new desk.new }
        ensures others { OthersFit S.view S.fits outer_name desk.old desk.new }
    {
        while self.leased == self.behind {
            match self.next_part::<D, S>(alloc, tree, desk, parts, tables, depot) {
                Ok(true) => {}
                Ok(false) => return Next::Over(How::Done),
                Err(NotRead::Fault(code)) => return Next::Over(How::Fault(code)),
                Err(NotRead::Memory) => return Next::Over(How::Memory),
            }
        }
        match lease_next(alloc, tree, desk, self.scope, self.leased) {
            Ok(lease) => {
                self.leased += 1;
                Next::Leased(lease)
            }
            Err(AllocError) => Next::Over(How::Memory),
        }
    }
}
