//! A node that is run over a tree of scopes and its devices.
ghost use Rattle.std.specs.Prelude.{◌≡◌, ◌≤◌, None, IfErr, IfOk, OnErr};
ghost use Rattle.pull_turns.specs.Led.{CanBeCut};
ghost use Rattle.pull_turns.specs.Piping.{standing};
ghost use Rattle.pull_turns.specs.Work.{Lessens};
ghost use Rattle.row_seat.specs.Views.{OthersFit};
ghost use Rattle.scope_tree.specs.Calls.{IsOpenScope};
ghost use Rattle.scope_tree.specs.Trees.{Fits, IsConsistent, seen};
ghost use Rattle.pull_stepper.specs.Held.{FinishesDevice};
ghost use Rattle.pull_stepper.specs.Sites.{Since, told_at};

use crate::held::Held;
use crate::places::{first_place, from_slots, to_slots};
use crate::resources::Resources;
use chunk_core::{How, List};
use device_port::Device;
use pull_nodes::{Node, PipeState};
use pull_turns::{Runner, Turn, Unconsed};
use row_seat::RowSeat;
use scope_tree::Tree;
use std::alloc::{AllocError, Global};

/// A node that is run turn by turn over the scopes of a tree, its own devices, and pipes with
/// states of the type `F`, which look up in its tables.
///
/// After want of memory it may only be halted. Once it has ended it is taken apart by `end`.
#[derive(Drop)]
pub struct Stepper<S: RowSeat, V, F: PipeState> {
    pub(crate) runner: Runner<Resources<S, V>, F>,
    room: Vec<V>,
    tables: F::Tables,
}

/// What was to be run, where there was no memory.
pub struct Unmade<S: RowSeat, V> {
    pub tree: Tree<S>,
    pub devices: List<V>,
}

/// What is left of a stepper that has ended. The devices that were acquired stand on the tree's
/// shelf.
pub struct Ended<S: RowSeat, V> {
    pub tree: Tree<S>,
    pub how: How,
    pub unopened: List<V>,
}

impl<V: Device, S: RowSeat<Pay = Held<V>>, F: PipeState> Stepper<S, V, F> {
    ghost use Rattle.pull_stepper.specs.Steppers.{Works, stepping};
    ghost use Rattle.pull_stepper.specs.Stepping.{CanGo, StepperEnds, Halts, HasRoomFor, IsOver, IsSupplied, TakesTurn, Unconses, Wants, begun};

    /// A node that is about to run in the root of the tree, with reads of at most `chunk` bytes. The
    /// devices are those of the node's places from the least on. Needs memory; where it is wanting the
    /// tables are let go of.
    pub fn new(
        alloc: Global,
        node: Node,
        tree: Tree<S>,
        devices: List<V>,
        tables: F::Tables,
        chunk: u32,
    ) -> Result<Stepper<S, V, F>, Unmade<S, V>>
    where
        F::Tables: Drop,
        requires tree { IsConsistent S.view tree }
        requires supplied { IsSupplied V.told node devices }
        requires room { HasRoomFor (seen S.view tree) node }
        requires chunk { 1 ≤ chunk }
        ensures begun { IfOk result (λ s. stepping S.view F.values s ≡ begun node (seen S.view tree) devices (F.values tables) chunk) }
        ensures can { IfOk result (λ s. CanGo (standing F.stands F.comes) V.told (stepping S.view F.values s)) }
        ensures fits { IfOk result (λ s. (d : S.Desk) → Fits S.view S.fits tree d → Works S.view V.told S.fits s d) }
        ensures unmade { IfErr result (λ u. (u.tree ≡ tree) × (u.devices ≡ devices)) }
    {
        let from = first_place(&node).unwrap_or(0);
        let Ok(mut slots) = Vec::with_capacity(alloc, devices.len()) else {
            return Err(Unmade { tree, devices });
        };
        let mut room = devices.into_vec();
        to_slots(&mut room, &mut slots);
        let outside = Resources { tree, slots, from };
        Ok(Stepper {
            runner: Runner::over(alloc, node, outside, chunk),
            room,
            tables,
        })
    }

    /// Makes one turn. At the end each scope is closed, and each device.
    pub fn turn(&mut self, desk: &mut S::Desk) -> Result<Turn, AllocError>
        requires fits { Works S.view V.told S.fits self.old desk.old }
        requires can { CanGo (standing F.stands F.comes) V.told (stepping S.view F.values self.old) }
        ensures steps { IfOk result (λ t. TakesTurn (standing F.stands F.comes) V.told (stepping S.view F.values self.old) (stepping S.view F.values self.new) t) }
        ensures work { IfOk result (λ t. Lessens F.due (stepping S.view F.values self.old).rest (stepping S.view F.values self.new).rest t) }
        ensures wants { OnErr result (Wants (standing F.stands F.comes) V.told (stepping S.view F.values self.old) (stepping S.view F.values self.new)) }
        ensures fits { Works S.view V.told S.fits self.new desk.new }
        ensures since { Since V.told (FinishesDevice V.told) (stepping S.view F.values self.old).site (stepping S.view F.values self.new).site }
        ensures others { OthersFit S.view S.fits (stepping S.view F.values self.old).site.tree.seat.by desk.old desk.new }
    {
        self.runner.turn(&self.tables, desk)
    }

    /// Makes turns until one gives elements or the end, but not more than `turns`.
    pub fn uncons(&mut self, desk: &mut S::Desk, turns: u64) -> Result<Unconsed, AllocError>
        requires fits { Works S.view V.told S.fits self.old desk.old }
        requires can { CanGo (standing F.stands F.comes) V.told (stepping S.view F.values self.old) }
        requires turns { 1 ≤ turns }
        ensures first { IfOk result (λ u. Unconses (standing F.stands F.comes) V.told turns (stepping S.view F.values self.old) (stepping S.view F.values self.new) u) }
        ensures wants { OnErr result (Wants (standing F.stands F.comes) V.told (stepping S.view F.values self.old) (stepping S.view F.values self.new)) }
        ensures fits { Works S.view V.told S.fits self.new desk.new }
        ensures since { Since V.told (FinishesDevice V.told) (stepping S.view F.values self.old).site (stepping S.view F.values self.new).site }
        ensures others { OthersFit S.view S.fits (stepping S.view F.values self.old).site.tree.seat.by desk.old desk.new }
    {
        self.runner.uncons(&self.tables, desk, turns)
    }

    /// How it has ended, where it has.
    pub fn how(&self) -> Option<How>
        ensures { result ≡ (stepping S.view F.values self.now).how }
    {
        self.runner.how()
    }

    /// Stops the run, and closes each scope and each device.
    pub fn halt(&mut self, desk: &mut S::Desk)
        requires fits { Works S.view V.told S.fits self.old desk.old }
        requires runs { (stepping S.view F.values self.old).how ≡ None }
        requires root { IsOpenScope (stepping S.view F.values self.old).site.tree 0 }
        ensures halts { Halts V.told (stepping S.view F.values self.old) (stepping S.view F.values self.new) }
        ensures cut { CanGo (standing F.stands F.comes) V.told (stepping S.view F.values self.old) → CanBeCut (standing F.stands F.comes (stepping S.view F.values self.old).tables) (told_at V.told (stepping S.view F.values self.new).site) (stepping S.view F.values self.old).rest }
        ensures fits { Works S.view V.told S.fits self.new desk.new }
        ensures since { Since V.told (FinishesDevice V.told) (stepping S.view F.values self.old).site (stepping S.view F.values self.new).site }
        ensures others { OthersFit S.view S.fits (stepping S.view F.values self.old).site.tree.seat.by desk.old desk.new }
    {
        self.runner.halt(desk)
    }

    /// The tree, how the run ended, and the devices that were never opened, in the order of their
    /// places. The tables are let go of.
    pub fn end(self) -> Ended<S, V>
    where
        F::Tables: Drop,
        requires fits { (d : S.Desk) × Works S.view V.told S.fits self d }
        requires over { IsOver V.told (stepping S.view F.values self) }
        ensures ends { StepperEnds V.told (stepping S.view F.values self) (seen S.view result.tree) result.how result.unopened }
        ensures fits { (d : S.Desk) → Works S.view V.told S.fits self d → Fits S.view S.fits result.tree d }
    {
        let Stepper {
            runner,
            mut room,
            tables: _,
        } = self;
        let (outside, how) = runner.end();
        let Resources {
            tree,
            slots,
            from: _,
        } = outside;
        from_slots(slots, &mut room);
        Ended {
            tree,
            how,
            unopened: List::of_vec(room),
        }
    }
}
