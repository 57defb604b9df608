//! A node that is run turn by turn.
ghost use Rattle.std.specs.Prelude.{◌≡◌, ◌<◌, ◌≤◌, true, false, Some, None, IfOk, OnErr};
ghost use Rattle.std.specs.Borrow.{Lends, sem};
ghost use Rattle.chunk_core.specs.declared.code.Exit.TheVariants as exit;
ghost use Rattle.chunk_core.specs.declared.code.How.TheVariants as how;
ghost use Rattle.pull_turns.specs.Around.{Affords, IsClosedWith};
ghost use Rattle.chunk_core.specs.Tables.{Values};
ghost use Rattle.pull_turns.specs.Piping.{standing};
ghost use Rattle.pull_turns.specs.Rest.{CanStep};
ghost use Rattle.pull_turns.specs.Sizes.{HasNoPipe, Sized, given, given_first};
ghost use Rattle.pull_turns.specs.Turned.{Moved, Spends, SpendsWithin};
ghost use Rattle.pull_turns.specs.Moves.{how_of};
ghost use Rattle.pull_turns.specs.Led.{CanBeCut, IsShut, TouchesOnly, Turns, Uncons};
ghost use Rattle.pull_turns.specs.Lending.{lends_outside};
ghost use Rattle.pull_turns.specs.Work.{Lessens};
ghost use Rattle.pull_turns.specs.declared.rest.Rest.TheVariants as rest;

use crate::outside::Outside;
use crate::reading::SparePiece;
use crate::rest::Rest;
use crate::step::{leave_at_end, step};
use crate::turn::Turn;
use chunk_core::{Exit, How, Load};
use pull_nodes::{Node, PipeState};
use std::alloc::{AllocError, Global};

/// A node that is run turn by turn over its devices and scopes, and over pipes with states of the
/// type `F`.
///
/// After want of memory it may only be halted.
#[derive(Drop)]
pub struct Runner<O, F> {
    alloc: Global,
    rest: Rest<F>,
    outside: O,
    chunk: u32,
    spare: SparePiece,
    how: Option<How>,
    wanting: bool,
}

/// What comes first of a node.
#[derive(Drop)]
pub enum Unconsed {
    /// Elements, at least one.
    Chunk(Load),
    /// The end, which is `Done` or a fault.
    End(How),
    /// Nothing in the turns that were made.
    Again,
}

impl<O: Outside, F: PipeState> Runner<O, F> {
    /// A node that is about to run, with reads of at most `chunk` bytes.
    pub fn over(alloc: Global, node: Node, outside: O, chunk: u32) -> Runner<O, F>
        ensures rest { result.rest ≡ rest.Start node }
        ensures outside { result.outside ≡ outside }
        ensures chunk { result.chunk ≡ chunk }
        ensures runs { (result.how ≡ None) × (result.wanting ≡ false) }
    {
        Runner {
            alloc,
            rest: Rest::Start(node),
            outside,
            chunk,
            spare: SparePiece::new(),
            how: None,
            wanting: false,
        }
    }

    /// What it is run over.
    pub fn outside_mut(&mut self) -> &mut O
        ensures* back { sem 𝓛 (lends_outside O.row F.row self.entry result) }
        ensures value { result.now ≡ self.old.outside }
    {
        &mut self.outside
    }

    /// Makes one turn. At the end each scope is closed, and each device, with the exit of the end.
    pub fn turn(&mut self, tables: &F::Tables, desk: &mut O::Desk) -> Result<Turn, AllocError>
        requires fits { O.fits self.old.outside desk.old }
        requires runs { (self.old.how ≡ None) × (self.old.wanting ≡ false) }
        requires can { CanStep (standing F.stands F.comes (F.values tables.now)) (O.seen self.old.outside) 0 self.old.rest }
        requires chunk { 0 < self.old.chunk }
        ensures turned { IfOk result (λ t. Turns (standing F.stands F.comes (F.values tables.now)) (O.seen self.old.outside) (O.seen self.new.outside) self.old.chunk self.old.rest self.new.rest t) }
        ensures work { IfOk result (λ t. Lessens F.due self.old.rest self.new.rest t) }
        ensures sized { IfOk result (λ t. HasNoPipe self.old.rest → Sized self.old.chunk self.old.rest self.new.rest (given t)) }
        ensures how { IfOk result (λ t. self.new.how ≡ how_of t) }
        ensures sound { IfOk result (λ t. self.new.wanting ≡ false) }
        ensures wanting { OnErr result ((self.new.wanting ≡ true) × (self.new.how ≡ None)) }
        ensures spent { OnErr result (SpendsWithin (O.seen self.old.outside) (O.seen self.new.outside) self.old.rest) }
        ensures stopped { OnErr result (Moved (O.seen self.old.outside) (O.seen self.new.outside) self.old.rest) }
        ensures cut { OnErr result (CanBeCut (standing F.stands F.comes (F.values tables.now)) (O.seen self.new.outside).told self.old.rest) }
        ensures chunk { self.new.chunk ≡ self.old.chunk }
        ensures fits { O.fits self.new.outside desk.new }
        ensures since { O.since self.old.outside desk.old self.new.outside desk.new }
    {
        self.wanting = true;
        let turn = step(
            self.alloc,
            tables,
            &mut self.rest,
            &mut self.outside,
            desk,
            0,
            self.chunk,
            &mut self.spare,
            false,
        )?;
        self.wanting = false;
        leave_at_end(&mut self.outside, desk, 0, &turn);
        self.how = turn.how();
        Ok(turn)
    }

    /// Makes turns until one gives elements or the end, but not more than `turns`.
    pub fn uncons(
        &mut self,
        tables: &F::Tables,
        desk: &mut O::Desk,
        turns: u64,
    ) -> Result<Unconsed, AllocError>
        requires fits { O.fits self.old.outside desk.old }
        requires runs { (self.old.how ≡ None) × (self.old.wanting ≡ false) }
        requires can { CanStep (standing F.stands F.comes (F.values tables.now)) (O.seen self.old.outside) 0 self.old.rest }
        requires chunk { 0 < self.old.chunk }
        requires turns { 1 ≤ turns }
        ensures first { IfOk result (λ u. Uncons (standing F.stands F.comes (F.values tables.now)) O.seen self.old.chunk turns self.old.outside self.new.outside self.old.rest self.new.rest self.new.how u) }
        ensures sized { IfOk result (λ u. HasNoPipe self.old.rest → Sized self.old.chunk self.old.rest self.new.rest (given_first u)) }
        ensures spends { IfOk result (λ u. Spends (O.seen self.old.outside) (O.seen self.new.outside) self.old.rest self.new.rest) }
        ensures sound { IfOk result (λ u. self.new.wanting ≡ false) }
        ensures wanting { OnErr result ((self.new.wanting ≡ true) × (self.new.how ≡ None)) }
        ensures spent { OnErr result (SpendsWithin (O.seen self.old.outside) (O.seen self.new.outside) self.old.rest) }
        ensures stopped { OnErr result ((O.seen self.new.outside).opened 0 × TouchesOnly (O.seen self.old.outside).told (O.seen self.new.outside).told self.old.rest) }
        ensures cut { OnErr result (CanBeCut (standing F.stands F.comes (F.values tables.now)) (O.seen self.new.outside).told self.old.rest) }
        ensures chunk { self.new.chunk ≡ self.old.chunk }
        ensures fits { O.fits self.new.outside desk.new }
        ensures since { O.since self.old.outside desk.old self.new.outside desk.new }
    {
        for _turn in 0..turns {
            match self.turn(tables, desk)? {
                Turn::Chunk(load) => return Ok(Unconsed::Chunk(load)),
                Turn::Quiet => (),
                Turn::Done => return Ok(Unconsed::End(How::Done)),
                Turn::Fault(code) => return Ok(Unconsed::End(How::Fault(code))),
            }
        }
        Ok(Unconsed::Again)
    }

    /// How it has ended, where it has.
    pub fn how(&self) -> Option<How>
        ensures { result ≡ self.now.how }
    {
        self.how
    }

    /// Stops the run, and closes each scope and each device as canceled.
    pub fn halt(&mut self, desk: &mut O::Desk)
        requires fits { O.fits self.old.outside desk.old }
        requires runs { self.old.how ≡ None }
        requires root { (O.seen self.old.outside).opened 0 }
        ensures shut { IsShut (O.seen self.new.outside) }
        ensures exit { IsClosedWith (O.seen self.new.outside) 0 exit.Canceled }
        ensures tells { TouchesOnly {F = F} (O.seen self.old.outside).told (O.seen self.new.outside).told rest.Nil }
        ensures affords { Affords (O.seen self.old.outside) (O.seen self.new.outside) }
        ensures cut { (t : Values) → CanStep (standing F.stands F.comes t) (O.seen self.old.outside) 0 self.old.rest → CanBeCut (standing F.stands F.comes t) (O.seen self.new.outside).told self.old.rest }
        ensures halted { self.old.wanting ≡ false → self.new.how ≡ Some how.Halted }
        ensures memory { self.old.wanting ≡ true → self.new.how ≡ Some how.Memory }
        ensures wanting { self.new.wanting ≡ self.old.wanting }
        ensures chunk { self.new.chunk ≡ self.old.chunk }
        ensures fits { O.fits self.new.outside desk.new }
        ensures since { O.since self.old.outside desk.old self.new.outside desk.new }
    {
        self.outside.leave(desk, 0, Exit::Canceled);
        self.how = Some(if self.wanting {
            How::Memory
        } else {
            How::Halted
        });
    }

    /// What it was run over, and how it ended.
    pub fn end(self) -> (O, How)
        requires ended { (e : _) × (self.how ≡ Some e) }
        ensures outside { result.0 ≡ self.outside }
        ensures how { self.how ≡ Some result.1 }
    {
        let Runner {
            alloc: _,
            rest: _,
            outside,
            chunk: _,
            spare: _,
            how,
            wanting: _,
        } = self;
        match how {
            Some(how) => (outside, how),
            None => unreachable!(),
        }
    }
}
