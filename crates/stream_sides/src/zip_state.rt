//! Lines of two sides in pairs.
ghost use Rattle.std.specs.Prelude.{◌≡◌, ◌++◌, [], ◌∷◌, IfOk, OnOk, OnErr, map, length, drop};
ghost use Rattle.chunk_core.specs.Elements.{elements, kind_of};
ghost use Rattle.chunk_core.specs.Elements.Element.{Line, Row};
ghost use Rattle.chunk_core.specs.Elements.LoadKind.{Lines, Rows};
ghost use Rattle.pull_nodes.specs.Pairs.{pairs_of};
ghost use Rattle.stream_sides.specs.Waiting.{waits};
ghost use Rattle.stream_sides.specs.declared.side.Side.{Side};
ghost use Rattle.stream_sides.specs.Sides.{AddsPairs, IsNeeded, Sides, of_side, paired, unpaired, with_more};

use crate::side::Side;
use chunk_core::{Chunk, Line, Load, Row, SpareRows};
use std::alloc::{AllocError, Global};
use std::cmp;
use std::marker::Model;

/// What waits of one side for the other one. Contracts see the elements of each side that wait.
#[derive(Drop)]
pub struct ZipState {
    /// Whose lines wait, where some do.
    side: Side,
    waiting: Option<Chunk<Line>>,
    spare: SpareRows,
    alloc: Global,
}

impl Model for ZipState {
    ghost use Rattle.stream_sides.specs.Sides.{Sides};
    ghost use Rattle.stream_sides.specs.Waiting.{waits};

    ghost Value = { Sides };

    ghost view = { λ state. waits state.side state.waiting };
}

fn into_lines(load: Load) -> Chunk<Line>
    requires { kind_of load ≡ Lines }
    ensures { elements load ≡ map Line result }
{
    match load {
        Load::Lines(lines) => lines,
        _ => unreachable!(),
    }
}

fn row_of(
    alloc: Global,
    spare: &mut SpareRows,
    left: &Line,
    right: &Line,
) -> Result<Row, AllocError>
    ensures { IfOk result (λ row. row ≡ left.now ∷ right.now ∷ []) }
{
    let mut fields = spare.empty(alloc)?;
    fields.push(spare.line(alloc, left.as_slice())?)?;
    fields.push(spare.line(alloc, right.as_slice())?)?;
    Ok(Row::of_vec(fields))
}

/// The pairs of the common length.
fn rows_of(
    alloc: Global,
    spare: &mut SpareRows,
    lefts: &[Line],
    rights: &[Line],
) -> Result<Vec<Row>, AllocError>
    ensures { IfOk result (λ rows. map Row rows.items ≡ pairs_of (map Line lefts.now) (map Line rights.now)) }
{
    let mut rows = Vec::with_capacity(alloc, cmp::min(lefts.len(), rights.len()))?;
    for (left, right) in lefts.iter().zip(rights) {
        rows.push(row_of(alloc, spare, left, right)?)?;
    }
    Ok(rows)
}

/// What stands behind the first `n` lines; an empty chunk isn't kept, so that its vector is let go.
fn behind(mut lines: Chunk<Line>, n: usize) -> Result<Option<Chunk<Line>>, AllocError>
    ensures { IfOk result (λ rest. (side : Side) → waits side rest ≡ waits side (Some (drop n lines))) }
{
    if n < lines.len() {
        lines.split(n)?;
        Ok(Some(lines))
    } else {
        Ok(None)
    }
}

impl ZipState {
    /// Nothing waits. It takes no memory, and keeps the allocator.
    pub fn new(alloc: Global) -> ZipState
        ensures { result ≡ record { left = []; right = [] } }
    {
        ZipState {
            side: Side::Left,
            waiting: None,
            spare: SpareRows::new(alloc),
            alloc,
        }
    }

    /// The side of which a load is wanted; nothing of it waits.
    pub fn need(&self) -> Side
        ensures left { IsNeeded self.now result }
        ensures none { of_side self.now result ≡ [] }
    {
        match (&self.waiting, self.side) {
            (Some(lines), Side::Left) if !lines.is_empty() => Side::Right,
            _ => Side::Left,
        }
    }

    /// Takes a load of the side that is needed, and gives the pairs that are now whole.
    #[tactic(auto, using(crate::proofs::Feeding::adds_pairs))]
    pub fn give(&mut self, side: Side, load: Load) -> Result<Load, AllocError>
        requires needed { IsNeeded self.old side }
        requires lines { kind_of load ≡ Lines }
        ensures kind { IfOk result (λ given. kind_of given ≡ Rows) }
        ensures pairs { IfOk result (λ given. elements given ≡ paired (with_more self.old side (elements load))) }
        ensures rest { OnOk result (self.new ≡ unpaired (with_more self.old side (elements load))) }

        // Whatever came before, however it was cut.
        ensures whole { IfOk result (λ given. (all : Sides) → self.old ≡ unpaired all → AddsPairs all side (elements load) (elements given) self.new) }
        ensures err { OnErr result (self.new ≡ self.old) }
    {
        let lines = into_lines(load);
        self.spare.regain();
        let rows = self.pairs_with(side, lines.as_slice())?;
        let given = self.spare.give(self.alloc, rows)?;
        self.keep(side, lines, given.len())?;
        Ok(Load::Rows(given))
    }

    /// The pairs of what waits and of what came.
    fn pairs_with(&mut self, side: Side, lines: &[Line]) -> Result<Vec<Row>, AllocError>
        requires { IsNeeded self.old side }
        ensures pairs { IfOk result (λ rows. map Row rows.items ≡ paired (with_more self.old side (map Line lines.now))) }
        ensures same { self.new ≡ self.old }
    {
        let Some(waiting) = &self.waiting else {
            return Ok(Vec::new(self.alloc));
        };
        let (lefts, rights) = match side {
            Side::Left => (lines, waiting.as_slice()),
            Side::Right => (waiting.as_slice(), lines),
        };
        rows_of(self.alloc, &mut self.spare, lefts, rights)
    }

    /// Keeps what stands behind so many pairs.
    fn keep(&mut self, side: Side, lines: Chunk<Line>, pairs: usize) -> Result<(), AllocError>
        requires needed { IsNeeded self.old side }
        requires count { pairs ≡ length (paired (with_more self.old side (map Line lines))) }
        ensures rest { OnOk result (self.new ≡ unpaired (with_more self.old side (map Line lines))) }
        ensures err { OnErr result (self.new ≡ self.old) }
    {
        match &mut self.waiting {
            Some(waiting) if pairs < waiting.len() => {
                waiting.split(pairs)?;
            }
            _ => {
                self.waiting = behind(lines, pairs)?;
                self.side = side;
            }
        }
        Ok(())
    }
}
