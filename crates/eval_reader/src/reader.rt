//! The lines of a stream, taken in groups.
ghost use Rattle.std.specs.Prelude.{◌≡◌, ◌++◌, ◌<◌, ◌≤◌, ◌↔◌, [], ◌∷◌, ℕ, List, None, IfOk, IsTrue, OnErr, OnOk, false};
ghost use Rattle.chunk_core.specs.Elements.{Element, elements};
ghost use Rattle.chunk_core.specs.Elements.LoadKind.{Lines};
ghost use Rattle.pull_stepper.specs.Steppers.{Works, stepping};
ghost use Rattle.pull_stepper.specs.Stepping.{CanGo, Stepping};
ghost use Rattle.pull_turns.specs.Piping.{HasKind, standing};
ghost use Rattle.eval_reader.specs.Reading.{GivesGroup, HasStopped, IsGrouping, ReaderWorks, ends_itself, seen_reader, text_of, work_of};

use crate::gathering::Gathering;
use crate::lines::{read_lines, stop};
use chunk_core::Load;
use device_port::Device;
use pull_nodes::PipeState;
use pull_stepper::{Held, Stepper};
use row_seat::RowSeat;
use std::alloc::{AllocError, Global};

/// A stepper that gives lines, and those that are gathered for the next group.
#[derive(Drop)]
pub struct Reader<S: RowSeat, V, F: PipeState> {
    pub(crate) stepper: Stepper<S, V, F>,
    pub(crate) gathering: Gathering,
}

impl<V: Device, S: RowSeat<Pay = Held<V>>, F: PipeState> Reader<S, V, F> {
    /// A reader of a stepper that gives lines.
    pub fn new(alloc: Global, stepper: Stepper<S, V, F>) -> Reader<S, V, F>
        ensures stepper { result.stepper ≡ stepper }
        ensures grouping { CanGo (standing F.stands F.comes) V.told (stepping S.view F.values stepper) → HasKind (standing F.stands F.comes (stepping S.view F.values stepper).tables) Lines (stepping S.view F.values stepper).rest → (n : ℕ) → IsGrouping (standing F.stands F.comes) V.told n (stepping S.view F.values stepper) (seen_reader S.view F.values result) [] }
    {
        Reader {
            stepper,
            gathering: Gathering::new(alloc),
        }
    }

    /// Makes a turn, of which lines may wait.
    fn read(&mut self, desk: &mut S::Desk) -> Result<(), AllocError>
        requires works { ReaderWorks S.view V.told S.fits self.old desk.old }
        requires runs { (stepping S.view F.values self.old.stepper).how ≡ None }
        requires none { self.old.gathering.lines ≡ [] }
        requires grouping { (a : Stepping V F) × (n : ℕ) × (groups : List (List Element)) × IsGrouping (standing F.stands F.comes) V.told n a (seen_reader S.view F.values self.old) groups }
        ensures grouping { OnOk result ((a : Stepping V F) (n : ℕ) (groups : List (List Element)) → IsGrouping (standing F.stands F.comes) V.told n a (seen_reader S.view F.values self.old) groups → IsGrouping (standing F.stands F.comes) V.told n a (seen_reader S.view F.values self.new) groups) }
        ensures stopped { OnErr result ((a : Stepping V F) (n : ℕ) (groups : List (List Element)) → IsGrouping (standing F.stands F.comes) V.told n a (seen_reader S.view F.values self.old) groups → HasStopped (standing F.stands F.comes) V.told n a (seen_reader S.view F.values self.new) groups) }
        ensures falls { OnOk result (work_of F.due (stepping S.view F.values self.new.stepper) < work_of F.due (stepping S.view F.values self.old.stepper)) }
        ensures works { ReaderWorks S.view V.told S.fits self.new desk.new }
    {
        if let Some(lines) = read_lines(&mut self.stepper, desk)? {
            self.gathering.lines = lines;
        }
        Ok(())
    }

    /// Gathers lines that wait, until there are so many.
    fn gather(&mut self, desk: &mut S::Desk, size: usize) -> Result<(), AllocError>
        requires works { ReaderWorks S.view V.told S.fits self.old desk.old }
        requires grouping { (a : Stepping V F) × (groups : List (List Element)) × IsGrouping (standing F.stands F.comes) V.told size a (seen_reader S.view F.values self.old) groups }
        ensures grouping { OnOk result ((a : Stepping V F) (groups : List (List Element)) → IsGrouping (standing F.stands F.comes) V.told size a (seen_reader S.view F.values self.old) groups → IsGrouping (standing F.stands F.comes) V.told size a (seen_reader S.view F.values self.new) groups) }
        ensures stopped { OnErr result ((a : Stepping V F) (groups : List (List Element)) → IsGrouping (standing F.stands F.comes) V.told size a (seen_reader S.view F.values self.old) groups → HasStopped (standing F.stands F.comes) V.told size a (seen_reader S.view F.values self.new) groups) }
        ensures stepper { OnOk result (self.new.stepper ≡ self.old.stepper) }
        ensures none { OnOk result (self.new.gathering.count < size → self.new.gathering.lines ≡ []) }
        ensures works { ReaderWorks S.view V.told S.fits self.new desk.new }
    {
        match self.gathering.gather(size) {
            Ok(()) => Ok(()),
            Err(AllocError) => {
                stop(&mut self.stepper, desk);
                Err(AllocError)
            }
        }
    }

    /// Whether fewer lines were gathered than a group has, and more may come.
    fn wants_more(&self, size: usize) -> bool
        ensures { IsTrue result ↔ ((self.now.gathering.count < size) × ((stepping S.view F.values self.now.stepper).how ≡ None)) }
    {
        self.gathering.count < size && self.stepper.how().is_none()
    }

    /// Reads until a whole group was gathered, or no more lines come.
    fn fill(&mut self, desk: &mut S::Desk, size: usize) -> Result<(), AllocError>
        requires works { ReaderWorks S.view V.told S.fits self.old desk.old }
        requires grouping { (a : Stepping V F) × (groups : List (List Element)) × IsGrouping (standing F.stands F.comes) V.told size a (seen_reader S.view F.values self.old) groups }
        ensures grouping { OnOk result ((a : Stepping V F) (groups : List (List Element)) → IsGrouping (standing F.stands F.comes) V.told size a (seen_reader S.view F.values self.old) groups → IsGrouping (standing F.stands F.comes) V.told size a (seen_reader S.view F.values self.new) groups) }
        ensures stopped { OnErr result ((a : Stepping V F) (groups : List (List Element)) → IsGrouping (standing F.stands F.comes) V.told size a (seen_reader S.view F.values self.old) groups → HasStopped (standing F.stands F.comes) V.told size a (seen_reader S.view F.values self.new) groups) }
        ensures whole { OnOk result (ends_itself (stepping S.view F.values self.new.stepper).how ≡ false → size ≤ self.new.gathering.count) }
        ensures none { OnOk result (self.new.gathering.count < size → self.new.gathering.lines ≡ []) }
        ensures works { ReaderWorks S.view V.told S.fits self.new desk.new }
    {
        self.gather(desk, size)?;
        'turns: while self.wants_more(size) {
            self.read(desk)?;
            self.gather(desk, size)?;
        }
        Ok(())
    }

    /// The text of the lines that were gathered, as a group.
    fn take(&mut self, desk: &mut S::Desk, size: usize) -> Result<Load, AllocError>
        requires works { ReaderWorks S.view V.told S.fits self.old desk.old }
        requires size { 0 < size }
        requires some { 0 < self.old.gathering.count }
        requires whole { ends_itself (stepping S.view F.values self.old.stepper).how ≡ false → size ≤ self.old.gathering.count }
        requires none { self.old.gathering.count < size → self.old.gathering.lines ≡ [] }
        requires grouping { (a : Stepping V F) × (groups : List (List Element)) × IsGrouping (standing F.stands F.comes) V.told size a (seen_reader S.view F.values self.old) groups }
        ensures gives { IfOk result (λ load. (a : Stepping V F) (groups : List (List Element)) → IsGrouping (standing F.stands F.comes) V.told size a (seen_reader S.view F.values self.old) groups → (group : List Element) × (elements load ≡ text_of group) × IsGrouping (standing F.stands F.comes) V.told size a (seen_reader S.view F.values self.new) (groups ++ group ∷ [])) }
        ensures stopped { OnErr result ((a : Stepping V F) (groups : List (List Element)) → IsGrouping (standing F.stands F.comes) V.told size a (seen_reader S.view F.values self.old) groups → HasStopped (standing F.stands F.comes) V.told size a (seen_reader S.view F.values self.new) groups) }
        ensures works { ReaderWorks S.view V.told S.fits self.new desk.new }
    {
        match self.gathering.cut() {
            Ok(load) => Ok(load),
            Err(AllocError) => {
                stop(&mut self.stepper, desk);
                Err(AllocError)
            }
        }
    }

    /// The text of the next group of so many lines, or of those that are left where the stream has ended; None where
    /// all were taken. Where memory is wanting nothing more may be taken, and the stream has ended, if by being halted.
    pub fn next_group(
        &mut self,
        desk: &mut S::Desk,
        size: usize,
    ) -> Result<Option<Load>, AllocError>
        requires works { ReaderWorks S.view V.told S.fits self.old desk.old }
        requires size { 0 < size }
        requires grouping { (a : Stepping V F) × (groups : List (List Element)) × IsGrouping (standing F.stands F.comes) V.told size a (seen_reader S.view F.values self.old) groups }
        ensures gives { (a : Stepping V F) (groups : List (List Element)) → IsGrouping (standing F.stands F.comes) V.told size a (seen_reader S.view F.values self.old) groups → GivesGroup (standing F.stands F.comes) V.told size a (seen_reader S.view F.values self.new) groups result }
        ensures works { ReaderWorks S.view V.told S.fits self.new desk.new }
    {
        self.fill(desk, size)?;
        if self.gathering.count == 0 {
            return Ok(None);
        }
        let group = self.take(desk, size)?;
        Ok(Some(group))
    }

    /// Halts the stream, where it hasn't ended.
    pub fn halt(&mut self, desk: &mut S::Desk)
        requires works { ReaderWorks S.view V.told S.fits self.old desk.old }
        requires grouping { (a : Stepping V F) × (n : ℕ) × (groups : List (List Element)) × IsGrouping (standing F.stands F.comes) V.told n a (seen_reader S.view F.values self.old) groups }
        ensures stopped { (a : Stepping V F) (n : ℕ) (groups : List (List Element)) → IsGrouping (standing F.stands F.comes) V.told n a (seen_reader S.view F.values self.old) groups → HasStopped (standing F.stands F.comes) V.told n a (seen_reader S.view F.values self.new) groups }
        ensures works { ReaderWorks S.view V.told S.fits self.new desk.new }
    {
        stop(&mut self.stepper, desk);
    }

    /// The stepper.
    pub fn into_stepper(self) -> Stepper<S, V, F>
        ensures { result ≡ self.stepper }
    {
        let Reader {
            stepper,
            gathering: _,
        } = self;
        stepper
    }
}
