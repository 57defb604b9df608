//! A list as it is read.
ghost use Rattle.std.specs.Prelude.{◌≡◌, ◌++◌, ◌^◌, ◌<◌, ℕ, [], List, map, true, false, IfOk, OnOk, OnErr};
ghost use Rattle.any_pipe.specs.Pouring.{AreOf};
ghost use Rattle.chunk_core.specs.Elements.{Byte, Element, Line as line_element, elements, elements_of, kind_of};
ghost use Rattle.chunk_core.specs.Elements.LoadKind.{Bytes, Lines};
ghost use Rattle.chunk_core.specs.Feed.{Meaning};
ghost use Rattle.device_port.specs.Device.{DeviceTold};
ghost use Rattle.device_port.specs.declared.device.Mode.TheVariants as mode;
ghost use Rattle.list_lines.specs.Lists.{Comes, GivesLines, IsAt, IsCut, IsLast, IsUnread, MayGoOn, OnlyReads, TakesIn, lacks, left_to_read};

use crate::listed::Listed;
use any_pipe::finish_all;
use chunk_core::{Chunk, Code, Fed, Feed, How, Line, Load};
use device_port::Device;
use std::alloc::{AllocError, Global};
use std::collections::VecDeque;

/// The most bytes that are read.
const LIMIT: u64 = 1 << 40;

/// The most bytes that one read asks for.
const PIECE: usize = 4096;

/// A list that is read through a pipe.
#[derive(Drop)]
pub struct ListLines<F> {
    pipe: F,
    /// Lines that came and weren't given yet.
    waiting: VecDeque<Line>,
    /// How the list is over behind these, once all came.
    over: Option<How>,
    /// How many bytes were read.
    read: u64,
}

/// A load of these bytes.
fn load_of(alloc: Global, bytes: &[u8]) -> Result<Load, AllocError>
    ensures bytes { IfOk result (λ load. elements load ≡ map Byte bytes.now) }
    ensures kind { IfOk result (λ load. kind_of load ≡ Bytes) }
{
    let mut items = Vec::new(alloc);
    items.extend_from_slice(bytes)?;
    Ok(Load::Bytes(Chunk::of_vec(alloc, items)?))
}

/// Appends copies of lines.
fn append_lines(
    alloc: Global,
    waiting: &mut VecDeque<Line>,
    lines: &[Line],
) -> Result<(), AllocError>
    ensures { OnOk result (waiting.new.items ≡ waiting.old.items ++ lines.now) }
{
    for line in lines {
        let line = Line::copy_of(alloc, line.as_slice())?;
        waiting.push_back(line)?;
    }
    Ok(())
}

/// Appends copies of the lines of a load.
fn append_load(alloc: Global, waiting: &mut VecDeque<Line>, load: &Load) -> Result<(), AllocError>
    requires { kind_of load.now ≡ Lines }
    ensures { OnOk result (map line_element waiting.new.items ≡ map line_element waiting.old.items ++ elements load.now) }
{
    match load {
        Load::Lines(lines) => append_lines(alloc, waiting, lines.as_slice()),
        _ => unreachable!(),
    }
}

/// Appends copies of the lines of loads.
fn append_loads(
    alloc: Global,
    waiting: &mut VecDeque<Line>,
    loads: &[Load],
) -> Result<(), AllocError>
    requires { AreOf Lines loads.now }
    ensures { OnOk result (map line_element waiting.new.items ≡ map line_element waiting.old.items ++ elements_of loads.now) }
{
    for load in loads {
        append_load(alloc, waiting, load)?;
    }
    Ok(())
}

impl<F: Feed> ListLines<F> {
    /// A list of which nothing was read, through a pipe that was fed nothing.
    pub fn new(alloc: Global, pipe: F) -> ListLines<F>
        ensures { (m : Meaning) (d : DeviceTold) → GivesLines m → F.stands pipe m [] → IsUnread d → IsAt F.stands m d [] result }
    {
        ListLines {
            pipe,
            waiting: VecDeque::new(alloc),
            over: None,
            read: 0,
        }
    }

    /// No line waits, and more may come.
    fn lacks(&self) -> bool
        ensures { result ≡ lacks self.now }
    {
        self.waiting.is_empty() && self.over.is_none()
    }

    /// Feeds the next bytes to the pipe, while no line waits.
    fn take_in(&mut self, alloc: Global, bytes: &[u8]) -> Result<(), AllocError>
        requires { MayGoOn F.stands self.old }
        ensures { OnOk result ((m : Meaning) (xs : List Element) → GivesLines m → F.stands self.old.pipe m xs → TakesIn F.stands m xs (map Byte bytes.now) self.old self.new) }
    {
        let load = load_of(alloc, bytes)?;
        match self.pipe.feed(alloc, load)? {
            Fed::Out(given) => append_load(alloc, &mut self.waiting, &given)?,
            Fed::End => unreachable!(),
            Fed::Fault(given, code) => {
                append_load(alloc, &mut self.waiting, &given)?;
                self.over = Some(How::Fault(code));
            }
        }
        Ok(())
    }

    /// Tells the pipe that the input has ended, while no line waits.
    fn take_rest(&mut self, alloc: Global) -> Result<(), AllocError>
        requires { MayGoOn F.stands self.old }
        ensures { OnOk result ((m : Meaning) (xs : List Element) → GivesLines m → F.stands self.old.pipe m xs → IsLast m xs self.new) }
    {
        let rest = finish_all(alloc, &mut self.pipe, Vec::new(alloc))?;
        append_loads(alloc, &mut self.waiting, rest.loads.as_slice())?;
        self.over = match rest.fault {
            Some(code) => Some(How::Fault(code)),
            None => Some(How::Done),
        };
        Ok(())
    }

    /// Reads the next bytes, while no line waits.
    fn read_on<V: Device>(&mut self, alloc: Global, device: &mut V) -> Result<(), AllocError>
        requires lacks { lacks self.old ≡ true }
        requires at { (m : Meaning) × (given : List (List ℕ)) × GivesLines m × IsAt F.stands m (V.told device.old) given self.old }
        requires open { (V.told device.old).is_open ≡ true }
        requires mode { (V.told device.old).place.mode ≡ mode.Read }
        ensures at { OnOk result ((m : Meaning) (given : List (List ℕ)) → GivesLines m → IsAt F.stands m (V.told device.old) given self.old → IsAt F.stands m (V.told device.new) given self.new) }
        ensures cut { OnErr result ((m : Meaning) (given : List (List ℕ)) → GivesLines m → IsAt F.stands m (V.told device.old) given self.old → IsCut m (V.told device.new) given) }
        ensures further { OnOk result (left_to_read self.new < left_to_read self.old) }
        ensures device { OnlyReads (V.told device.old) (V.told device.new) }
    {
        if self.read == LIMIT {
            self.over = Some(How::Fault(Code::Endless));
            return Ok(());
        }
        let room = PIECE.min((LIMIT - self.read) as usize);
        let mut piece = [0; PIECE];
        let Ok(count) = device.read(&mut piece[..room]) else {
            self.over = Some(How::Fault(Code::Read));
            return Ok(());
        };
        if count == 0 {
            return self.take_rest(alloc);
        }
        self.read += count as u64;
        self.take_in(alloc, &piece[..count])
    }

    /// Reads until a line waits or all came.
    fn fill<V: Device>(&mut self, alloc: Global, device: &mut V) -> Result<(), AllocError>
        requires at { (m : Meaning) × (given : List (List ℕ)) × GivesLines m × IsAt F.stands m (V.told device.old) given self.old }
        requires open { (V.told device.old).is_open ≡ true }
        requires mode { (V.told device.old).place.mode ≡ mode.Read }
        ensures at { OnOk result ((m : Meaning) (given : List (List ℕ)) → GivesLines m → IsAt F.stands m (V.told device.old) given self.old → IsAt F.stands m (V.told device.new) given self.new) }
        ensures cut { OnErr result ((m : Meaning) (given : List (List ℕ)) → GivesLines m → IsAt F.stands m (V.told device.old) given self.old → IsCut m (V.told device.new) given) }
        ensures filled { OnOk result (lacks self.new ≡ false) }
        ensures device { OnlyReads (V.told device.old) (V.told device.new) }
    {
        'reads: while self.lacks() {
            self.read_on(alloc, device)?;
        }
        Ok(())
    }

    /// The next of what waits.
    fn give(&mut self) -> Listed
        requires { lacks self.old ≡ false }
        ensures { (m : Meaning) (d : DeviceTold) (given : List (List ℕ)) → IsAt F.stands m d given self.old → Comes F.stands m d given self.new result }
    {
        match self.waiting.pop_front() {
            Some(line) => Listed::Line(line),
            None => match self.over {
                Some(how) => Listed::Over(how),
                None => unreachable!(),
            },
        }
    }

    /// The next line, or how the list is over. Nothing is read where a line waits. Behind the end it
    /// isn't called any more.
    pub fn next<V: Device>(&mut self, alloc: Global, device: &mut V) -> Listed
        requires at { (m : Meaning) × (given : List (List ℕ)) × GivesLines m × IsAt F.stands m (V.told device.old) given self.old }
        requires open { (V.told device.old).is_open ≡ true }
        requires mode { (V.told device.old).place.mode ≡ mode.Read }
        ensures comes { (m : Meaning) (given : List (List ℕ)) → GivesLines m → IsAt F.stands m (V.told device.old) given self.old → Comes F.stands m (V.told device.new) given self.new result }
        ensures device { OnlyReads (V.told device.old) (V.told device.new) }
    {
        match self.fill(alloc, device) {
            Ok(()) => self.give(),
            Err(AllocError) => Listed::Over(How::Memory),
        }
    }
}
