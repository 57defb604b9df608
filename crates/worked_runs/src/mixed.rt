//! Descriptions of many small streams, of which one call may fail, each made of a seed.
ghost use Rattle.std.specs.Prelude.{◌≤◌};

use crate::numbers::Numbers;
use chunk_core::{Line, List, Word};
use device_port::{Act, FileOf, MemDepot, Trip};
use std::alloc::{AllocError, Global};

/// The table in which some streams look up.
const TABLE: &str = "[[table]]\nname = 't'\npath = 't'\n";

/// What a stream does with its file.
#[derive(Clone, Copy, Debug, PartialEq, Eq)]
pub(crate) enum Work {
    /// It gives its bytes as they are.
    Plain,
    /// It gives its lines, or a text in their place where its file fails.
    Caught,
    /// It looks its lines up in the table.
    LooksUp,
    /// It writes its bytes to a file.
    Written,
    /// It ends with the first stream.
    Until,
}

/// The call that fails, if one does.
#[derive(Clone, Copy, Debug, PartialEq, Eq)]
pub(crate) enum Failing {
    Nothing,
    /// This write of the output.
    Write(u32),
    /// This call on the file of the stream of this number.
    Call(u32, Act, u32),
}

/// One of the streams.
#[derive(Drop)]
pub(crate) struct Stream {
    pub(crate) work: Work,
    pub(crate) file: Vec<u8>,
}

/// A description, and the call that fails.
#[derive(Drop)]
pub(crate) struct Mixed {
    pub(crate) description: String,
    pub(crate) streams: Vec<Stream>,
    pub(crate) failing: Failing,
    /// The most frames that are printed.
    pub(crate) take: usize,
}

/// What the stream of this number does.
fn work_of(numbers: &mut Numbers, k: u32) -> Work {
    match numbers.below(8) {
        0 => Work::Caught,
        1 => Work::LooksUp,
        2 => Work::Written,
        3 if k != 0 => Work::Until,
        _ => Work::Plain,
    }
}

/// A few letters and line ends.
fn file_of(numbers: &mut Numbers, alloc: Global) -> Result<Vec<u8>, AllocError> {
    let mut bytes = Vec::new(alloc);
    for _ in 0..numbers.below(6) {
        let byte = match numbers.below(4) {
            0 => b'k',
            1 => b'y',
            2 => b'z',
            _ => b'\n',
        };
        bytes.push(byte)?;
    }
    Ok(bytes)
}

/// One of the calls, or none.
fn failing_of(numbers: &mut Numbers, streams: u32) -> Failing
    requires { (1 ≤ streams) × (streams ≤ 64) }
{
    let k = numbers.below(u64::from(streams)) as u32;
    let nth = numbers.below(3) as u32 + 1;
    match numbers.below(6) {
        0 => Failing::Nothing,
        1 => Failing::Write(k + nth),
        2 => Failing::Call(k, Act::Open, 1),
        3 => Failing::Call(k, Act::Close, 1),
        _ => Failing::Call(k, Act::Read, nth),
    }
}

/// The lines of a stream in a description.
fn describe(text: &mut String, k: u32, work: Work) -> Result<(), AllocError> {
    writeln!(text, "[[stream]]\npath = 'f{k}'")?;
    match work {
        Work::Plain => Ok(()),
        Work::Caught => text.push_str("steps = ['lines']\non_fault = 'lost'\n"),
        Work::LooksUp => text.push_str("steps = ['csv', 'lookup t 0']\n"),
        Work::Written => writeln!(text, "to = 'o{k}'"),
        Work::Until => text.push_str("until = 0\n"),
    }
}

/// How many streams there are: 1 to 4, and 1 to 64 for one seed in sixteen.
fn count_of(numbers: &mut Numbers) -> u32
    ensures { (1 ≤ result) × (result ≤ 64) }
{
    match numbers.below(16) {
        0 => numbers.below(64) as u32 + 1,
        _ => numbers.below(4) as u32 + 1,
    }
}

/// How many frames may be printed: 0 to 15 for one seed in four, and else as many as there are.
fn take_of(numbers: &mut Numbers) -> usize
    ensures { result ≤ 1000 }
{
    match numbers.below(4) {
        0 => numbers.below(16) as usize,
        _ => 1000,
    }
}

/// The streams of a seed, of which so many may be open.
pub(crate) fn mixed_of(alloc: Global, seed: u64, max_open: u32) -> Result<Mixed, AllocError> {
    let mut numbers = Numbers::of(seed);
    let count = count_of(&mut numbers);
    let chunk = numbers.below(3) + 1;
    let take = take_of(&mut numbers);
    let mut description = format!(in alloc;
        "max_open = {max_open}\nqueue = 1\nchunk = {chunk}\ntake = {take}\n{TABLE}"
    )?;
    let mut streams = Vec::new(alloc);
    for k in 0..count {
        let work = work_of(&mut numbers, k);
        describe(&mut description, k, work)?;
        streams.push(Stream {
            work,
            file: file_of(&mut numbers, alloc)?,
        })?;
    }
    Ok(Mixed {
        description,
        streams,
        failing: failing_of(&mut numbers, count),
        take,
    })
}

/// The files of the streams, and the table's.
fn files_of(alloc: Global, mixed: &Mixed) -> Result<List<FileOf>, AllocError> {
    let mut files = List::new(alloc);
    files.push(FileOf {
        path: Word::of(alloc, "t")?,
        bytes: Line::copy_of(alloc, b"k,v\n")?,
    })?;
    for (k, stream) in mixed.streams.iter().enumerate() {
        let path = format!(in alloc; "f{k}")?;
        files.push(FileOf {
            path: Word::of(alloc, path.as_str())?,
            bytes: Line::copy_of(alloc, &stream.file)?,
        })?;
    }
    Ok(files)
}

fn trips_of(alloc: Global, mixed: &Mixed) -> Result<List<Trip>, AllocError> {
    let mut trips = List::new(alloc);
    if let Failing::Call(k, act, nth) = mixed.failing {
        let path = format!(in alloc; "f{k}")?;
        trips.push(Trip {
            path: Word::of(alloc, path.as_str())?,
            act,
            nth,
        })?;
    }
    Ok(trips)
}

impl Mixed {
    /// The files in memory.
    pub(crate) fn depot(&self, alloc: Global) -> Result<MemDepot, AllocError> {
        MemDepot::new(alloc, files_of(alloc, self)?, trips_of(alloc, self)?)
    }

    /// The number of the write that fails.
    pub(crate) fn write_that_fails(&self) -> Option<u32> {
        match self.failing {
            Failing::Write(nth) => Some(nth),
            Failing::Nothing | Failing::Call(..) => None,
        }
    }
}
