//! Pipes over whole elements.
use crate::cuttings::{held_loads_stay, pieces_give, text};
use crate::feeding::{AsLines, AsRows, Made, Recipe};
use chunk_core::Line;
use std::alloc::{AllocError, Global};
use std::test::Fail;
use stream_ops::{
    ChangesPipe, ChunkNPipe, CountPipe, DropPipe, FilterPipe, InterspersePipe, NumberPipe,
};

const AAB: &[&[u8]] = &[b"a", b"a", b"b"];

/// The same among loads of none.
const AMONG_NONE: &[&[&[u8]]] = &[&[], &[], &[], &[], AAB, &[]];

#[derive(Drop)]
struct Dropping(u64);

impl<M: Made> Recipe<M> for Dropping {
    type Pipe = DropPipe;

    fn pipe(&self, alloc: Global) -> Result<DropPipe, AllocError> {
        Ok(DropPipe::new(alloc, self.0)?)
    }
}

#[derive(Drop)]
struct Counting;

impl<M: Made> Recipe<M> for Counting {
    type Pipe = CountPipe;

    fn pipe(&self, alloc: Global) -> Result<CountPipe, AllocError> {
        Ok(CountPipe::new(alloc)?)
    }
}

#[derive(Drop)]
struct Numbering;

impl Recipe<AsLines> for Numbering {
    type Pipe = NumberPipe;

    fn pipe(&self, alloc: Global) -> Result<NumberPipe, AllocError> {
        Ok(NumberPipe::new(alloc)?)
    }
}

#[derive(Drop)]
struct Filtering(&'static [u8]);

impl Recipe<AsLines> for Filtering {
    type Pipe = FilterPipe;

    fn pipe(&self, alloc: Global) -> Result<FilterPipe, AllocError> {
        let text = Line::copy_of(alloc, self.0)?;
        Ok(FilterPipe::new(alloc, text)?)
    }
}

#[derive(Drop)]
struct Interspersing(&'static [u8]);

impl Recipe<AsLines> for Interspersing {
    type Pipe = InterspersePipe;

    fn pipe(&self, alloc: Global) -> Result<InterspersePipe, AllocError> {
        let line = Line::copy_of(alloc, self.0)?;
        Ok(InterspersePipe::new(alloc, line)?)
    }
}

#[derive(Drop)]
struct Changes;

impl Recipe<AsLines> for Changes {
    type Pipe = ChangesPipe;

    fn pipe(&self, alloc: Global) -> Result<ChangesPipe, AllocError> {
        Ok(ChangesPipe::new(alloc)?)
    }
}

impl Recipe<AsRows> for Changes {
    type Pipe = ChangesPipe;

    fn pipe(&self, alloc: Global) -> Result<ChangesPipe, AllocError> {
        Ok(ChangesPipe::new(alloc)?)
    }
}

#[derive(Drop)]
struct Grouping(u32);

impl<M: Made> Recipe<M> for Grouping {
    type Pipe = ChunkNPipe;

    fn pipe(&self, alloc: Global) -> Result<ChunkNPipe, AllocError> {
        Ok(ChunkNPipe::new(alloc, self.0)?)
    }
}

#[test]
fn a_load_of_none_changes_nothing(rt: HostRuntime) -> Result<(), Fail> {
    pieces_give::<AsLines, _>(&rt, &Dropping(2), AMONG_NONE, text(b"b|"))?;
    pieces_give::<AsLines, _>(&rt, &Counting, AMONG_NONE, text(b"3|"))?;
    pieces_give::<AsLines, _>(&rt, &Numbering, AMONG_NONE, text(b"0 a|1 a|2 b|"))?;
    pieces_give::<AsLines, _>(&rt, &Filtering(b"a"), AMONG_NONE, text(b"a|a|"))?;
    pieces_give::<AsLines, _>(&rt, &Interspersing(b"-"), AMONG_NONE, text(b"a|-|a|-|b|"))?;
    pieces_give::<AsLines, _>(&rt, &Changes, AMONG_NONE, text(b"a|b|"))?;
    let groups = text(b"a|a|b|").in_loads(&[2, 1]);
    pieces_give::<AsLines, _>(&rt, &Grouping(2), AMONG_NONE, groups)?;
    Ok(())
}

#[test]
fn groups_of_none_are_groups_of_one(rt: HostRuntime) -> Result<(), Fail> {
    let pieces: [&[&[u8]]; 2] = [&[b"a"], &[b"a", b"b"]];
    let groups = text(b"a|a|b|").in_loads(&[1, 2]);
    pieces_give::<AsLines, _>(&rt, &Grouping(0), &pieces, groups)?;
    Ok(())
}

#[test]
fn loads_that_are_held_stay_as_they_are(rt: HostRuntime) -> Result<(), Fail> {
    let short: [&[u8]; 3] = [b"one", b"two", b"three"];
    let more: [&[u8]; 4] = [b"1e", b"", b"333e", b"4e4"];
    let long: [&[u8]; 2] = [b"a line that is longer than all of the others", b"e"];
    let pieces: [&[&[u8]]; 6] = [&short, &more, &long, &short, &long, &more];
    held_loads_stay::<AsLines, _>(&rt, &Filtering(b"e"), &pieces)?;
    held_loads_stay::<AsLines, _>(&rt, &Numbering, &pieces)?;
    held_loads_stay::<AsRows, _>(&rt, &Changes, &pieces)?;
    held_loads_stay::<AsLines, _>(&rt, &Interspersing(b"--"), &pieces)?;
    held_loads_stay::<AsLines, _>(&rt, &Grouping(3), &pieces)?;
    Ok(())
}
