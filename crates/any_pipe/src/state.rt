//! The state of a pipe, whichever it is.
use chunk_core::{Fed, Feed, Load};
use csv_pipes::{CsvPipe, Dicts, FieldPipe, LookupPipe};
use pull_nodes::{Pipe, PipeState};
use std::alloc::{AllocError, Global};
use stream_ops::{
    ChangesPipe, ChunkNPipe, CountPipe, DropPipe, FilterPipe, InterspersePipe, NumberPipe,
};
use text_pipes::{HexPipe, LinesPipe, LossyPipe, UpperPipe, Utf8Pipe};

/// The state of any pipe: that of the pipe itself.
#[derive(Drop)]
pub enum AnyPipe {
    Utf8(Utf8Pipe),
    Lossy(LossyPipe),
    Lines(LinesPipe),
    Hex(HexPipe),
    Upper(UpperPipe),
    Csv(CsvPipe),
    Field(FieldPipe),
    Lookup(LookupPipe),
    Drop(DropPipe),
    Filter(FilterPipe),
    Changes(ChangesPipe),
    Number(NumberPipe),
    Count(CountPipe),
    Intersperse(InterspersePipe),
    ChunkN(ChunkNPipe),
}

impl Feed for AnyPipe {
    ghost use Rattle.any_pipe.specs.AnyState.{StandsFor, Comes, interpretation_of};

    ghost stands = { StandsFor };

    ghost comes = { Comes };

    ghost sound = { λ q. (interpretation_of q).sound };

    fn feed(&mut self, alloc: Global, load: Load) -> Result<Fed, AllocError> {
        match self {
            AnyPipe::Utf8(pipe) => pipe.feed(alloc, load),
            AnyPipe::Lossy(pipe) => pipe.feed(alloc, load),
            AnyPipe::Lines(pipe) => pipe.feed(alloc, load),
            AnyPipe::Hex(pipe) => pipe.feed(alloc, load),
            AnyPipe::Upper(pipe) => pipe.feed(alloc, load),
            AnyPipe::Csv(pipe) => pipe.feed(alloc, load),
            AnyPipe::Field(pipe) => pipe.feed(alloc, load),
            AnyPipe::Lookup(pipe) => pipe.feed(alloc, load),
            AnyPipe::Drop(pipe) => pipe.feed(alloc, load),
            AnyPipe::Filter(pipe) => pipe.feed(alloc, load),
            AnyPipe::Changes(pipe) => pipe.feed(alloc, load),
            AnyPipe::Number(pipe) => pipe.feed(alloc, load),
            AnyPipe::Count(pipe) => pipe.feed(alloc, load),
            AnyPipe::Intersperse(pipe) => pipe.feed(alloc, load),
            AnyPipe::ChunkN(pipe) => pipe.feed(alloc, load),
        }
    }

    fn finish(&mut self, alloc: Global) -> Result<Fed, AllocError> {
        match self {
            AnyPipe::Utf8(pipe) => pipe.finish(alloc),
            AnyPipe::Lossy(pipe) => pipe.finish(alloc),
            AnyPipe::Lines(pipe) => pipe.finish(alloc),
            AnyPipe::Hex(pipe) => pipe.finish(alloc),
            AnyPipe::Upper(pipe) => pipe.finish(alloc),
            AnyPipe::Csv(pipe) => pipe.finish(alloc),
            AnyPipe::Field(pipe) => pipe.finish(alloc),
            AnyPipe::Lookup(pipe) => pipe.finish(alloc),
            AnyPipe::Drop(pipe) => pipe.finish(alloc),
            AnyPipe::Filter(pipe) => pipe.finish(alloc),
            AnyPipe::Changes(pipe) => pipe.finish(alloc),
            AnyPipe::Number(pipe) => pipe.finish(alloc),
            AnyPipe::Count(pipe) => pipe.finish(alloc),
            AnyPipe::Intersperse(pipe) => pipe.finish(alloc),
            AnyPipe::ChunkN(pipe) => pipe.finish(alloc),
        }
    }
}

impl PipeState for AnyPipe {
    ghost use Rattle.any_pipe.specs.Dues.{due, any_owes};
    ghost use Rattle.csv_pipes.specs.Dictionaries.{values_of};

    type Tables = Dicts;

    ghost values = { values_of };

    ghost due = { due };

    ghost dues = { any_owes };

    fn of(alloc: Global, tables: &Dicts, pipe: Pipe) -> Result<AnyPipe, AllocError> {
        Ok(match pipe {
            Pipe::Utf8 => AnyPipe::Utf8(Utf8Pipe::new(alloc)?),
            Pipe::Lossy => AnyPipe::Lossy(LossyPipe::new(alloc)?),
            Pipe::Lines => AnyPipe::Lines(LinesPipe::new(alloc)?),
            Pipe::Hex => AnyPipe::Hex(HexPipe::new(alloc)?),
            Pipe::Upper => AnyPipe::Upper(UpperPipe::new(alloc)?),
            Pipe::Csv => AnyPipe::Csv(CsvPipe::new(alloc)?),
            Pipe::Field(field) => AnyPipe::Field(FieldPipe::new(alloc, field)?),
            Pipe::Lookup(table, field) => {
                let table = tables.dict(alloc, table)?;
                AnyPipe::Lookup(LookupPipe::new(alloc, table, field)?)
            }
            Pipe::Drop(n) => AnyPipe::Drop(DropPipe::new(alloc, n)?),
            Pipe::Filter(text) => AnyPipe::Filter(FilterPipe::new(alloc, text)?),
            Pipe::Changes => AnyPipe::Changes(ChangesPipe::new(alloc)?),
            Pipe::Number => AnyPipe::Number(NumberPipe::new(alloc)?),
            Pipe::Count => AnyPipe::Count(CountPipe::new(alloc)?),
            Pipe::Intersperse(line) => AnyPipe::Intersperse(InterspersePipe::new(alloc, line)?),
            Pipe::ChunkN(n) => AnyPipe::ChunkN(ChunkNPipe::new(alloc, n)?),
        })
    }
}
