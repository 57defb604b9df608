//! The pipes that are run, each over its kind of input.
use crate::feeding::{Measured, run, run_each};
use crate::inputs::{BrokenBytes, PlainBytes, TextLines, TextRows};
use crate::order::Order;
use crate::text;
use chunk_core::Line;
use csv_pipes::{Dict, FieldPipe, LookupPipe, table_of};
use std::alloc::{AllocError, Global};
use std::sync::Arc;
use std::time::CpuClock;
use stream_ops::{
    ChangesPipe, ChunkNPipe, CountPipe, DropPipe, FilterPipe, InterspersePipe, NumberPipe,
};
use text_pipes::{HexPipe, LinesPipe, LossyPipe, UpperPipe, Utf8Pipe};

/// How many lines `Drop` leaves out.
const LEFT_OUT: u64 = 1000;

/// How many lines a group of `ChunkN` has.
const GROUP: u32 = 10;

/// The place of the field that `Field` gives and that is the key of `Lookup`.
const FIELD: u32 = 3;

/// A pipe and what it is fed.
#[derive(Clone, Copy)]
pub enum Subject {
    Utf8,
    Lossy,
    /// `Lossy` over text that isn't UTF-8.
    Mended,
    Lines,
    Hex,
    Upper,
    Csv,
    Field,
    Lookup,
    Drop,
    Filter,
    Changes,
    Number,
    Count,
    Intersperse,
    ChunkN,
}

pub static SUBJECTS: [Subject; 16] = [
    Subject::Utf8,
    Subject::Lossy,
    Subject::Mended,
    Subject::Lines,
    Subject::Hex,
    Subject::Upper,
    Subject::Csv,
    Subject::Field,
    Subject::Lookup,
    Subject::Drop,
    Subject::Filter,
    Subject::Changes,
    Subject::Number,
    Subject::Count,
    Subject::Intersperse,
    Subject::ChunkN,
];

impl Subject {
    pub fn name(self) -> &'static str {
        match self {
            Subject::Utf8 => "utf8",
            Subject::Lossy => "lossy",
            Subject::Mended => "mended",
            Subject::Lines => "lines",
            Subject::Hex => "hex",
            Subject::Upper => "upper",
            Subject::Csv => "csv",
            Subject::Field => "field",
            Subject::Lookup => "lookup",
            Subject::Drop => "drop",
            Subject::Filter => "filter",
            Subject::Changes => "changes",
            Subject::Number => "number",
            Subject::Count => "count",
            Subject::Intersperse => "intersperse",
            Subject::ChunkN => "chunkn",
        }
    }

    /// Runs the pipe as the order says.
    pub fn run<C: CpuClock>(
        self,
        alloc: Global,
        clock: &C,
        order: &Order<'_>,
    ) -> Result<Measured, AllocError> {
        match self {
            Subject::Utf8 => utf8(alloc, clock, order),
            Subject::Lossy => lossy(alloc, clock, order),
            Subject::Mended => mended(alloc, clock, order),
            Subject::Lines => lines(alloc, clock, order),
            Subject::Hex => hexadecimal(alloc, clock, order),
            Subject::Upper => upper(alloc, clock, order),
            Subject::Csv => run_each(alloc, clock, order),
            Subject::Field => field(alloc, clock, order),
            Subject::Lookup => looked_up(alloc, clock, order),
            Subject::Drop => dropped(alloc, clock, order),
            Subject::Filter => filtered(alloc, clock, order),
            Subject::Changes => changed(alloc, clock, order),
            Subject::Number => numbered(alloc, clock, order),
            Subject::Count => counted(alloc, clock, order),
            Subject::Intersperse => spread(alloc, clock, order),
            Subject::ChunkN => grouped(alloc, clock, order),
        }
    }
}

fn utf8<C: CpuClock>(alloc: Global, clock: &C, order: &Order<'_>) -> Result<Measured, AllocError> {
    run::<PlainBytes, Utf8Pipe, C>(alloc, clock, order, Utf8Pipe::new(alloc)?)
}

fn lossy<C: CpuClock>(alloc: Global, clock: &C, order: &Order<'_>) -> Result<Measured, AllocError> {
    run::<PlainBytes, LossyPipe, C>(alloc, clock, order, LossyPipe::new(alloc)?)
}

fn mended<C: CpuClock>(
    alloc: Global,
    clock: &C,
    order: &Order<'_>,
) -> Result<Measured, AllocError> {
    run::<BrokenBytes, LossyPipe, C>(alloc, clock, order, LossyPipe::new(alloc)?)
}

fn lines<C: CpuClock>(alloc: Global, clock: &C, order: &Order<'_>) -> Result<Measured, AllocError> {
    run::<PlainBytes, LinesPipe, C>(alloc, clock, order, LinesPipe::new(alloc)?)
}

fn hexadecimal<C: CpuClock>(
    alloc: Global,
    clock: &C,
    order: &Order<'_>,
) -> Result<Measured, AllocError> {
    run::<PlainBytes, HexPipe, C>(alloc, clock, order, HexPipe::new(alloc)?)
}

fn upper<C: CpuClock>(alloc: Global, clock: &C, order: &Order<'_>) -> Result<Measured, AllocError> {
    run::<PlainBytes, UpperPipe, C>(alloc, clock, order, UpperPipe::new(alloc)?)
}

fn field<C: CpuClock>(alloc: Global, clock: &C, order: &Order<'_>) -> Result<Measured, AllocError> {
    run::<TextRows, FieldPipe, C>(alloc, clock, order, FieldPipe::new(alloc, FIELD)?)
}

/// A table of the words.
fn words_table(alloc: Global) -> Result<Dict, AllocError> {
    let text = text::table_text(alloc)?;
    match table_of(alloc, text.as_slice()) {
        Ok(table) => Ok(table),
        Err(_) => Err(AllocError),
    }
}

fn looked_up<C: CpuClock>(
    alloc: Global,
    clock: &C,
    order: &Order<'_>,
) -> Result<Measured, AllocError> {
    let table = Arc::new(alloc, words_table(alloc)?)?;
    let pipe = LookupPipe::new(alloc, table, FIELD)?;
    run::<TextRows, LookupPipe, C>(alloc, clock, order, pipe)
}

fn dropped<C: CpuClock>(
    alloc: Global,
    clock: &C,
    order: &Order<'_>,
) -> Result<Measured, AllocError> {
    run::<TextLines, DropPipe, C>(alloc, clock, order, DropPipe::new(alloc, LEFT_OUT)?)
}

fn filtered<C: CpuClock>(
    alloc: Global,
    clock: &C,
    order: &Order<'_>,
) -> Result<Measured, AllocError> {
    let text = Line::copy_of(alloc, b"needle")?;
    run::<TextLines, FilterPipe, C>(alloc, clock, order, FilterPipe::new(alloc, text)?)
}

fn changed<C: CpuClock>(
    alloc: Global,
    clock: &C,
    order: &Order<'_>,
) -> Result<Measured, AllocError> {
    run::<TextLines, ChangesPipe, C>(alloc, clock, order, ChangesPipe::new(alloc)?)
}

fn numbered<C: CpuClock>(
    alloc: Global,
    clock: &C,
    order: &Order<'_>,
) -> Result<Measured, AllocError> {
    run::<TextLines, NumberPipe, C>(alloc, clock, order, NumberPipe::new(alloc)?)
}

fn counted<C: CpuClock>(
    alloc: Global,
    clock: &C,
    order: &Order<'_>,
) -> Result<Measured, AllocError> {
    run::<TextLines, CountPipe, C>(alloc, clock, order, CountPipe::new(alloc)?)
}

fn spread<C: CpuClock>(
    alloc: Global,
    clock: &C,
    order: &Order<'_>,
) -> Result<Measured, AllocError> {
    let line = Line::copy_of(alloc, b"--")?;
    run::<TextLines, InterspersePipe, C>(alloc, clock, order, InterspersePipe::new(alloc, line)?)
}

fn grouped<C: CpuClock>(
    alloc: Global,
    clock: &C,
    order: &Order<'_>,
) -> Result<Measured, AllocError> {
    run::<TextLines, ChunkNPipe, C>(alloc, clock, order, ChunkNPipe::new(alloc, GROUP)?)
}
