//! A pipe is fed the text again and again, and then its end.
ghost use Rattle.std.specs.Prelude.{◌≡◌, ◌<◌, IfOk, IsTrue};
ghost use Rattle.chunk_core.specs.Elements.{kind_of};
ghost use Rattle.chunk_core.specs.Feed.{MayFeed, MayFinish};

use crate::inputs::{Input, RowBytes};
use crate::order::Order;
use crate::tally::Tally;
use chunk_core::{Fed, Feed, Load};
use csv_pipes::CsvPipe;
use std::alloc::{AllocError, Global};
use std::time::{CpuClock, Duration};

/// What a pipe gave, and how long it took.
#[derive(Clone, Copy)]
pub struct Measured {
    pub tally: Tally,
    pub spent: Duration,
}

/// The processor time that the process has used, or none where the clock can't be read.
fn used<C: CpuClock>(clock: &C) -> Duration {
    clock.process_cpu_time().unwrap_or(Duration::ZERO)
}

/// Feeds windows on one block, and answers whether the pipe goes on.
fn feed_block<P: Feed>(
    alloc: Global,
    pipe: &mut P,
    block: &mut Load,
    piece: usize,
    tally: &mut Tally,
) -> Result<bool, AllocError>
    requires pipe { MayFeed (P.stands pipe.old) (kind_of block.old) }
    requires piece { 0 < piece }
    ensures { IfOk result (λ goes_on. IsTrue goes_on → MayFeed (P.stands pipe.new) (kind_of block.old)) }
{
    for _ in 0..block.len().div_ceil(piece) {
        match pipe.feed(alloc, block.split(piece)?)? {
            Fed::Out(load) => tally.put(&load),
            Fed::End => return Ok(false),
            Fed::Fault(load, _) => {
                tally.put(&load);
                return Ok(false);
            }
        }
    }
    Ok(true)
}

/// Tells the pipe that its input has ended.
fn finish<P: Feed>(alloc: Global, mut pipe: P, tally: &mut Tally) -> Result<(), AllocError>
    requires { MayFinish (P.stands pipe) (P.comes pipe) }
{
    for _ in 0..u64::MAX {
        match pipe.finish(alloc)? {
            Fed::Out(load) => tally.put(&load),
            Fed::End => return Ok(()),
            Fed::Fault(load, _) => {
                tally.put(&load);
                return Ok(());
            }
        }
    }
    Ok(())
}

/// Runs a pipe over as many blocks as are asked for. Making a block, and dropping it, isn't timed.
pub fn run<I: Input, P: Feed, C: CpuClock>(
    alloc: Global,
    clock: &C,
    order: &Order<'_>,
    mut pipe: P,
) -> Result<Measured, AllocError>
    requires { MayFeed (P.stands pipe) I.kind }
{
    let text = I::text(alloc)?;
    let piece = I::piece(order.chunk());
    let mut tally = Tally::new(order.is_timed());
    let mut spent = Duration::ZERO;
    for _ in 0..order.megabytes() {
        let mut block = I::block(alloc, text.as_slice())?;
        let before = used(clock);
        let goes_on = feed_block(alloc, &mut pipe, &mut block, piece, &mut tally)?;
        spent = spent.saturating_add(used(clock).saturating_sub(before));
        if !goes_on {
            return Ok(Measured { tally, spent });
        }
    }
    let before = used(clock);
    finish(alloc, pipe, &mut tally)?;
    spent = spent.saturating_add(used(clock).saturating_sub(before));
    Ok(Measured { tally, spent })
}

/// Runs a pipe of comma-separated values over each of as many blocks as are asked for. It gathers its
/// input, so that each block is a whole one.
pub fn run_each<C: CpuClock>(
    alloc: Global,
    clock: &C,
    order: &Order<'_>,
) -> Result<Measured, AllocError> {
    let text = RowBytes::text(alloc)?;
    let piece = RowBytes::piece(order.chunk());
    let mut tally = Tally::new(order.is_timed());
    let mut spent = Duration::ZERO;
    for _ in 0..order.megabytes() {
        let mut pipe = CsvPipe::new(alloc)?;
        let mut block = RowBytes::block(alloc, text.as_slice())?;
        let before = used(clock);
        if feed_block(alloc, &mut pipe, &mut block, piece, &mut tally)? {
            finish(alloc, pipe, &mut tally)?;
        }
        spent = spent.saturating_add(used(clock).saturating_sub(before));
    }
    Ok(Measured { tally, spent })
}
