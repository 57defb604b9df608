//! A source is read, and what it gives is passed on.
ghost use Rattle.std.specs.Prelude.{◌≡◌, ◌+◌, ◌-◌, ◌^◌, ◌<◌, [], length};
ghost use Rattle.cut_text.specs.Cuttings.{IsCutting, PassesAll, PassesPiece, Tells};
ghost use Rattle.cut_frames.specs.Frames.{IsHeld};
ghost use Rattle.cut_frames.specs.declared.step.Place.TheVariants.{Between};

use crate::tail::{TailEnd, judge};
use cut_frames::{Cutter, Place, begins_with_digit};
use device_port::{Failed, Sink, Source, put};
use std::alloc::Global;

/// The most bytes that one read asks for.
const PIECE: usize = 4096;

/// The most pieces that are read.
const MOST_PIECES: u64 = 1 << 50;

/// How a text was cut apart.
#[derive(Clone, Copy, Debug, PartialEq, Eq)]
pub enum CutEnd {
    /// The frames are over. What stands behind them was told, and is this.
    Tail(TailEnd),
    /// The source ended within a frame.
    CutFrame,
    /// The place of the byte, from 0, from which on the text goes on as no frame does.
    BadByte(u64),
    /// A read failed, and was the last.
    Unread,
    /// A write of a payload failed, and was the last.
    NotWritten,
    /// A write of what stands behind the frames failed.
    NotTold,
    /// The source gave 2^50 pieces, and none of them was the last.
    TooLong,
    /// Memory was wanting.
    Memory,
}

/// Passes the payloads of the frames that the source has on to `out`, of the stream that is wanted or
/// of all, and what stands behind the frames to `told`.
pub fn cut<S: Source, K: Sink, T: Sink>(
    alloc: Global,
    wanted: Option<u64>,
    src: &mut S,
    out: &mut K,
    told: &mut T,
) -> CutEnd
    requires source { (S.told src.old).faults < 2 ^ 64 - 1 }
    requires out { (K.told out.old).faults < 2 ^ 64 - 1 }
    requires told { (T.told told.old).faults < 2 ^ 64 - 1 }
    ensures { IsCutting wanted (S.told src.old) (S.told src.new) (K.told out.old) (K.told out.new) (T.told told.old) (T.told told.new) result }
{
    let mut cutter = Cutter::new(alloc, wanted);
    match pass_frames(alloc, &mut cutter, src, out) {
        Ok(()) => tell_tail(alloc, cutter.place, cutter.held.as_slice(), told),
        Err(end) => end,
    }
}

/// Passes the payloads on until the source ends.
fn pass_frames<S: Source, K: Sink>(
    alloc: Global,
    cutter: &mut Cutter,
    src: &mut S,
    out: &mut K,
) -> Result<(), CutEnd>
    requires source { (S.told src.old).faults < 2 ^ 64 - 1 }
    requires out { (K.told out.old).faults < 2 ^ 64 - 1 }
    requires place { cutter.old.place ≡ Between }
    requires held { cutter.old.held.items ≡ [] }
    ensures { PassesAll cutter.old.wanted (S.told src.old) (S.told src.new) (K.told out.old) (K.told out.new) cutter.new result }
{
    let mut piece = [0; PIECE];
    let mut passed = 0;
    let mut left = MOST_PIECES;
    'pieces: while left > 0 {
        left -= 1;
        let count = match src.read(&mut piece) {
            Ok(count) => count,
            Err(Failed) => return Err(CutEnd::Unread),
        };
        if count == 0 {
            return Ok(());
        }
        passed += pass_piece(alloc, cutter, &piece[..count], passed, out)?;
    }
    Err(CutEnd::TooLong)
}

/// Passes on what one more piece gives, and tells how many bytes were taken.
fn pass_piece<K: Sink>(
    alloc: Global,
    cutter: &mut Cutter,
    piece: &[u8],
    passed: u64,
    out: &mut K,
) -> Result<u64, CutEnd>
    requires out { (K.told out.old).faults < 2 ^ 64 - 1 }
    requires few { passed + (length cutter.old.held.items + length piece.now) < 2 ^ 63 }
    ensures { PassesPiece cutter.old cutter.new piece.now passed (K.told out.old) (K.told out.new) result }
{
    let Ok(fed) = cutter.feed(alloc, piece) else {
        return Err(CutEnd::Memory);
    };
    let taken = fed.taken as u64;
    match put(out, fed.given.as_slice()) {
        Err(Failed) => Err(CutEnd::NotWritten),
        Ok(()) if fed.refused => Err(CutEnd::BadByte(passed + taken)),
        Ok(()) => Ok(taken),
    }
}

/// Tells what stands behind the frames, where the source ended at a place.
fn tell_tail<T: Sink>(alloc: Global, place: Place, rest: &[u8], told: &mut T) -> CutEnd
    requires told { (T.told told.old).faults < 2 ^ 64 - 1 }
    requires held { IsHeld place rest.now }
    ensures { Tells place rest.now (T.told told.old) (T.told told.new) result }
{
    match place {
        Place::Within { .. } => return CutEnd::CutFrame,
        Place::Between => {}
    }
    if begins_with_digit(rest) {
        return CutEnd::CutFrame;
    }
    let end = judge(alloc, rest);
    match put(told, rest) {
        Ok(()) => CutEnd::Tail(end),
        Err(Failed) => CutEnd::NotTold,
    }
}
