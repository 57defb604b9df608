//! What a collector reports, and how it stops a run: that the calls do what they say where memory is
//! there.
ghost use Rattle.std.specs.Prelude.{◌<◌, length, IfOk};
ghost use Rattle.chunk_core.specs.Elements.{elements};

use crate::asserts::{holds, same};
use chunk_core::{Chunk, How, List, Load};
use device_port::MemSink;
use interrupt_ctx::Why;
use join_report::Report;
use std::alloc::{AllocError, Global};
use std::test::Fail;

/// A load of one byte.
fn letter(alloc: Global, byte: u8) -> Result<Load, AllocError>
    ensures { IfOk result (λ load. 0 < length (elements load)) }
{
    let mut bytes = Vec::new(alloc);
    bytes.push(byte)?;
    Ok(Load::Bytes(Chunk::of_vec(alloc, bytes)?))
}

#[test]
fn a_stream_is_halted_whose_load_comes_behind_the_last_frame(rt: HostRuntime) -> Result<(), Fail> {
    let (first, second) = (letter(rt.alloc(), b'A')?, letter(rt.alloc(), b'B')?);
    let mut out = MemSink::new(rt.alloc(), List::new(rt.alloc()))?;
    let mut report = Report::new(rt.alloc(), 1, Some(1))?;
    let last = report.write(rt.alloc(), &mut out, 0, &first);
    let late = report.write(rt.alloc(), &mut out, 0, &second);
    report.end(0, How::Done);
    same(&rt, (last, late), (Some(Why::Take), None));
    same(&rt, out.written(), b"0 1\nA\n".as_slice());
    holds(&rt, report.is_ceased());
    holds(&rt, !report.sink_failed());
    holds(&rt, !report.memory());
    let mut hows = Vec::new(rt.alloc());
    for end in report.into_ends(How::Done, 1).as_slice() {
        hows.push(end.how)?;
    }
    same(&rt, hows.as_slice(), [How::Done, How::Halted].as_slice());
    Ok(())
}
