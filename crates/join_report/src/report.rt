//! What is known of a run so far, and how each stream is reported.
ghost use Rattle.std.specs.Prelude.{◌≡◌, ◌≢◌, ◌-◌, ◌^◌, ◌<◌, ◌≤◌, ◌∷◌, true, false, map, length, take, Some, None, IfOk, slice_index_or};
ghost use Rattle.chunk_core.specs.Elements.{elements};
ghost use Rattle.join_tale.specs.Steps.{first_tale};
ghost use Rattle.join_report.specs.Accounts.{names_below};
ghost use Rattle.join_report.specs.Reports.{HasStream, IsReport, count_of};
ghost use Rattle.join_report.specs.Calls.{Counts, EndsOuter, EndsStream, MissesStream, WritesLoad, is_zero, told_how, with_end, with_failure, with_lack};

use crate::accounts::Accounts;
use chunk_core::{How, List, Load};
use device_port::Sink;
use frames::{NotPut, put_load};
use interrupt_ctx::Why;
use res_ledger::StreamNo;
use run_rules::EndOf;
use std::alloc::{AllocError, Global};

/// What is known of a run so far.
#[derive(Drop)]
pub struct Report {
    /// How many frames more may be written, where there is a limit.
    wanted: Option<u64>,
    /// Whether no frame is written any more.
    ceased: bool,
    /// Whether a write failed.
    sink_failed: bool,
    /// Whether memory was wanting.
    memory: bool,
    streams: Accounts,
}

impl Report {
    /// Makes all room for so many streams, of which so many frames are written at most, before the
    /// first message.
    pub fn new(alloc: Global, streams: u32, most: Option<u64>) -> Result<Report, AllocError>
        ensures some { most ≢ Some 0 → IfOk result (λ r. IsReport most streams first_tale r) }
        ensures none { most ≡ Some 0 → IfOk result (λ r. IsReport most streams (record first_tale { ceased = true }) r) }
    {
        let streams = Accounts::new(alloc, streams)?;
        Ok(Report {
            wanted: most,
            ceased: is_none_wanted(most),
            sink_failed: false,
            memory: false,
            streams,
        })
    }

    /// A load of an open stream came. It is written as a frame, or it comes too late. Where nothing
    /// may be written behind it the cause is told, for which the whole run is to be interrupted.
    pub fn write<K: Sink>(
        &mut self,
        alloc: Global,
        out: &mut K,
        stream: u32,
        load: &Load,
    ) -> Option<Why>
        requires some { 0 < length (elements load.now) }
        requires stream { HasStream self.old stream }
        requires room { self.old.ceased ≡ false → (K.told out.old).faults < 2 ^ 64 - 1 }
        ensures { WritesLoad stream load.now self.old self.new (K.told out.old) (K.told out.new) result }
    {
        if self.ceased {
            self.streams.lose(stream);
            return None;
        }
        match put_load(alloc, out, stream, load) {
            Ok(()) => self.count(),
            Err(NotPut::Unwritten) => Some(self.fail(stream)),
            Err(NotPut::Memory) => Some(self.lack(stream)),
        }
    }

    /// The end of an open stream came.
    pub fn end(&mut self, stream: u32, how: How)
        requires stream { HasStream self.old stream }
        ensures { EndsStream stream how self.old self.new }
    {
        let told = self.told(stream, how);
        self.streams.tell(stream, told);
        self.note(how);
    }

    /// There was no memory to make the stream.
    pub fn miss(&mut self, stream: u32)
        requires stream { HasStream self.old stream }
        ensures { MissesStream stream self.old self.new }
    {
        self.streams.tell(stream, How::Memory);
        self.ceased = true;
        self.memory = true;
    }

    /// The outer stream ended so.
    pub fn outer(&mut self, how: How)
        ensures { EndsOuter how self.old self.new }
    {
        self.note(how);
    }

    /// Whether no frame is written any more.
    pub fn is_ceased(&self) -> bool
        ensures { result ≡ self.now.ceased }
    {
        self.ceased
    }

    /// Whether a write failed.
    pub fn sink_failed(&self) -> bool
        ensures { result ≡ self.now.sink_failed }
    {
        self.sink_failed
    }

    /// Whether memory was wanting.
    pub fn memory(&self) -> bool
        ensures { result ≡ self.now.memory }
    {
        self.memory
    }

    /// The ends of the outer stream, which ended so, and of each stream in order, of which there were
    /// so many.
    pub fn into_ends(self, outer: How, streams: u32) -> List<EndOf>
        requires { streams ≤ count_of self }
        ensures names { map (λ e. e.who) result ≡ StreamNo.Outer ∷ names_below streams }
        ensures hows { map (λ e. e.how) result ≡ outer ∷ take streams self.streams.hows }
    {
        self.streams.into_ends(outer, streams)
    }

    /// A frame was written: it is counted, and the cause is told where it was the last.
    fn count(&mut self) -> Option<Why>
        ensures { Counts self.old self.new result }
    {
        let left = self.wanted?;
        self.wanted = Some(left.saturating_sub(1));
        if left > 1 {
            return None;
        }
        self.ceased = true;
        Some(Why::Take)
    }

    /// A write of a load of the stream failed.
    fn fail(&mut self, stream: u32) -> Why
        requires { HasStream self.old stream }
        ensures answer { result ≡ Why.Sink }
        ensures report { self.new ≡ with_failure self.old stream }
    {
        self.streams.lose(stream);
        self.ceased = true;
        self.sink_failed = true;
        Why::Sink
    }

    /// There was no memory to render a load of the stream.
    fn lack(&mut self, stream: u32) -> Why
        requires { HasStream self.old stream }
        ensures answer { result ≡ Why.Memory }
        ensures report { self.new ≡ with_lack self.old stream }
    {
        self.streams.lose(stream);
        self.ceased = true;
        self.memory = true;
        Why::Memory
    }

    /// A stream ended so: behind one for which there was no memory no frame is written.
    fn note(&mut self, how: How)
        ensures { self.new ≡ with_end self.old how }
    {
        match how {
            How::Memory => {
                self.ceased = true;
                self.memory = true;
            }
            _ => {}
        }
    }

    /// How a stream is reported whose end came so: behind the last frame it was stopped, unless it
    /// was done with all of its loads written, or memory was wanting.
    fn told(&self, stream: u32, how: How) -> How
        requires { HasStream self.now stream }
        ensures { result ≡ told_how self.now.ceased (slice_index_or self.now.streams.unwritten stream false) how }
    {
        if !self.ceased {
            return how;
        }
        match how {
            How::Memory => How::Memory,
            How::Done if !self.streams.is_unwritten(stream) => How::Done,
            _ => How::Halted,
        }
    }
}

/// Whether no frame is to be written at all.
fn is_none_wanted(most: Option<u64>) -> bool
    ensures { result ≡ is_zero most }
{
    match most {
        Some(count) => count == 0,
        None => false,
    }
}
