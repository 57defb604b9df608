//! A source and a sink in memory, of which named calls fail.
ghost use Rattle.std.specs.Prelude.{◌≡◌, ◌+◌, ◌-◌, ◌^◌, ◌<◌, ◌≤◌, ◌↔◌, ◌++◌, [], min, length, take, drop, Some, true, false, IfOk, OnOk, OnErr, IsErr, IsOk, IfSome, IsTrue, vec_len};
ghost use Rattle.device_port.specs.Trips.{is_next_named, counted};

use crate::calls::Calls;
use crate::{Failed, Sink, Source};
use chunk_core::List;
use std::alloc::{AllocError, Global};

/// Copies as much of the front as there is room for, and tells its length.
pub(crate) fn copy_front(from: &[u8], to: &mut [u8]) -> usize
    ensures count { result ≡ min (length from.now) (length to.new) }
    ensures bytes { take result to.new ≡ take result from.now }
{
    let count = from.len().min(to.len());
    to[..count].copy_from_slice(&from[..count]);
    count
}

/// Bytes in memory that are read from front to end.
#[derive(Drop)]
pub struct MemSource {
    bytes: Vec<u8>,
    at: usize,
    ended: bool,
    reads: Calls,
    faults: u64,
    ghost within: { at ≤ vec_len bytes },
}

impl MemSource {
    ghost use Rattle.device_port.specs.Memory.{source_told};

    /// A source of these bytes. The reads whose numbers, from 1, stand in `fail` fail.
    pub fn new(alloc: Global, bytes: &[u8], fail: List<u32>) -> Result<MemSource, AllocError>
        ensures told { IfOk result (λ s. source_told s ≡ record { left = Some bytes.now; ended = false; faults = 0 }) }
        ensures reads { IfOk result (λ s. s.reads ≡ record { fail = fail; made = 0 }) }
    {
        Ok(MemSource {
            bytes: Vec::from_slice(alloc, bytes)?,
            at: 0,
            ended: false,
            reads: Calls::new(fail),
            faults: 0,
        })
    }
}

impl Source for MemSource {
    ghost use Rattle.std.specs.Prelude.{◌≡◌, ◌+◌, ◌-◌, ◌^◌, ◌<◌, ◌≤◌, [], length, take, drop, Some, IfOk, OnErr, IfSome};
    ghost use Rattle.device_port.specs.Source.{without_front};
    ghost use Rattle.device_port.specs.Memory.{source_told};

    ghost told = { source_told };

    fn read(&mut self, buf: &mut [u8]) -> Result<usize, Failed>
        requires some { 0 < length buf.old }
        requires room { self.old.faults < 2 ^ 64 - 1 }
        ensures count { IfOk result (λ n. n ≤ length buf.new) }
        ensures ok { IfOk result (λ n. source_told self.new ≡ without_front n (source_told self.old)) }
        ensures bytes { IfOk result (λ n. IfSome (source_told self.old).left (λ left. take n buf.new ≡ take n left)) }
        ensures end { IfOk result (λ n. n ≡ 0 → IfSome (source_told self.old).left (λ left. left ≡ [])) }
        ensures failed { OnErr result (source_told self.new ≡ record (source_told self.old) { faults = (source_told self.old).faults + 1 }) }
        ensures most { IfOk result (λ n. n ≡ min (vec_len self.old.bytes - self.old.at) (length buf.new)) }
        ensures named { IsErr result ↔ IsTrue (is_next_named self.old.reads) }
        ensures counted { self.new.reads ≡ counted self.old.reads }
        ensures same { self.new.bytes ≡ self.old.bytes }
    {
        if self.reads.fails_next() {
            self.faults += 1;
            return Err(Failed);
        }
        let count = copy_front(&self.bytes[self.at..], buf);
        self.at += count;
        self.ended = count == 0;
        Ok(count)
    }
}

/// What was written, in memory.
#[derive(Drop)]
pub struct MemSink {
    bytes: Vec<u8>,
    writes: Calls,
    faults: u64,
    starved: u64,
    ghost few: { starved ≤ faults },
}

impl MemSink {
    ghost use Rattle.device_port.specs.Memory.{sink_told};

    /// A sink that was written nothing. The writes whose numbers, from 1, stand in `fail` fail.
    pub fn new(alloc: Global, fail: List<u32>) -> Result<MemSink, AllocError>
        ensures ok { IsOk result }
        ensures told { IfOk result (λ s. sink_told s ≡ record { written = Some []; faults = 0 }) }
        ensures writes { IfOk result (λ s. s.writes ≡ record { fail = fail; made = 0 }) }
        ensures starved { IfOk result (λ s. s.starved ≡ 0) }
    {
        Ok(MemSink {
            bytes: Vec::new(alloc),
            writes: Calls::new(fail),
            faults: 0,
            starved: 0,
        })
    }

    pub fn written(&self) -> &[u8]
        ensures { (sink_told self.now).written ≡ Some result.now }
    {
        self.bytes.as_slice()
    }

    /// How often a write failed.
    pub fn faults(&self) -> u64
        ensures { result ≡ (sink_told self.now).faults }
    {
        self.faults
    }

    /// How often a write failed since there was no memory for its bytes.
    pub fn starved(&self) -> u64
        ensures { result ≡ self.now.starved }
    {
        self.starved
    }
}

impl Sink for MemSink {
    ghost use Rattle.device_port.specs.Sink.{with_bytes};
    ghost use Rattle.device_port.specs.Memory.{sink_told};

    ghost told = { sink_told };

    fn write(&mut self, bytes: &[u8]) -> Result<usize, Failed>
        requires some { 0 < length bytes.now }
        requires room { (sink_told self.old).faults < 2 ^ 64 - 1 }
        ensures count { IfOk result (λ n. n ≡ length bytes.now) }
        ensures ok { OnOk result (sink_told self.new ≡ with_bytes (sink_told self.old) bytes.now) }
        ensures failed { OnErr result (sink_told self.new ≡ record (sink_told self.old) { faults = (sink_told self.old).faults + 1 }) }
        ensures named { is_next_named self.old.writes ≡ true → IsErr result × (self.new.starved ≡ self.old.starved) }
        ensures unnamed { is_next_named self.old.writes ≡ false → OnErr result (self.new.starved ≡ self.old.starved + 1) }
        ensures fed { OnOk result (self.new.starved ≡ self.old.starved) }
        ensures counted { self.new.writes ≡ counted self.old.writes }
    {
        if self.writes.fails_next() {
            self.faults += 1;
            return Err(Failed);
        }
        if self.bytes.extend_from_slice(bytes).is_err() {
            self.faults += 1;
            self.starved += 1;
            return Err(Failed);
        }
        Ok(bytes.len())
    }
}
