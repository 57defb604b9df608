//! A device in memory, of which named calls fail.
ghost use Rattle.std.specs.Prelude.{◌≡◌, ◌+◌, ◌-◌, ◌^◌, ◌<◌, ◌≤◌, ◌↔◌, ◌||◌, ◌&&◌, not, min, length, take, drop, true, false, Some, IfOk, OnOk, OnErr, IsErr, IfSome, IsTrue};
ghost use Rattle.device_port.specs.Trips.{is_next_named, counted};
ghost use Rattle.device_port.specs.Device.{moved, with_written, closed_with, is_read};
ghost use Rattle.device_port.specs.Stage.{times_opened};
ghost use Rattle.device_port.specs.declared.device.Mode.TheVariants as mode;

use crate::calls::ActCalls;
use crate::mem::copy_front;
use crate::record::{Record, Stage};
use crate::{Device, Failed, Mode};
use chunk_core::Exit;

/// A device in memory. It is made by a depot in memory.
#[derive(Drop)]
pub struct MemDevice {
    facts: Record,
    calls: ActCalls,
    ghost within: { facts.at ≤ length facts.content.items },
    ghost unopened: { facts.mode ≡ mode.Read → facts.present ≡ false → times_opened facts.stage ≡ 0 },
}

impl MemDevice {
    pub(crate) fn new(facts: Record, calls: ActCalls) -> MemDevice
        requires front { facts.at ≡ 0 }
        requires stage { times_opened facts.stage ≡ 0 }
        ensures facts { result.facts ≡ facts }
        ensures calls { result.calls ≡ calls }
    {
        MemDevice { facts, calls }
    }

    pub(crate) fn into_facts(self) -> Record
        ensures { result ≡ self.facts }
    {
        self.facts
    }

    /// What it has come to.
    pub fn facts(&self) -> &Record
        ensures { result.now ≡ self.now.facts }
    {
        &self.facts
    }
}

impl Device for MemDevice {
    ghost use Rattle.device_port.specs.Records.{record_told};
    ghost use Rattle.device_port.specs.Stage.{open_once_at, no_exit_at, no_open_at};

    ghost told = { λ d. record_told d.facts };

    ghost open_once = { λ d. open_once_at d.facts.stage };

    ghost no_exit = { λ d. no_exit_at d.facts.stage };

    ghost within = { λ d. d.within };

    ghost no_open = { λ d. no_open_at d.facts.mode d.facts.present d.facts.stage d.unopened };

    fn number(&self) -> u64 {
        self.facts.number
    }

    fn is_open(&self) -> bool {
        self.facts.stage.is_open()
    }

    fn open(&mut self) -> Result<(), Failed>
        requires never { ((record_told self.old.facts).opens ≡ 0) × ((record_told self.old.facts).is_open ≡ false) }
        requires room { self.old.facts.open_faults < 2 ^ 64 - 1 }
        ensures ok { OnOk result (record_told self.new.facts ≡ record (record_told self.old.facts) { is_open = true; opens = 1 }) }
        ensures failed { OnErr result (record_told self.new.facts ≡ record (record_told self.old.facts) { open_faults = self.old.facts.open_faults + 1 }) }
        ensures named { IsErr result ↔ IsTrue (is_next_named self.old.calls.opens || (is_read self.old.facts.mode && not self.old.facts.present)) }
        ensures starved { self.new.facts.starved ≡ self.old.facts.starved }
        ensures counted { self.new.calls ≡ record self.old.calls { opens = counted self.old.calls.opens } }
    {
        let missing = self.facts.mode == Mode::Read && !self.facts.present;
        if self.calls.opens.fails_next() || missing {
            self.facts.open_faults += 1;
            return Err(Failed);
        }
        self.facts.stage = Stage::Open;
        Ok(())
    }

    fn read(&mut self, buf: &mut [u8]) -> Result<usize, Failed>
        requires some { 0 < length buf.old }
        requires open { (record_told self.old.facts).is_open ≡ true }
        requires mode { self.old.facts.mode ≡ mode.Read }
        requires room { self.old.facts.read_faults < 2 ^ 64 - 1 }
        ensures count { IfOk result (λ n. n ≡ min (length self.old.facts.content.items - self.old.facts.at) (length buf.new)) }
        ensures ok { IfOk result (λ n. record_told self.new.facts ≡ moved n (record_told self.old.facts)) }
        ensures bytes { IfOk result (λ n. take n buf.new ≡ take n (drop self.old.facts.at self.old.facts.content.items)) }
        ensures end { IfOk result (λ n. n ≡ 0 → length self.old.facts.content.items ≤ self.old.facts.at) }
        ensures failed { OnErr result (record_told self.new.facts ≡ record (record_told self.old.facts) { read_faults = self.old.facts.read_faults + 1 }) }
        ensures named { IsErr result ↔ IsTrue (is_next_named self.old.calls.reads) }
        ensures starved { self.new.facts.starved ≡ self.old.facts.starved }
        ensures counted { self.new.calls ≡ record self.old.calls { reads = counted self.old.calls.reads } }
    {
        if self.calls.reads.fails_next() {
            self.facts.read_faults += 1;
            return Err(Failed);
        }
        let count = copy_front(&self.facts.content[self.facts.at..], buf);
        self.facts.at += count;
        self.facts.ended = count == 0;
        Ok(count)
    }

    fn write(&mut self, bytes: &[u8]) -> Result<usize, Failed>
        requires some { 0 < length bytes.now }
        requires open { (record_told self.old.facts).is_open ≡ true }
        requires mode { self.old.facts.mode ≡ mode.Write }
        requires room { self.old.facts.write_faults < 2 ^ 64 - 1 }
        ensures count { IfOk result (λ n. n ≡ length bytes.now) }
        ensures ok { OnOk result (record_told self.new.facts ≡ with_written (record_told self.old.facts) bytes.now) }
        ensures failed { OnErr result (record_told self.new.facts ≡ record (record_told self.old.facts) { write_faults = self.old.facts.write_faults + 1 }) }
        ensures named { is_next_named self.old.calls.writes ≡ true → IsErr result × (self.new.facts.starved ≡ self.old.facts.starved) }
        ensures unnamed { is_next_named self.old.calls.writes ≡ false → OnErr result (self.new.facts.starved ≡ self.old.facts.starved + 1) }
        ensures fed { OnOk result (self.new.facts.starved ≡ self.old.facts.starved) }
        ensures counted { self.new.calls ≡ record self.old.calls { writes = counted self.old.calls.writes } }
    {
        if self.calls.writes.fails_next() {
            self.facts.write_faults += 1;
            return Err(Failed);
        }
        if self.facts.written.extend_from_slice(bytes).is_err() {
            self.facts.write_faults += 1;
            self.facts.starved += 1;
            return Err(Failed);
        }
        Ok(bytes.len())
    }

    fn close(&mut self, exit: Exit) -> Result<(), Failed>
        requires open { (record_told self.old.facts).is_open ≡ true }
        ensures ok { OnOk result (record_told self.new.facts ≡ closed_with exit (record_told self.old.facts)) }
        ensures failed { OnErr result (record_told self.new.facts ≡ record (closed_with exit (record_told self.old.facts)) { close_faults = 1 }) }
        ensures named { IsErr result ↔ IsTrue (is_next_named self.old.calls.closes) }
        ensures starved { self.new.facts.starved ≡ self.old.facts.starved }
        ensures counted { self.new.calls ≡ record self.old.calls { closes = counted self.old.calls.closes } }
    {
        if self.calls.closes.fails_next() {
            self.facts.stage = Stage::ClosedBadly(exit);
            return Err(Failed);
        }
        self.facts.stage = Stage::Closed(exit);
        Ok(())
    }
}
