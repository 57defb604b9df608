//! A depot in memory.
ghost use Rattle.std.specs.Prelude.{map, nat_eq, vec_len, vec_capacity, ◌≤◌};
ghost use Rattle.std.specs.List.{IsDistinct-prop};
ghost use Rattle.device_port.specs.Depot.{device_numbers, HaveOwnNumbers, AreBelow};
ghost use Rattle.device_port.specs.Records.{record_told};

use crate::calls::ActCalls;
use crate::files::bytes_at;
use crate::{Depot, Device, FileOf, MemDevice, Mode, PlaceOf, Record, Stage, Trip};
use chunk_core::{List, Word};
use std::alloc::{AllocError, Global};

/// Files in memory, and the devices that were made for them.
#[derive(Drop)]
pub struct MemDepot {
    files: List<FileOf>,
    fail: List<Trip>,
    made: Vec<PlaceOf>,
    retired: Vec<Record>,
    ghost apart: { HaveOwnNumbers (map record_told retired.items) } by { IsDistinct-prop nat_eq (device_numbers (map record_told retired.items)) },
    ghost below: { AreBelow (vec_len made) (map record_told retired.items) },
    ghost room: { vec_len made ≤ vec_capacity retired },
}

impl MemDepot {
    ghost use Rattle.std.specs.Prelude.{◌≡◌, [], Some, IfOk, option_map, vec_len, length};
    ghost use Rattle.std.specs.Option.{option_copied};
    ghost use Rattle.device_port.specs.Depot.{DepotTold, fresh};
    ghost use Rattle.device_port.specs.Files.{bytes_at, place_of};
    ghost use Rattle.device_port.specs.MemDepot.{depot_told};

    /// A depot of these files, which made no device. Of two files with one path the first counts.
    /// The calls that `fail` names fail.
    pub fn new(alloc: Global, files: List<FileOf>, fail: List<Trip>) -> Result<MemDepot, AllocError>
        ensures told { IfOk result (λ d. depot_told d ≡ record { files = Some (bytes_at files []); made = []; retired = [] }) }
        ensures fail { IfOk result (λ d. d.fail ≡ fail) }
    {
        Ok(MemDepot {
            files,
            fail,
            made: Vec::new(alloc),
            retired: Vec::new(alloc),
        })
    }

    /// The bytes at a path, where it is there.
    pub fn file(&self, path: &str) -> Option<&[u8]>
        ensures { option_map (λ b. b.now) result ≡ bytes_at self.now.files self.now.retired.items path.now }
    {
        bytes_at(self.files.as_slice(), self.retired.as_slice(), path)
    }

    /// The places of the devices that were made, in order.
    pub fn made(&self) -> &[PlaceOf]
        ensures { map place_of result.now ≡ (depot_told self.now).made }
    {
        self.made.as_slice()
    }

    /// What the devices that came back had come to, in the order in which they came.
    pub fn retired(&self) -> &[Record]
        ensures { map record_told result.now ≡ (depot_told self.now).retired }
    {
        self.retired.as_slice()
    }

    /// What a device that is made now begins with.
    fn facts_at(&self, alloc: Global, path: &Word, mode: Mode) -> Result<Record, AllocError>
        ensures told { IfOk result (λ r. record_told r ≡ fresh (depot_told self.now) (record { path = path.now; mode = mode })) }
        ensures starved { IfOk result (λ r. r.starved ≡ 0) }
    {
        let found = self.file(path.as_str());
        let present = found.is_some();
        let content = match found {
            Some(bytes) => Vec::from_slice(alloc, bytes)?,
            None => Vec::new(alloc),
        };
        Ok(Record {
            number: self.made.len() as u64,
            path: Word::of(alloc, path.as_str())?,
            mode,
            present,
            content,
            at: 0,
            ended: false,
            written: Vec::new(alloc),
            stage: Stage::Unopened,
            open_faults: 0,
            read_faults: 0,
            write_faults: 0,
            starved: 0,
        })
    }
}

impl Depot for MemDepot {
    ghost use Rattle.std.specs.Prelude.{◌≡◌, ◌++◌, ◌∷◌, [], IfOk, OnErr};
    ghost use Rattle.device_port.specs.Depot.{Makes, MayReturn, KeepsOtherFiles, KeepsWritten};
    ghost use Rattle.device_port.specs.Files.{Stores};
    ghost use Rattle.device_port.specs.Trips.{calls_at};
    ghost use Rattle.device_port.specs.MemDepot.{depot_told};

    type Dev = MemDevice;

    ghost told = { depot_told };

    fn make(&mut self, alloc: Global, path: &Word, mode: Mode) -> Result<MemDevice, AllocError>
        ensures made { IfOk result (λ dev. Makes (depot_told self.old) (depot_told self.new) path.now mode (record_told dev.facts)) }
        ensures unmade { OnErr result (depot_told self.new ≡ depot_told self.old) }
        ensures calls { IfOk result (λ dev. dev.calls ≡ calls_at path.now self.old.fail) }
        ensures starved { IfOk result (λ dev. dev.facts.starved ≡ 0) }
        ensures same { (self.new.files ≡ self.old.files) × (self.new.fail ≡ self.old.fail) }
    {
        let facts = self.facts_at(alloc, path, mode)?;
        let calls = ActCalls::at(alloc, self.fail.as_slice(), path.as_str())?;
        let place = PlaceOf {
            path: Word::of(alloc, path.as_str())?,
            mode,
        };
        self.made.reserve(1)?;
        self.retired.reserve(self.made.capacity())?;
        self.made.push_reserved(place);
        Ok(MemDevice::new(facts, calls))
    }

    fn retire(&mut self, dev: MemDevice)
        requires { MayReturn (depot_told self.old) (record_told dev.facts) }
        ensures retired { (depot_told self.new).retired ≡ (depot_told self.old).retired ++ record_told dev.facts ∷ [] }
        ensures made { (depot_told self.new).made ≡ (depot_told self.old).made }
        ensures files { KeepsOtherFiles (depot_told self.old) (depot_told self.new) (record_told dev.facts) }
        ensures written { KeepsWritten (depot_told self.new).files (record_told dev.facts) }
        ensures facts { self.new.retired.items ≡ self.old.retired.items ++ dev.facts ∷ [] }
        ensures stored { Stores self.old.files self.old.retired.items self.new.retired.items dev.facts }
        ensures same { (self.new.files ≡ self.old.files) × (self.new.fail ≡ self.old.fail) }
    {
        self.retired.push_reserved(dev.into_facts());
    }
}
