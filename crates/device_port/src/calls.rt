//! Which calls of a memory object are to fail.
ghost use Rattle.std.specs.Prelude.{◌≡◌, IfOk};
ghost use Rattle.std.specs.Str.{bytes_eq};
ghost use Rattle.device_port.specs.Trips.{is_next_named, counted, is_same_act, nths_of, calls_at};

use crate::{Act, Trip};
use chunk_core::List;
use std::alloc::{AllocError, Global};

/// The calls of one act: how many were made, and the numbers, from 1, of those that are to fail.
#[derive(Drop)]
pub(crate) struct Calls {
    fail: List<u32>,
    made: u64,
}

impl Calls {
    pub(crate) fn new(fail: List<u32>) -> Calls
        ensures { result ≡ record { fail = fail; made = 0 } }
    {
        Calls { fail, made: 0 }
    }

    /// Counts one more call, and tells whether it is to fail.
    pub(crate) fn fails_next(&mut self) -> bool
        ensures named { result ≡ is_next_named self.old }
        ensures counted { self.new ≡ counted self.old }
    {
        self.made = self.made.saturating_add(1);
        let call = self.made;
        self.fail
            .as_slice()
            .iter()
            .any(|nth| u64::from(*nth) == call)
    }
}

/// The calls of each act on one device.
#[derive(Drop)]
pub(crate) struct ActCalls {
    pub(crate) opens: Calls,
    pub(crate) reads: Calls,
    pub(crate) writes: Calls,
    pub(crate) closes: Calls,
}

impl ActCalls {
    /// The calls on a device of this path, of which none was made yet.
    pub(crate) fn at(alloc: Global, trips: &[Trip], path: &str) -> Result<ActCalls, AllocError>
        ensures { IfOk result (λ calls. calls ≡ calls_at path.now trips.now) }
    {
        Ok(ActCalls {
            opens: Calls::new(nths_of(alloc, trips, path, Act::Open)?),
            reads: Calls::new(nths_of(alloc, trips, path, Act::Read)?),
            writes: Calls::new(nths_of(alloc, trips, path, Act::Write)?),
            closes: Calls::new(nths_of(alloc, trips, path, Act::Close)?),
        })
    }
}

/// The numbers of the calls of this act that are to fail at the path.
fn nths_of(alloc: Global, trips: &[Trip], path: &str, act: Act) -> Result<List<u32>, AllocError>
    ensures { IfOk result (λ nths. nths ≡ nths_of path.now act trips.now) }
{
    let mut nths = List::new(alloc);
    for trip in trips {
        if trip.act == act && trip.path.as_str() == path {
            nths.push(trip.nth)?;
        }
    }
    Ok(nths)
}
