//! What was seen of a call, and what holds of every call.
use crate::wrongs::Wrongs;
use chunk_core::{Exit, Line};
use device_port::{MemDepot, MemSink, Mode, Record};
use printed_parts::{End, Event, What};
use std::alloc::AllocError;

/// What is left of a call.
#[derive(Drop)]
pub struct Seen {
    pub status: u8,
    pub out: MemSink,
    pub err: MemSink,
    pub depot: MemDepot,
    /// The text of the ends and the ledger that were reported.
    pub tail: Line,
}

impl Seen {
    /// Whether a write to the output failed.
    pub fn is_cut(&self) -> bool {
        self.out.faults() != 0
    }

    /// How many devices were opened to be written.
    pub fn opens_written(&self) -> usize {
        let records = self.depot.retired();
        let is_so = |it: &Record| it.opens() == 1 && it.mode == Mode::Write;
        records.iter().filter(|it| is_so(it)).count()
    }

    /// How many devices of this path were opened and closed with this exit.
    pub fn closes_so(&self, path: &str, exit: &str) -> usize {
        let records = self.depot.retired();
        let is_so = |it: &Record| it.path.as_str() == path && exit_of(it) == exit;
        records.iter().filter(|it| is_so(it)).count()
    }

    /// What was written to the file of this path, where it was opened to be written.
    pub fn wrote(&self, path: &str) -> Option<&[u8]> {
        let found = self.depot.retired().iter().find(|it| it.wrote(path))?;
        Some(found.written.as_slice())
    }
}

/// The exit that closed it, as the ledger has it.
fn exit_of(it: &Record) -> &'static str {
    match it.exit() {
        Some(Exit::Succeeded) => "succeeded",
        Some(Exit::Errored) => "errored",
        Some(Exit::Canceled) => "canceled",
        None => "",
    }
}

/// The status of a call of which all was printed, whose streams ended so, and which noted this.
pub fn status_of(ends: &[End], events: &[Event]) -> u8 {
    let is_failed = |event: &Event| matches!(event.what, What::Final(_, _, false));
    if ends.iter().any(|end| end.is_fault()) {
        1
    } else if events.iter().any(|event| is_failed(event)) {
        7
    } else {
        0
    }
}

/// The call ended with this status, or where a write failed with that of this, and told standard error nothing.
pub fn judge_status(seen: &Seen, status: u8, wrongs: &mut Wrongs) -> Result<(), AllocError> {
    let wanted = if seen.is_cut() { 4 } else { status };
    let holds = seen.status == wanted;
    wrongs.unless(holds, "another status", usize::from(seen.status))?;
    let told = seen.err.written().len();
    wrongs.unless(told == 0, "standard error was told something", told)
}

/// Each device that was made came back, closed as often as it was opened, which was tried once at most, and as many were opened as there are
/// Finals.
pub fn judge_devices(seen: &Seen, events: &[Event], wrongs: &mut Wrongs) -> Result<(), AllocError> {
    let (made, records) = (seen.depot.made().len(), seen.depot.retired());
    let is_closed = records.iter().all(|it| it.closes() == it.opens());
    let holds = made == records.len() && is_closed;
    wrongs.unless(holds, "a device didn't come back closed", made)?;
    let is_once = |it: &Record| it.opens().saturating_add(it.open_faults) <= 1;
    let holds = records.iter().all(|it| is_once(it));
    wrongs.unless(holds, "a device was opened again", made)?;
    let is_final = |event: &Event| matches!(event.what, What::Final(..));
    let finals = events.iter().filter(|event| is_final(event)).count();
    let opened = records.iter().filter(|it| it.opens() == 1).count();
    wrongs.unless(opened == finals, "devices that have no Final", opened)
}
