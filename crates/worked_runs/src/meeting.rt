//! Two streams of which one is held until the other makes a call: they end only where both run at once.
use crate::asserts::{holds_at, same_at};
use crate::reports::all_ended;
use chunk_core::{Exit, How, Word};
use device_port::{Depot, Device, Failed, Gate, MemDepot, Mode, OpenGate};
use flume_cli::Status;
use ledger_audit::audit;
use ledger_verdict::Verdict;
use std::alloc::{AllocError, Global};
use std::process::Abort;
use std::sync::atomic::AtomicU64;
use std::sync::atomic::Ordering::SeqCst;
use std::sync::{Arc, Wait};
use std::test::Fail;
use std::thread::Threads;
use worked_calls::outside::{Case, Printed, call_over, cat_of, depot_of, run_of};

/// How often the first looks for the second before it gives up.
const LOOKS: u32 = 1_000_000_000;

/// Where stream 0 is held at its first call until stream 1 makes a call.
#[derive(Drop)]
struct Meeting {
    calls_of_first: AtomicU64,
    calls_of_second: AtomicU64,
    gave_up: AtomicU64,
}

impl Meeting {
    fn new() -> Meeting {
        Meeting {
            calls_of_first: AtomicU64::new(0),
            calls_of_second: AtomicU64::new(0),
            gave_up: AtomicU64::new(0),
        }
    }

    fn come(&self, number: u64) {
        match number {
            0 => {
                if self.calls_of_first.fetch_add(1, SeqCst) == 0 {
                    self.await_second();
                }
            }
            1 => {
                self.calls_of_second.fetch_add(1, SeqCst);
            }
            _ => {}
        }
    }

    fn await_second(&self) {
        for _ in 0..LOOKS {
            if self.calls_of_second.load(SeqCst) != 0 {
                return;
            }
        }
        self.gave_up.store(1, SeqCst);
    }

    /// Fails the test unless both came, and nobody gave up.
    fn was_kept(&self, rt: &impl Abort, place: &str) {
        holds_at(rt, self.calls_of_first.load(SeqCst) != 0, &place);
        holds_at(rt, self.calls_of_second.load(SeqCst) != 0, &place);
        same_at(rt, self.gave_up.load(SeqCst), 0, &place);
    }
}

impl Gate for Meeting {
    fn pass(&self, stream: u32) {
        self.come(u64::from(stream))
    }
}

/// A device of which each read comes to a meeting, under the device's number.
#[derive(Drop)]
struct MeetingDevice<V> {
    device: V,
    meeting: Arc<Meeting>,
}

impl<V: Device> Device for MeetingDevice<V> {
    ghost told = { λ d. V.told d.device };

    ghost open_once = { λ d. V.open_once d.device };

    ghost no_exit = { λ d. V.no_exit d.device };

    ghost within = { λ d. V.within d.device };

    ghost no_open = { λ d. V.no_open d.device };

    fn number(&self) -> u64 {
        self.device.number()
    }

    fn is_open(&self) -> bool {
        self.device.is_open()
    }

    fn open(&mut self) -> Result<(), Failed> {
        self.device.open()
    }

    fn read(&mut self, buf: &mut [u8]) -> Result<usize, Failed> {
        self.meeting.come(self.device.number());
        self.device.read(buf)
    }

    fn write(&mut self, bytes: &[u8]) -> Result<usize, Failed> {
        self.device.write(bytes)
    }

    fn close(&mut self, exit: Exit) -> Result<(), Failed> {
        self.device.close(exit)
    }
}

/// A depot of such devices.
#[derive(Drop)]
struct MeetingDepot<D> {
    depot: D,
    meeting: Arc<Meeting>,
}

impl<D: Depot> Depot for MeetingDepot<D> {
    type Dev = MeetingDevice<D::Dev>;

    ghost told = { λ d. D.told d.depot };

    fn make(
        &mut self,
        alloc: Global,
        path: &Word,
        mode: Mode,
    ) -> Result<MeetingDevice<D::Dev>, AllocError> {
        let meeting = Arc::try_clone(&self.meeting)?;
        Ok(MeetingDevice {
            device: self.depot.make(alloc, path, mode)?,
            meeting,
        })
    }

    fn retire(&mut self, dev: MeetingDevice<D::Dev>) {
        self.depot.retire(dev.device);
    }
}

/// Two streams of different files, both of which may be open.
fn two_streams<'a>() -> Case<'a> {
    Case {
        others: &[("b", b"other file\n")],
        ..run_of(
            "max_open = 2\n[[stream]]\npath = 'a'\n[[stream]]\npath = 'b'\n",
            b"hello\n",
        )
    }
}

/// Fails the test unless nothing failed, both streams were done, and the ledger is in order.
fn ended_well(
    rt: &impl Abort,
    alloc: Global,
    seen: &Printed,
    place: &str,
) -> Result<(), AllocError> {
    let report = &seen.report;
    same_at(rt, report.status, Status::Good, &place);
    same_at(rt, report.ends.len(), 3, &place);
    holds_at(rt, all_ended(report, How::Done, How::Done), &place);
    let verdict = audit(alloc, &report.ledger)?;
    same_at(rt, verdict, Verdict::Clean, &place);
    Ok(())
}

/// Fails the test unless the turns of two streams meet at a gate.
fn turns_meet<R: Abort + Threads + Wait + Sync>(
    rt: &R,
    alloc: Global,
    case: &Case,
    place: &str,
) -> Result<(), AllocError> {
    let meeting = Meeting::new();
    let mut depot = depot_of(alloc, case)?;
    let seen = call_over(rt, alloc, case, &mut depot, &meeting)?;
    meeting.was_kept(rt, place);
    ended_well(rt, alloc, &seen, place)
}

/// Fails the test unless the reads of two streams meet in a depot.
fn reads_meet<R: Abort + Threads + Wait + Sync>(
    rt: &R,
    alloc: Global,
    case: &Case,
    place: &str,
) -> Result<(), AllocError> {
    let meeting = Arc::new(alloc, Meeting::new())?;
    let mut depot: MeetingDepot<MemDepot> = MeetingDepot {
        depot: depot_of(alloc, case)?,
        meeting: Arc::try_clone(&meeting)?,
    };
    let seen = call_over(rt, alloc, case, &mut depot, &OpenGate)?;
    meeting.was_kept(rt, place);
    ended_well(rt, alloc, &seen, place)
}

/// Two streams make their turns at once, whether a description or `gen` has them, and read at once.
#[test]
fn streams_meet(rt: HostRuntime) -> Result<(), Fail> {
    let alloc = rt.alloc();
    turns_meet(&rt, alloc, &two_streams(), "a gate")?;
    reads_meet(&rt, alloc, &two_streams(), "a depot")?;
    let generated = Case {
        words: &["gen", "0", "2", "3"],
        ..cat_of(b"not read")
    };
    turns_meet(&rt, alloc, &generated, "a gate of gen")?;
    Ok(())
}

/// A gate that counts its calls for the first two streams.
#[derive(Drop)]
struct CountingGate {
    first: AtomicU64,
    second: AtomicU64,
}

impl Gate for CountingGate {
    fn pass(&self, stream: u32) {
        match stream {
            0 => {
                self.first.fetch_add(1, SeqCst);
            }
            1 => {
                self.second.fetch_add(1, SeqCst);
            }
            _ => {}
        }
    }
}

/// Each stream passes the gate before each of its turns: its 80,000 bytes are read in pieces of at most
/// 4,096, one a turn.
#[test]
fn each_turn_passes_the_gate(rt: HostRuntime) -> Result<(), Fail> {
    let case = Case {
        words: &["gen", "0", "2", "20000"],
        ..cat_of(b"not read")
    };
    let gate = CountingGate {
        first: AtomicU64::new(0),
        second: AtomicU64::new(0),
    };
    let mut depot = depot_of(rt.alloc(), &case)?;
    let seen = call_over(&rt, rt.alloc(), &case, &mut depot, &gate)?;
    ended_well(&rt, rt.alloc(), &seen, "a count of turns")?;
    holds_at(&rt, gate.first.load(SeqCst) >= 20, &"stream 0");
    holds_at(&rt, gate.second.load(SeqCst) >= 20, &"stream 1");
    Ok(())
}
