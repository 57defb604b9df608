//! The ledger beside the closes of the devices.
use crate::asserts::{holds_at, same};
use crate::tables::LOOKUP;
use chunk_core::{Exit, Word};
use device_port::{Act, Depot, Device, Failed, MemDepot, Mode, OpenGate};
use flume_cli::{Report, Status};
use res_ledger::{Ledger, StreamNo, What};
use std::alloc::{AllocError, Global};
use std::process::Abort;
use std::sync::atomic::AtomicU64;
use std::sync::atomic::Ordering::SeqCst;
use std::sync::{Arc, Wait};
use std::test::Fail;
use std::thread::Threads;
use worked_calls::outside::{Case, Printed, call_over, depot_of, run_of};

/// A close of a device: how many came before it, the device's number, and the exit that it was told.
#[derive(Clone, Copy, Debug)]
struct Closing {
    turn: u64,
    number: u64,
    exit: Exit,
}

/// A device that keeps its close. The devices of a depot share one count of closes.
#[derive(Drop)]
struct Watched<V> {
    device: V,
    count: Arc<AtomicU64>,
    closing: Option<Closing>,
}

impl<V: Device> Device for Watched<V> {
    ghost told = { λ d. V.told d.device };

    ghost open_once = { λ d. V.open_once d.device };

    ghost no_exit = { λ d. V.no_exit d.device };

    ghost within = { λ d. V.within d.device };

    ghost no_open = { λ d. V.no_open d.device };

    fn number(&self) -> u64 {
        self.device.number()
    }

    fn is_open(&self) -> bool {
        self.device.is_open()
    }

    fn open(&mut self) -> Result<(), Failed> {
        self.device.open()
    }

    fn read(&mut self, buf: &mut [u8]) -> Result<usize, Failed> {
        self.device.read(buf)
    }

    fn write(&mut self, bytes: &[u8]) -> Result<usize, Failed> {
        self.device.write(bytes)
    }

    fn close(&mut self, exit: Exit) -> Result<(), Failed> {
        self.closing = Some(Closing {
            turn: self.count.fetch_add(1, SeqCst),
            number: self.device.number(),
            exit,
        });
        self.device.close(exit)
    }
}

/// A depot of such devices, which keeps the closes of those that came back.
#[derive(Drop)]
struct WatchedDepot<D> {
    depot: D,
    count: Arc<AtomicU64>,
    closings: Vec<Closing>,
}

impl<D: Depot> Depot for WatchedDepot<D> {
    type Dev = Watched<D::Dev>;

    ghost told = { λ d. D.told d.depot };

    fn make(
        &mut self,
        alloc: Global,
        path: &Word,
        mode: Mode,
    ) -> Result<Watched<D::Dev>, AllocError> {
        let count = Arc::try_clone(&self.count)?;
        Ok(Watched {
            device: self.depot.make(alloc, path, mode)?,
            count,
            closing: None,
        })
    }

    fn retire(&mut self, dev: Watched<D::Dev>) {
        if let Some(closing) = dev.closing {
            let _ = self.closings.push(closing);
        }
        self.depot.retire(dev.device);
    }
}

/// A depot of the files of the case, of which nothing is closed yet.
fn fresh_depot(alloc: Global, case: &Case) -> Result<WatchedDepot<MemDepot>, AllocError> {
    Ok(WatchedDepot {
        depot: depot_of(alloc, case)?,
        count: Arc::new(alloc, AtomicU64::new(0))?,
        closings: Vec::new(alloc),
    })
}

/// Runs the case over a depot whose devices are watched. Its closes are in the order of the calls.
fn watch<R: Threads + Wait + Sync>(
    rt: &R,
    alloc: Global,
    case: &Case,
) -> Result<(Report, WatchedDepot<MemDepot>), AllocError> {
    let mut depot = fresh_depot(alloc, case)?;
    let Printed {
        report,
        out: _,
        err: _,
    } = call_over(rt, alloc, case, &mut depot, &OpenGate)?;
    depot.closings.sort_unstable_by_key(|closing| closing.turn);
    Ok((report, depot))
}

/// A line for each close: the path of the device, and the exit.
fn closes_of(alloc: Global, depot: &WatchedDepot<MemDepot>) -> Result<String, AllocError> {
    let mut text = String::new(alloc);
    for closing in &depot.closings {
        if let Some(place) = depot.depot.made().get(closing.number as usize) {
            let path = place.path.as_str();
            let exit = closing.exit;
            writeln!(text, "{path} {exit}")?;
        }
    }
    Ok(text)
}

/// The paths of the rows in the order of their numbers: the tables, and then the streams' files.
const PATHS: [&str; 5] = ["t.csv", "u.csv", "a", "b", "c"];

/// A line for each Final: the path of the row, of these, and the exit.
fn finals_of(alloc: Global, ledger: &Ledger, paths: &[&str]) -> Result<String, AllocError> {
    let mut text = String::new(alloc);
    for event in ledger.as_slice() {
        if let What::Final { row, exit, .. } = event.what {
            let path = paths.get(row as usize).copied().unwrap_or("no path");
            writeln!(text, "{path} {exit}")?;
        }
    }
    Ok(text)
}

/// Two tables, and three streams that look up in both.
const STREAMS: &str = "chunk = 1\n\
    [[table]]\nname = 't'\npath = 't.csv'\n[[table]]\nname = 'u'\npath = 'u.csv'\n\
    [[stream]]\npath = 'a'\nsteps = ['csv', 'lookup t 0', 'lookup u 0']\n\
    [[stream]]\npath = 'b'\nsteps = ['csv', 'lookup t 0', 'lookup u 0']\n\
    [[stream]]\npath = 'c'\nsteps = ['csv', 'lookup t 0', 'lookup u 0']\n";

/// Runs the streams, of which so many may be open, and the last has the shortest file.
fn watch_streams<R: Threads + Wait + Sync>(
    rt: &R,
    alloc: Global,
    max_open: &str,
    trips: &[(&str, Act, u32)],
) -> Result<(Report, WatchedDepot<MemDepot>), AllocError> {
    let text = format!(in alloc; "max_open = {max_open}\n{STREAMS}")?;
    let case = Case {
        others: &[
            ("t.csv", b"k,v\n"),
            ("u.csv", b"k,w\n"),
            ("b", b"k\nz\n"),
            ("c", b"k\n"),
        ],
        other_trips: trips,
        ..run_of(text.as_str(), b"k\nz\nz\n")
    };
    watch(rt, alloc, &case)
}

/// Fails the test unless a run of the streams one by one ends with this status, its devices are closed
/// so, and the Finals of its ledger tell the same.
fn closes_one_by_one<R: Abort + Threads + Wait + Sync>(
    rt: &R,
    alloc: Global,
    trips: &[(&str, Act, u32)],
    status: Status,
    closes: &str,
) -> Result<(), AllocError> {
    let seen = watch_streams(rt, alloc, "1", trips)?;
    same(rt, seen.0.status, status);
    is_closed_so(rt, alloc, &seen, &PATHS, closes)
}

/// Fails the test unless the devices were closed so, and the Finals tell the same of the rows of these
/// paths.
fn is_closed_so(
    rt: &impl Abort,
    alloc: Global,
    seen: &(Report, WatchedDepot<MemDepot>),
    paths: &[&str],
    closes: &str,
) -> Result<(), AllocError> {
    let (report, depot) = seen;
    let made = closes_of(alloc, depot)?;
    same(rt, made.as_str(), closes);
    let told = finals_of(alloc, &report.ledger, paths)?;
    same(rt, told.as_str(), closes);
    Ok(())
}

/// The close of the device of a row.
fn close_of_row(depot: &WatchedDepot<MemDepot>, row: u32) -> Option<Closing> {
    let wanted = PATHS.get(row as usize).copied()?;
    for closing in &depot.closings {
        if let Some(place) = depot.depot.made().get(closing.number as usize) {
            if place.path.as_str() == wanted {
                return Some(*closing);
            }
        }
    }
    None
}

/// A stream's number behind that of the outer one.
fn place_of(name: StreamNo) -> usize {
    match name {
        StreamNo::Outer => 0,
        StreamNo::Inner(k) => (k as usize).saturating_add(1),
    }
}

/// How many Finals tell a close with its exit, those of each stream in the order of its closes.
fn finals_in_order(report: &Report, depot: &WatchedDepot<MemDepot>) -> usize {
    let mut turns = [0u64; 4];
    let mut count: usize = 0;
    for event in report.ledger.as_slice() {
        if let What::Final { row, exit, .. } = event.what {
            if let (Some(closing), Some(turn)) = (
                close_of_row(depot, row),
                turns.get_mut(place_of(event.by)),
            ) {
                if closing.exit == exit && closing.turn >= *turn {
                    *turn = closing.turn.saturating_add(1);
                    count = count.saturating_add(1);
                }
            }
        }
    }
    count
}

/// How many events of a ledger are Finals.
fn count_finals(ledger: &Ledger) -> usize {
    ledger
        .as_slice()
        .iter()
        .filter(|event| matches!(event.what, What::Final { .. }))
        .count()
}

/// Fails the test unless a run of the streams side by side ends with this status, and closes at least so
/// many devices, of which the Finals of its ledger tell each, those of each stream in the order of its closes.
fn closes_side_by_side<R: Abort + Threads + Wait + Sync>(
    rt: &R,
    alloc: Global,
    trips: &[(&str, Act, u32)],
    status: Status,
    least: usize,
) -> Result<(), AllocError> {
    let (report, depot) = watch_streams(rt, alloc, "64", trips)?;
    same(rt, report.status, status);
    let count = depot.closings.len();
    holds_at(rt, count >= least, &count);
    same(rt, count_finals(&report.ledger), count);
    same(rt, finals_in_order(&report, &depot), count);
    Ok(())
}

/// The Finals of the ledger tell each close of a device with its exit, those of each stream in the order
/// of the calls, whether the streams run one by one or side by side.
#[test]
fn finals_are_the_closes(rt: HostRuntime) -> Result<(), Fail> {
    let one = "a succeeded\nb succeeded\nc succeeded\nu.csv succeeded\nt.csv succeeded\n";
    closes_one_by_one(&rt, rt.alloc(), &[], Status::Good, one)?;
    closes_side_by_side(&rt, rt.alloc(), &[], Status::Good, 5)?;
    Ok(())
}

/// The same where a read of the second stream fails, which halts the others that are open by then.
#[test]
fn finals_are_the_closes_behind_a_fault(rt: HostRuntime) -> Result<(), Fail> {
    let trips = [("b", Act::Read, 2)];
    let one = "a succeeded\nb errored\nu.csv canceled\nt.csv canceled\n";
    closes_one_by_one(&rt, rt.alloc(), &trips, Status::Faulty, one)?;
    closes_side_by_side(&rt, rt.alloc(), &trips, Status::Faulty, 3)?;
    Ok(())
}

/// Descriptions of one stream or none, the paths of their rows, and the closes.
const ROWS: [(&str, &[&str], &str); 4] = [
    (LOOKUP, &["t.csv", "a"], "a succeeded\nt.csv succeeded\n"),
    (
        "[[table]]\nname = 't'\npath = 't.csv'\n[[table]]\nname = 'u'\npath = 'u.csv'\n",
        &["t.csv", "u.csv"],
        "u.csv succeeded\nt.csv succeeded\n",
    ),
    (
        "[[stream]]\npath = 'a'\nto = 'b'\n",
        &["b", "a"],
        "a succeeded\nb succeeded\n",
    ),
    (
        "[[stream]]\npath = 'a'\nsteps = ['lines']\nwith = 'q'\njoin = 'zip'\n",
        &["a", "q"],
        "q succeeded\na succeeded\n",
    ),
];

/// The same of a table behind its stream, of two tables without a stream, of a file that is written, and
/// of two files that are joined.
#[test]
fn finals_are_the_closes_of_two_rows(rt: HostRuntime) -> Result<(), Fail> {
    for (text, paths, closes) in &ROWS {
        let case = Case {
            others: &[("t.csv", b"k,v\n"), ("u.csv", b"k,w\n"), ("q", b"1\n2\n")],
            ..run_of(text, b"a\nb\nc\n")
        };
        let seen = watch(&rt, rt.alloc(), &case)?;
        same(&rt, seen.0.status, Status::Good);
        is_closed_so(&rt, rt.alloc(), &seen, paths, closes)?;
    }
    Ok(())
}
