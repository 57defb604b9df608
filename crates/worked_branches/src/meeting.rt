//! Branches and hands of which number 0 is held until number 1 makes turns: they end only where both run at once.
use crate::asserts::{holds_at, same_at};
use crate::many::lines_of;
use crate::teeing::call_of;
use device_port::Gate;
use flume_cli::Status;
use std::alloc::{AllocError, Global};
use std::process::Abort;
use std::sync::Wait;
use std::sync::atomic::AtomicU64;
use std::sync::atomic::Ordering::SeqCst;
use std::test::Fail;
use std::thread::Threads;
use worked_calls::outside::{call_over, depot_of};

/// How often number 0 looks for number 1 before it gives up.
const LOOKS: u32 = 1_000_000_000;

/// More turns than loads wait for a branch.
const MANY: u64 = 40;

/// The turns of a hand that has sent a whole result and looks for the next load.
const ANSWERED: u64 = 4;

/// Where number 0 is held at its first turn until number 1 has begun so many.
#[derive(Drop)]
struct Meeting {
    wanted: u64,
    turns_of_first: AtomicU64,
    turns_of_second: AtomicU64,
    gave_up: AtomicU64,
}

impl Meeting {
    fn of(wanted: u64) -> Meeting {
        Meeting {
            wanted,
            turns_of_first: AtomicU64::new(0),
            turns_of_second: AtomicU64::new(0),
            gave_up: AtomicU64::new(0),
        }
    }

    fn await_second(&self) {
        for _ in 0..LOOKS {
            if self.wanted <= self.turns_of_second.load(SeqCst) {
                return;
            }
        }
        self.gave_up.store(1, SeqCst);
    }

    /// Fails the test unless both came, and nobody gave up.
    fn was_kept(&self, rt: &impl Abort, place: &[&str]) {
        holds_at(rt, self.turns_of_first.load(SeqCst) != 0, &place);
        holds_at(rt, self.turns_of_second.load(SeqCst) != 0, &place);
        same_at(rt, self.gave_up.load(SeqCst), 0, &place);
    }
}

impl Gate for Meeting {
    fn pass(&self, number: u32) {
        match number {
            0 => {
                if self.turns_of_first.fetch_add(1, SeqCst) == 0 {
                    self.await_second();
                }
            }
            1 => {
                self.turns_of_second.fetch_add(1, SeqCst);
            }
            _ => {}
        }
    }
}

/// Fails the test unless both numbers meet at a gate, and the call prints this.
fn meets(
    rt: &(impl Abort + Threads + Wait + Sync),
    alloc: Global,
    wanted: u64,
    words: &[&str],
    file: &[u8],
    text: &str,
) -> Result<(), AllocError> {
    let meeting = Meeting::of(wanted);
    let case = call_of(words, file);
    let mut depot = depot_of(alloc, &case)?;
    let seen = call_over(rt, alloc, &case, &mut depot, &meeting)?;
    meeting.was_kept(rt, words);
    same_at(rt, seen.report.status, Status::Good, &words);
    same_at(rt, seen.out.written(), text.as_bytes(), &words);
    Ok(())
}

/// Two branches make their turns at once, also where the first one is slow, so that its queue is full.
#[test]
fn branches_meet(rt: HostRuntime) -> Result<(), Fail> {
    let alloc = rt.alloc();
    let file = lines_of(alloc, 100)?;
    let words = ["tee", "--chunk", "1", "a", "lines|count", "lines|filter y"];
    let text = "0 4\n100\n\nend outer done\nend 0 done\nend 1 done\nledger 3\nouter acquire 0 0\n\
        outer close 0 succeeded\nouter final 0 succeeded ok\n";
    meets(&rt, alloc, 1, &words, &file, text)?;
    meets(&rt, alloc, MANY, &words, &file, text)?;
    Ok(())
}

/// So do both hands, and the results of the slow one come out in their places.
#[test]
fn hands_meet(rt: HostRuntime) -> Result<(), Fail> {
    let alloc = rt.alloc();
    let words = ["eval", "--jobs", "2", "--group", "1", "a", "upper"];
    let text = "0 2\nA\n\n0 2\nB\n\n0 2\nC\n\n0 2\nD\n\n0 2\nE\n\nend 0 done\nledger 3\n\
        0 acquire 0 0\n0 close 0 succeeded\n0 final 0 succeeded ok\n";
    meets(&rt, alloc, 1, &words, b"a\nb\nc\nd\ne\n", text)?;
    meets(&rt, alloc, ANSWERED, &words, b"a\nb\nc\nd\ne\n", text)?;
    Ok(())
}
