//! Runs pipes over text from memory, each alone, and tells for each how many elements it gave, a
//! checksum of them and, where that is asked for, the processor time that it took.
#![tactic(auto)]

mod feeding;
mod inputs;
mod order;
mod subjects;
mod tally;
mod text;

use order::Order;
use std::process::ExitCode;
use std::time::{CpuClock, Duration};
use std::{env, io};
use subjects::{SUBJECTS, Subject};

const USAGE: &str = "usage: pipe_bench PIPE|all MEGABYTES [CHUNK [time]]";

fn main(rt: HostRuntime) -> io::Result<ExitCode> {
    let words = read_words(&rt)?;
    let Some(order) = Order::of(words.as_slice()) else {
        eprintln!(rt; "{USAGE}")?;
        return Ok(ExitCode::from(2));
    };
    for subject in &SUBJECTS {
        if order.asks_for(subject.name()) {
            tell(&rt, &order, *subject)?;
        }
    }
    Ok(ExitCode::SUCCESS)
}

/// The words behind the program's name.
fn read_words<R: env::Env + AllocGlobal>(rt: &R) -> io::Result<Vec<String>> {
    let mut words = Vec::new(rt.alloc());
    for word in env::args(rt)?.skip(1) {
        words.push(word).map_err(|_| io::ErrorKind::OutOfMemory)?;
    }
    Ok(words)
}

/// Runs a pipe, and prints a line about it.
fn tell<R: Print + AllocGlobal + CpuClock>(
    rt: &R,
    order: &Order<'_>,
    subject: Subject,
) -> io::Result<()> {
    let measured = subject.run(rt.alloc(), rt, order)?;
    let name = subject.name();
    let tally = measured.tally;
    print!(rt; "{name} {} {}", tally.count(), tally.sum())?;
    if order.is_timed() {
        print!(rt; " {}", micros_of(measured.spent))?;
    }
    println!(rt; "")
}

fn micros_of(spent: Duration) -> u64 {
    let seconds = spent.as_secs().saturating_mul(1_000_000);
    seconds.saturating_add(spent.subsec_micros() as u64)
}
