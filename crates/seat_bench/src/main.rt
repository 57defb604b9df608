//! Runs the whole life of a row again and again, over a seat of one thread or over one that threads
//! share: acquired, placed, leased, closed, left and finalized, with a table and a second seat of its
//! own or as one of many rows of one table. It also notes events alone, in one thread or in two. Tells
//! how many lives or events there were and, where that is asked for, the processor time and the time
//! that they took, in microseconds.
#![tactic(auto)]

mod lives;
mod rows;
mod threads;

use lives::{plain_lives, plain_notes, shared_lives, shared_notes};
use rows::{plain_rows, shared_rows};
use std::alloc::AllocError;
use std::process::ExitCode;
use std::thread::Threads;
use std::time::{CpuClock, Duration, Instant};
use std::{env, io};
use threads::{four_work, one_works, two_threads_note};

const USAGE: &str = "usage: seat_bench plain|shared|plain-notes|shared-notes|plain-rows|shared-rows\
|one-works|four-work|two-threads-note COUNT [time]";

fn main(rt: HostRuntime) -> io::Result<ExitCode> {
    let words = read_words(&rt)?;
    let (name, count, timed) = match words.as_slice() {
        [name, count] => (name, count, false),
        [name, count, time] => (name, count, time.as_str() == "time"),
        _ => {
            eprintln!(rt; "{USAGE}")?;
            return Ok(ExitCode::from(2));
        }
    };
    let Ok(count) = count.as_str().parse::<u32>() else {
        eprintln!(rt; "{USAGE}")?;
        return Ok(ExitCode::from(2));
    };
    let before = used(&rt);
    let began = Instant::now(&rt)?;
    let Some(done) = run(&rt, name.as_str(), count)? else {
        eprintln!(rt; "{USAGE}")?;
        return Ok(ExitCode::from(2));
    };
    let wall = began.elapsed(&rt)?;
    let spent = used(&rt).saturating_sub(before);
    let name = name.as_str();
    print!(rt; "{name} {done}")?;
    if timed {
        print!(rt; " {} {}", micros_of(spent), micros_of(wall))?;
    }
    println!(rt; "")?;
    Ok(ExitCode::SUCCESS)
}

/// So many of what has this name; how many lives or events that were. `None` where nothing has it.
fn run<R: Threads + Sync + AllocGlobal>(
    rt: &R,
    name: &str,
    count: u32,
) -> Result<Option<u64>, AllocError> {
    let alloc = rt.alloc();
    let done = match name {
        "plain" => plain_lives(alloc, count)?,
        "shared" => shared_lives(alloc, count)?,
        "plain-notes" => plain_notes(alloc, count)?,
        "shared-notes" => shared_notes(alloc, count)?,
        "plain-rows" => plain_rows(alloc, count)?,
        "shared-rows" => shared_rows(alloc, count)?,
        "one-works" => one_works(alloc, count)?,
        "four-work" => four_work(rt, alloc, count)?,
        "two-threads-note" => two_threads_note(rt, alloc, count)?,
        _ => return Ok(None),
    };
    Ok(Some(done))
}

/// The words behind the program's name.
fn read_words<R: env::Env + AllocGlobal>(rt: &R) -> io::Result<Vec<String>> {
    let mut words = Vec::new(rt.alloc());
    for word in env::args(rt)?.skip(1) {
        words.push(word).map_err(|_| io::ErrorKind::OutOfMemory)?;
    }
    Ok(words)
}

fn used<C: CpuClock>(clock: &C) -> Duration {
    clock.process_cpu_time().unwrap_or(Duration::ZERO)
}

fn micros_of(spent: Duration) -> u64 {
    let seconds = spent.as_secs().saturating_mul(1_000_000);
    seconds.saturating_add(spent.subsec_micros() as u64)
}
