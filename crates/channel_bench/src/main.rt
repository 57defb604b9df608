//! Sends messages from one thread to another through the channel, or lets one of the two wait, and
//! tells the processor time that it took.
#![tactic(auto)]

mod ends;
mod order;
mod pause;

use order::{Act, Order};
use std::process::ExitCode;
use std::time::{CpuClock, Duration};
use std::{env, io};

const USAGE: &str = "usage: channel_bench send MESSAGES CAPACITY spin|nap [time]
       channel_bench empty|full MILLISECONDS spin|nap [time]";

fn main(rt: HostRuntime) -> io::Result<ExitCode> {
    let words = read_words(&rt)?;
    let Some(order) = Order::of(words.as_slice()) else {
        eprintln!(rt; "{USAGE}")?;
        return Ok(ExitCode::from(2));
    };
    let began = rt.process_cpu_time()?;
    let told = match order.act {
        Act::Send { messages, capacity } => {
            ends::send_through(&rt, rt.alloc(), capacity, messages, order.naps)
        }
        Act::Empty { millis } => {
            ends::wait_empty(&rt, rt.alloc(), Duration::from_millis(millis), order.naps)
        }
        Act::Full { millis } => {
            ends::wait_full(&rt, rt.alloc(), Duration::from_millis(millis), order.naps)
        }
    };
    let spent = rt.process_cpu_time()?.saturating_sub(began);
    let Ok(sum) = told else {
        return Ok(ExitCode::FAILURE);
    };
    print!(rt; "{sum}")?;
    if order.timed {
        print!(rt; " {}", micros_of(spent))?;
    }
    println!(rt; "")?;
    Ok(ExitCode::SUCCESS)
}

/// The words behind the program's name.
fn read_words<R: env::Env + AllocGlobal>(rt: &R) -> io::Result<Vec<String>> {
    let mut words = Vec::new(rt.alloc());
    for word in env::args(rt)?.skip(1) {
        words.push(word).map_err(|_| io::ErrorKind::OutOfMemory)?;
    }
    Ok(words)
}

fn micros_of(spent: Duration) -> u64 {
    let seconds = spent.as_secs().saturating_mul(1_000_000);
    seconds.saturating_add(spent.subsec_micros() as u64)
}
