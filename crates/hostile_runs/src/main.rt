//! Random calls of the program over an outside in memory, in which random calls fail, each judged by what was seen of it.
//!
//! `hostile_runs [SEED [FIRST [COUNT]]]` makes the calls FIRST, FIRST + 1 and so on of a seed, and prints how many of each command there
//! were, and each call of which something is wrong: its seed and number, its words, what is wrong, what it met and what was seen.
#![tactic(auto)]

mod outside;

use hostile_calls::{COMMANDS, call_of, command_of, judge, page_of};
use outside::see;
use random_files::Dice;
use std::alloc::AllocError;
use std::process::ExitCode;
use std::sync::Wait;
use std::thread::Threads;
use std::{env, io};

/// The status at want of memory.
const NO_MEMORY: u8 = 5;

fn main(rt: HostRuntime) -> io::Result<ExitCode> {
    let [seed, first, count] = read_words(&rt)?;
    let mut counts = [0u64; 8];
    let mut wrong: u64 = 0;
    for place in 0..count {
        let number = first.wrapping_add(place);
        let mut dice = Dice::of(rt.alloc(), seed, number);
        let command = command_of(&mut dice);
        add_one(&mut counts, command);
        let Ok(page) = try_one(&rt, &mut dice, command) else {
            return Ok(ExitCode::from(NO_MEMORY));
        };
        if let Some(page) = page {
            wrong = wrong.saturating_add(1);
            println!(rt; "seed {seed} run {number}: {page}")?;
        }
    }
    for (name, count) in COMMANDS.iter().zip(&counts) {
        println!(rt; "{name} {count}")?;
    }
    println!(rt; "{count} runs of seed {seed} from {first} on: {wrong} wrong")?;
    Ok(ExitCode::from(u8::from(wrong != 0)))
}

/// The seed, the first number and the count, as far as the words tell them.
fn read_words(rt: &HostRuntime) -> io::Result<[u64; 3]> {
    let mut numbers = [1, 0, 1000];
    let mut place: usize = 0;
    for word in env::args(rt)?.skip(1) {
        if let Ok(told) = word.as_str().parse::<u64>() {
            put_at(&mut numbers, place, told);
        }
        place = place.saturating_add(1);
    }
    Ok(numbers)
}

fn put_at(numbers: &mut [u64; 3], place: usize, told: u64) {
    if let Some(number) = numbers.get_mut(place) {
        *number = told;
    }
}

fn add_one(counts: &mut [u64; 8], command: usize) {
    if let Some(count) = counts.get_mut(command) {
        *count = count.saturating_add(1);
    }
}

/// Makes a call of a command: what is to be told, where something is wrong.
fn try_one<R: Threads + Wait + Sync>(
    rt: &R,
    dice: &mut Dice,
    command: usize,
) -> Result<Option<String>, AllocError> {
    let call = call_of(dice, command)?;
    let seen = see(rt, dice.alloc, &call)?;
    let wrongs = judge(dice.alloc, &call, &seen)?;
    if wrongs.lines.is_empty() {
        return Ok(None);
    }
    Ok(Some(page_of(&call, &seen, &wrongs)?))
}
