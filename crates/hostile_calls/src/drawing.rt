//! Calls at random.
use crate::call::{Asked, Call, Chain};
use crate::ledgers::ledger_source;
use device_port::Act;
use random_files::{Dice, File, Flavour, add_file};
use random_plans::{Kind, add_steps, plan_of, spoil, steps_word, text_of};
use std::alloc::{AllocError, Global};

/// The commands, and `nothing` for words that mean nothing.
pub const COMMANDS: [&str; 8] = [
    "run", "cat", "gen", "audit", "rotate", "tee", "eval", "nothing",
];

/// Words that mean nothing.
const NOTHING: [&[&str]; 22] = [
    &[],
    &["x"],
    &["CAT", "f0"],
    &["cat"],
    &["cat", ""],
    &["cat", "-x"],
    &["cat", "f0", "f1"],
    &["cat", "--chunk", "0", "f0"],
    &["cat", "--chunk=65537", "f0"],
    &["cat", "--chunk", "1", "--chunk", "2", "f0"],
    &["run", "f0"],
    &["run", "--max-open", "65"],
    &["run", "--max-open=0"],
    &["gen", "1", "2"],
    &["gen", "4294967296", "1", "1"],
    &["gen", "1", "65", "1"],
    &["audit", "f0"],
    &["rotate", "f0", "p"],
    &["rotate", "--bytes", "1", "p.7", "p"],
    &["tee", "f0"],
    &["tee", "f0", "lines|lines"],
    &["eval", "--jobs", "65", "f0", ""],
];

fn words_of(alloc: Global, words: &[&str]) -> Result<Vec<String>, AllocError> {
    let mut list = Vec::new(alloc);
    for word in words {
        list.push(String::from_str(alloc, word)?)?;
    }
    Ok(list)
}

/// Appends an option with its number, in one word or two.
fn add_option(
    dice: &mut Dice,
    words: &mut Vec<String>,
    option: &str,
    number: usize,
) -> Result<(), AllocError> {
    if dice.chance(2) {
        words.push(format!(in dice.alloc; "{option}={number}")?)?;
    } else {
        words.push(String::from_str(dice.alloc, option)?)?;
        words.push(format!(in dice.alloc; "{number}")?)?;
    }
    Ok(())
}

/// A file that is read.
fn one_file(dice: &mut Dice) -> Result<Vec<File>, AllocError> {
    let mut files = Vec::new(dice.alloc);
    let has_records = dice.chance(3);
    let flavour = if has_records {
        Flavour::Records
    } else {
        Flavour::Any
    };
    add_file(dice, &mut files, flavour)?;
    Ok(files)
}

/// How many bytes are read at a time, so that there are at most some hundred reads.
fn chunk_of(dice: &mut Dice, files: &[File]) -> usize {
    let length = files.first().map_or(0, |file| file.length());
    let chunk = dice.pick(&[1, 2, 3, 16, 4_096, 65_536]);
    chunk.max((length >> 8) + 1)
}

/// A chain of steps, whose word is appended.
fn add_chain(dice: &mut Dice, words: &mut Vec<String>, most: usize) -> Result<Chain, AllocError> {
    let mut steps = Vec::new(dice.alloc);
    let kind = add_steps(dice, &mut steps, &[], Kind::Bytes, most, &[])?;
    words.push(steps_word(dice.alloc, &steps)?)?;
    Ok(Chain { steps, kind })
}

/// A call of which nothing is done since a read of standard input, this one, fails.
fn unread(dice: &Dice, call: &mut Call, read: u32, what: &str) -> Result<(), AllocError> {
    call.source_fails = read;
    let line = format!(in dice.alloc; "flume: cannot read the {what}\n")?;
    call.asked = Asked::Refused(6, line);
    Ok(())
}

fn run_call(dice: &mut Dice) -> Result<Call, AllocError> {
    let mut files = Vec::new(dice.alloc);
    let plan = plan_of(dice, &mut files)?;
    let mut words = words_of(dice.alloc, &["run"])?;
    if let Some(width) = plan.told_open {
        add_option(dice, &mut words, "--max-open", width)?;
    }
    let mut source = text_of(dice, &plan, &files)?;
    let asked = match spoil(dice, &plan, &mut source)? {
        Some(line) => Asked::Refused(3, line),
        None => Asked::Run(plan),
    };
    let mut call = Call::of(dice, words, files, asked);
    call.source = source.into_bytes();
    let read = dice.few(1) as u32 + 1;
    if !call.source.is_empty() && dice.chance(60) {
        unread(dice, &mut call, read, "description")?;
    }
    Ok(call)
}

fn audit_call(dice: &mut Dice) -> Result<Call, AllocError> {
    let words = words_of(dice.alloc, &["audit"])?;
    let mut call = Call::of(dice, words, Vec::new(dice.alloc), Asked::Audit);
    call.source = ledger_source(dice)?;
    if dice.chance(20) {
        unread(dice, &mut call, 1, "ledger")?;
    }
    Ok(call)
}

fn cat_call(dice: &mut Dice) -> Result<Call, AllocError> {
    let files = one_file(dice)?;
    let chunk = chunk_of(dice, &files);
    let mut words = words_of(dice.alloc, &["cat"])?;
    add_option(dice, &mut words, "--chunk", chunk)?;
    words.push(String::from_str(dice.alloc, "f0")?)?;
    Ok(Call::of(dice, words, files, Asked::Cat(chunk)))
}

fn gen_call(dice: &mut Dice) -> Result<Call, AllocError> {
    let seed = dice.pick(&[0, 7, 999, 4_294_967_295, 123_456]);
    let streams = dice.pick(&[1, 2, 3, 16]);
    let is_long = dice.chance(8);
    let lines = if is_long {
        dice.between(1_020, 1_030)
    } else {
        dice.few(40)
    };
    let mut words = words_of(dice.alloc, &["gen"])?;
    for number in [seed, streams, lines] {
        words.push(format!(in dice.alloc; "{number}")?)?;
    }
    let asked = Asked::Gen(seed, streams, lines);
    Ok(Call::of(dice, words, Vec::new(dice.alloc), asked))
}

/// Appends a file that is written, on which a call fails.
fn add_target(dice: &mut Dice, files: &mut Vec<File>) -> Result<(), AllocError> {
    let number = dice.few(6);
    let act = dice.pick(&[Act::Open, Act::Write, Act::Close, Act::Close]);
    let held = Vec::from_slice(dice.alloc, b"held")?;
    files.push(File {
        path: format!(in dice.alloc; "p.{number}")?,
        content: dice.chance(2).then_some(held),
        trip: Some((act, 1)),
    })?;
    Ok(())
}

fn rotate_call(dice: &mut Dice) -> Result<Call, AllocError> {
    let mut files = one_file(dice)?;
    let length = files.first().map_or(0, |file| file.length());
    let asked = dice.pick(&[1, 2, 3, 7, 100, 4_095, 4_096, 1_000_000_000]);
    let least = if dice.chance(6) { 1 } else { (length >> 5) + 1 };
    let bytes = least.max(asked);
    if dice.chance(2) {
        add_target(dice, &mut files)?;
    }
    let mut words = words_of(dice.alloc, &["rotate"])?;
    add_option(dice, &mut words, "--bytes", bytes)?;
    words.push(String::from_str(dice.alloc, "f0")?)?;
    words.push(String::from_str(dice.alloc, "p")?)?;
    Ok(Call::of(dice, words, files, Asked::Rotate(bytes)))
}

fn tee_call(dice: &mut Dice) -> Result<Call, AllocError> {
    let files = one_file(dice)?;
    let chunk = chunk_of(dice, &files);
    let mut words = words_of(dice.alloc, &["tee"])?;
    add_option(dice, &mut words, "--chunk", chunk)?;
    words.push(String::from_str(dice.alloc, "f0")?)?;
    let most = dice.pick(&[4, 4, 4, 4, 4, 4, 4, 16]);
    let mut branches = Vec::new(dice.alloc);
    for _ in 0..dice.between(1, most) {
        branches.push(add_chain(dice, &mut words, 4)?)?;
    }
    Ok(Call::of(dice, words, files, Asked::Tee(chunk, branches)))
}

fn eval_call(dice: &mut Dice) -> Result<Call, AllocError> {
    let files = one_file(dice)?;
    let jobs = dice.pick(&[1, 2, 3, 7, 64]);
    let group = dice.pick(&[1, 2, 3, 5, 256, 65_536]);
    let mut words = words_of(dice.alloc, &["eval"])?;
    add_option(dice, &mut words, "--jobs", jobs)?;
    add_option(dice, &mut words, "--group", group)?;
    words.push(String::from_str(dice.alloc, "f0")?)?;
    let chain = add_chain(dice, &mut words, 5)?;
    Ok(Call::of(dice, words, files, Asked::Eval(group, chain)))
}

fn bad_call(dice: &mut Dice) -> Result<Call, AllocError> {
    let files = one_file(dice)?;
    let words = words_of(dice.alloc, dice.pick(&NOTHING))?;
    let line = String::from_str(dice.alloc, "flume: bad command line\n")?;
    Ok(Call::of(dice, words, files, Asked::Refused(2, line)))
}

/// The place of a command: three times of five that of `run`.
pub fn command_of(dice: &mut Dice) -> usize {
    match dice.below(20) {
        0..=11 => 0,
        12 => 1,
        13 => 2,
        14 => 3,
        15 => 4,
        16 | 17 => 5,
        18 => 6,
        _ => 7,
    }
}

/// A call of the command at this place.
pub fn call_of(dice: &mut Dice, command: usize) -> Result<Call, AllocError> {
    match command {
        0 => run_call(dice),
        1 => cat_call(dice),
        2 => gen_call(dice),
        3 => audit_call(dice),
        4 => rotate_call(dice),
        5 => tee_call(dice),
        6 => eval_call(dice),
        _ => bad_call(dice),
    }
}
