//! A call of the program, and what it asks for.
use random_files::{Dice, File};
use random_plans::{Kind, Plan, Step};

/// A chain of steps, and the kind of what it gives.
#[derive(Drop)]
pub struct Chain {
    pub steps: Vec<Step>,
    pub kind: Kind,
}

/// What a call asks for, with the numbers that its words tell.
#[derive(Drop)]
pub enum Asked {
    /// Nothing is done: the status, and what standard error is told.
    Refused(u8, String),
    Run(Plan),
    Audit,
    Gen(usize, usize, usize),
    /// How many bytes are read at a time.
    Cat(usize),
    /// How many bytes a file gets.
    Rotate(usize),
    /// How many bytes are read at a time, and what the branches do.
    Tee(usize, Vec<Chain>),
    /// How many lines make a group, and what is done with it.
    Eval(usize, Chain),
}

/// A call: its words, what standard input has, the files, of which the first is read where one is, and the numbers of the read of standard
/// input and of the writes to the output and to standard error that fail, from 1, or 0.
#[derive(Drop)]
pub struct Call {
    pub words: Vec<String>,
    pub source: Vec<u8>,
    pub files: Vec<File>,
    pub source_fails: u32,
    pub out_fails: u32,
    pub err_fails: u32,
    pub asked: Asked,
}

/// The number of a call that fails, mostly 0, which is none.
fn failing(dice: &mut Dice, one_in: usize, most: u32) -> u32 {
    let number = dice.few(most as usize) as u32;
    if dice.chance(one_in) {
        number.saturating_add(1)
    } else {
        0
    }
}

impl Call {
    /// A call of which now and then a write fails.
    pub(crate) fn of(dice: &mut Dice, words: Vec<String>, files: Vec<File>, asked: Asked) -> Call {
        Call {
            words,
            source: Vec::new(dice.alloc),
            files,
            source_fails: 0,
            out_fails: failing(dice, 8, 12),
            err_fails: failing(dice, 20, 1),
            asked,
        }
    }
}
