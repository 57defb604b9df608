//! The word of one step.
ghost use Rattle.std.specs.Prelude.{◌≡◌, ◌≤◌, ◌==◌, true, option_map, IfOk};
ghost use Rattle.std.specs.List.{list_all, position};
ghost use Rattle.std.specs.Char.{is_ascii_digit};
ghost use Rattle.pipeline_desc.specs.Limits.{is_sized};
ghost use Rattle.pipeline_desc.specs.Reading.{ReadsAs};
ghost use Rattle.pipeline_desc.specs.Sound.{is_sound_pipe, is_sound_step};
ghost use Rattle.pipeline_desc.specs.Steps.{before_space, behind_space, is_number, lookup_argument, number_argument, plain_pipe, step_meant, step_named, step_with, text_argument, written_number};

use crate::refusal::{Position, RefusalKind, Refused, refuse};
use crate::setting::Setting;
use crate::step::Step;
use chunk_core::Line;
use pull_nodes::Pipe;
use std::alloc::Global;

/// Each byte is a decimal digit.
fn are_digits(text: &[u8]) -> bool
    ensures { result ≡ list_all is_ascii_digit text.now }
{
    text.iter().all(|b| b.is_ascii_digit())
}

/// The text is one to nine decimal digits.
fn is_number(text: &[u8]) -> bool
    ensures { result ≡ is_number text.now }
{
    text.len() >= 1 && text.len() <= 9 && are_digits(text)
}

/// The number that one to nine digits write.
fn number(text: &[u8]) -> Option<u32>
    ensures { result ≡ written_number text.now }
{
    if !is_number(text) {
        return None;
    }
    let mut n: u32 = 0;
    for digit in text {
        n = 10 * n + u32::from(*digit - b'0');
    }
    Some(n)
}

/// The number within limits that is a step's argument.
fn number_in(text: &[u8], low: u32, high: u32, position: Position) -> Result<u32, Refused>
    ensures meant { ReadsAs (λ n. n) result (number_argument low high position text.now) }
    ensures low { IfOk result (λ n. low ≤ n) }
    ensures high { IfOk result (λ n. n ≤ high) }
{
    let Some(n) = number(text) else {
        return Err(refuse(RefusalKind::OutOfRange, position));
    };
    if n >= low && n <= high {
        Ok(n)
    } else {
        Err(refuse(RefusalKind::OutOfRange, position))
    }
}

/// The text of so many bytes that is a step's argument.
fn text_in(
    alloc: Global,
    text: &[u8],
    low: usize,
    high: usize,
    position: Position,
) -> Result<Line, Refused>
    ensures meant { ReadsAs (λ x. x) result (text_argument low high position text.now) }
    ensures sound { IfOk result (λ x. is_sized low high x ≡ true) }
{
    if text.len() >= low && text.len() <= high {
        Ok(Line::copy_of(alloc, text)?)
    } else {
        Err(refuse(RefusalKind::OutOfRange, position))
    }
}

/// The name of a table, one space, and a number, which are a step's argument.
fn lookup(setting: &Setting<'_>, text: &[u8], position: Position) -> Result<Pipe, Refused>
    ensures meant { ReadsAs (λ p. p) result (lookup_argument setting.now.tables position text.now) }
    ensures sound { IfOk result (λ p. is_sound_pipe setting.now.tables p ≡ true) }
{
    let (name, number) = cut(text);
    let Some(number) = number else {
        return Err(refuse(RefusalKind::OutOfRange, position));
    };
    let field = number_in(number, 0, 999_999_999, position)?;
    match setting.table(name) {
        Some(table) => Ok(Pipe::Lookup(table, field)),
        None => Err(refuse(RefusalKind::UnknownTable, position)),
    }
}

/// The pipe of a step that takes no argument.
fn plain(name: &[u8]) -> Option<Pipe>
    ensures { result ≡ plain_pipe name.now }
{
    if name == b"utf8".as_slice() {
        Some(Pipe::Utf8)
    } else if name == b"lossy".as_slice() {
        Some(Pipe::Lossy)
    } else if name == b"upper".as_slice() {
        Some(Pipe::Upper)
    } else if name == b"hex".as_slice() {
        Some(Pipe::Hex)
    } else if name == b"lines".as_slice() {
        Some(Pipe::Lines)
    } else if name == b"csv".as_slice() {
        Some(Pipe::Csv)
    } else if name == b"changes".as_slice() {
        Some(Pipe::Changes)
    } else if name == b"number".as_slice() {
        Some(Pipe::Number)
    } else if name == b"count".as_slice() {
        Some(Pipe::Count)
    } else {
        None
    }
}

/// A step with an argument.
fn with(
    alloc: Global,
    setting: &Setting<'_>,
    name: &[u8],
    argument: &[u8],
    position: Position,
) -> Result<Step, Refused>
    ensures meant { ReadsAs (λ s. s) result (step_with setting.now.tables position name.now argument.now) }
    ensures sound { IfOk result (λ s. is_sound_step setting.now.tables s ≡ true) }
{
    if name == b"take".as_slice() {
        let n = number_in(argument, 0, 999_999_999, position)?;
        return Ok(Step::Take(u64::from(n)));
    }
    if name == b"drop".as_slice() {
        let n = number_in(argument, 0, 999_999_999, position)?;
        return Ok(Step::Pipe(Pipe::Drop(u64::from(n))));
    }
    if name == b"field".as_slice() {
        let i = number_in(argument, 0, 999_999_999, position)?;
        return Ok(Step::Pipe(Pipe::Field(i)));
    }
    if name == b"lookup".as_slice() {
        return Ok(Step::Pipe(lookup(setting, argument, position)?));
    }
    if name == b"filter".as_slice() {
        let text = text_in(alloc, argument, 1, 1024, position)?;
        return Ok(Step::Pipe(Pipe::Filter(text)));
    }
    if name == b"intersperse".as_slice() {
        let text = text_in(alloc, argument, 0, 64, position)?;
        return Ok(Step::Pipe(Pipe::Intersperse(text)));
    }
    if name == b"chunk".as_slice() {
        let n = number_in(argument, 1, 64, position)?;
        return Ok(Step::Pipe(Pipe::ChunkN(n)));
    }
    Err(refuse(RefusalKind::UnknownStep, position))
}

/// A step by its name, and its argument where there is one.
fn named(
    alloc: Global,
    setting: &Setting<'_>,
    name: &[u8],
    argument: Option<&[u8]>,
    position: Position,
) -> Result<Step, Refused>
    ensures meant { ReadsAs (λ s. s) result (step_named setting.now.tables position name.now (option_map (λ t. t.now) argument.entry)) }
    ensures sound { IfOk result (λ s. is_sound_step setting.now.tables s ≡ true) }
{
    if let Some(argument) = argument {
        return with(alloc, setting, name, argument, position);
    }
    match plain(name) {
        Some(pipe) => Ok(Step::Pipe(pipe)),
        None => Err(refuse(RefusalKind::UnknownStep, position)),
    }
}

/// Where the first space stands.
fn first_space(word: &[u8]) -> Option<usize>
    ensures { result ≡ position (λ b. b == 32) word.now }
{
    word.iter().position(|b| *b == b' ')
}

/// A word cut at its first space: the name, and the argument where there is one.
fn cut(word: &[u8]) -> (&[u8], Option<&[u8]>)
    ensures name { result.0.now ≡ before_space word.now }
    ensures argument { option_map (λ t. t.now) result.1 ≡ behind_space word.now }
{
    match first_space(word) {
        Some(at) => (&word[..at], Some(&word[at + 1..])),
        None => (word, None),
    }
}

/// The step that a word means, as step i of stream k.
pub fn step(
    alloc: Global,
    setting: &Setting<'_>,
    word: &[u8],
    k: u32,
    i: u32,
) -> Result<Step, Refused>
    ensures meant { ReadsAs (λ s. s) result (step_meant setting.now k i word.now) }
    ensures sound { IfOk result (λ s. is_sound_step setting.now.tables s ≡ true) }
{
    let (name, argument) = cut(word);
    named(alloc, setting, name, argument, Position::AtStep(k, i))
}
