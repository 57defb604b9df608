//! The events of a ledger's text.
use crate::lines::{line_at, number_of};
use std::alloc::{AllocError, Global};

/// What is noted. A scope, a row and a stream are numbers.
#[derive(Clone, Copy, PartialEq, Eq)]
pub enum What {
    OpenScope(usize, usize),
    Acquire(usize, usize),
    Lease(usize, usize),
    Cancel(usize, &'static str),
    Close(usize, &'static str),
    Final(usize, &'static str, bool),
}

/// Who notes something: none is the outer stream.
pub type Who = Option<usize>;

/// Who notes something, and what.
#[derive(Clone, Copy, PartialEq, Eq)]
pub struct Event {
    pub by: Who,
    pub what: What,
}

/// Why a text is no ledger's: the number of a line, or the count that it says and that of its events.
#[derive(Clone, Copy, PartialEq, Eq)]
pub enum Refusal {
    Line(usize),
    Count(usize, usize),
}

pub const EXITS: [&str; 3] = ["succeeded", "errored", "canceled"];

/// A number below 2^32.
fn small_of(text: &str) -> Option<usize> {
    let number = number_of(text)?;
    (number < 0x1_0000_0000).then_some(number)
}

fn exit_of(text: &str) -> Option<&'static str> {
    EXITS.iter().find(|exit| **exit == text).copied()
}

fn by_of(text: &str) -> Option<Who> {
    match text {
        "outer" => Some(None),
        _ => Some(Some(small_of(text)?)),
    }
}

/// What the words behind who notes it tell.
fn what_of(verb: &str, first: usize, second: &str, how: Option<&str>) -> Option<What> {
    match (verb, how) {
        ("open", None) => Some(What::OpenScope(first, small_of(second)?)),
        ("acquire", None) => Some(What::Acquire(first, small_of(second)?)),
        ("lease", None) => Some(What::Lease(first, small_of(second)?)),
        ("cancel", None) => Some(What::Cancel(first, exit_of(second)?)),
        ("close", None) => Some(What::Close(first, exit_of(second)?)),
        ("final", Some("ok")) => Some(What::Final(first, exit_of(second)?, true)),
        ("final", Some("fault")) => Some(What::Final(first, exit_of(second)?, false)),
        _ => None,
    }
}

/// The event that a line tells.
fn event_of(line: &str) -> Option<Event> {
    let mut words = line.split(' ');
    let by = by_of(words.next()?)?;
    let verb = words.next()?;
    let first = small_of(words.next()?)?;
    let second = words.next()?;
    let what = what_of(verb, first, second, words.next())?;
    match words.next() {
        None => Some(Event { by, what }),
        Some(_) => None,
    }
}

/// How many events the first line says that there are, and the place behind it.
fn head_of(text: &[u8]) -> Option<(usize, usize)> {
    let (line, behind) = line_at(text, 0)?;
    Some((number_of(line.strip_prefix("ledger ")?)?, behind))
}

/// The event in the line that begins here, and the place behind it.
fn event_at(text: &[u8], at: usize) -> Option<(Event, usize)> {
    let (line, behind) = line_at(text, at)?;
    Some((event_of(line)?, behind))
}

/// The events that a ledger's text tells.
pub fn events_of(alloc: Global, text: &[u8]) -> Result<Result<Vec<Event>, Refusal>, AllocError> {
    let Some((said, mut at)) = head_of(text) else {
        return Ok(Err(Refusal::Line(0)));
    };
    let mut events = Vec::new(alloc);
    for place in 1..text.len() {
        if at >= text.len() {
            break;
        }
        let Some((event, behind)) = event_at(text, at) else {
            return Ok(Err(Refusal::Line(place)));
        };
        events.push(event)?;
        at = behind;
    }
    if said != events.len() {
        return Ok(Err(Refusal::Count(said, events.len())));
    }
    Ok(Ok(events))
}

/// Appends the line of an event.
pub fn put_event(text: &mut String, event: &Event) -> Result<(), AllocError> {
    match event.by {
        None => text.push_str("outer")?,
        Some(by) => write!(text, "{by}")?,
    }
    match event.what {
        What::OpenScope(scope, parent) => writeln!(text, " open {scope} {parent}"),
        What::Acquire(row, scope) => writeln!(text, " acquire {row} {scope}"),
        What::Lease(stream, scope) => writeln!(text, " lease {stream} {scope}"),
        What::Cancel(stream, exit) => writeln!(text, " cancel {stream} {exit}"),
        What::Close(scope, exit) => writeln!(text, " close {scope} {exit}"),
        What::Final(row, exit, true) => writeln!(text, " final {row} {exit} ok"),
        What::Final(row, exit, false) => writeln!(text, " final {row} {exit} fault"),
    }
}
