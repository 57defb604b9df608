//! How streams ended.
use crate::events::{Event, events_of};
use crate::lines::line_at;
use std::alloc::{AllocError, Global};

/// Why something failed.
#[derive(Clone, Copy, PartialEq, Eq)]
pub enum Fault {
    Open,
    Read,
    Write,
    Malformed,
    Truncated,
    NotUtf8,
    Uneven,
    NoField,
    BadPath,
    TooMany,
}

const FAULTS: [(&str, Fault); 10] = [
    ("open", Fault::Open),
    ("read", Fault::Read),
    ("write", Fault::Write),
    ("malformed", Fault::Malformed),
    ("truncated", Fault::Truncated),
    ("notutf8", Fault::NotUtf8),
    ("uneven", Fault::Uneven),
    ("nofield", Fault::NoField),
    ("badpath", Fault::BadPath),
    ("toomany", Fault::TooMany),
];

impl Fault {
    fn text(self) -> &'static str {
        let found = FAULTS.iter().find(|(_, fault)| *fault == self);
        found.map_or("", |(name, _)| *name)
    }
}

/// How something ended.
#[derive(Clone, Copy, PartialEq, Eq)]
pub enum End {
    Done,
    /// It was stopped between two elements.
    Halted,
    /// It was stopped anywhere.
    Cut,
    Fault(Fault),
}

impl End {
    /// The exit that a finalizer is told.
    pub fn exit(self) -> &'static str {
        match self {
            End::Done => "succeeded",
            End::Halted | End::Cut => "canceled",
            End::Fault(_) => "errored",
        }
    }

    pub fn is_fault(self) -> bool {
        matches!(self, End::Fault(_))
    }
}

/// The end that these words tell.
fn end_of(words: &str) -> Option<End> {
    match words {
        "done" => Some(End::Done),
        "halted" => Some(End::Halted),
        _ => {
            let word = words.strip_prefix("fault ")?;
            let (_, fault) = FAULTS.iter().find(|(name, _)| *name == word)?;
            Some(End::Fault(*fault))
        }
    }
}

/// The end of the stream of this name, whose line begins here, and the place behind the line.
fn end_at(text: &[u8], at: usize, name: &str) -> Option<(End, usize)> {
    let (line, behind) = line_at(text, at)?;
    let words = line.strip_prefix("end ")?.strip_prefix(name)?;
    Some((end_of(words.strip_prefix(' ')?)?, behind))
}

/// The ends of streams with these names, and the events behind them, of which a text consists.
pub fn tail_of(
    alloc: Global,
    text: &[u8],
    names: &[String],
) -> Result<Option<(Vec<End>, Vec<Event>)>, AllocError> {
    let (mut ends, mut at) = (Vec::new(alloc), 0);
    for name in names {
        let Some((end, behind)) = end_at(text, at, name.as_str()) else {
            return Ok(None);
        };
        ends.push(end)?;
        at = behind;
    }
    let events = events_of(alloc, text.get(at..).unwrap_or(b""))?;
    Ok(events.ok().map(|events| (ends, events)))
}

/// Appends an end line.
pub fn put_end(text: &mut String, name: &str, end: End) -> Result<(), AllocError> {
    match end {
        End::Done => writeln!(text, "end {name} done"),
        End::Halted | End::Cut => writeln!(text, "end {name} halted"),
        End::Fault(fault) => writeln!(text, "end {name} fault {}", fault.text()),
    }
}
