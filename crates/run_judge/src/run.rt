//! A run of a description as it was seen, and what its streams may give.
use crate::outer::Outer;
use crate::seen::Seen;
use device_port::Act;
use printed_parts::{End, Event, Fault, Frame, What, Who};
use random_files::File;
use random_plans::{Plan, Stream};
use slow_streams::{Given, Text, read_of, texts_of};
use std::alloc::{AllocError, Global};

/// A run: its description, what was seen of it, and what was printed or, where a write failed, reported.
#[derive(Drop)]
pub(crate) struct Run<'a> {
    pub(crate) alloc: Global,
    pub(crate) plan: &'a Plan,
    /// The streams of the lines that were given some.
    pub(crate) listed: Vec<Stream>,
    pub(crate) files: &'a [File],
    pub(crate) seen: &'a Seen,
    pub(crate) frames: Vec<Frame>,
    /// What stands behind the frames.
    pub(crate) rest: &'a [u8],
    /// Those of the outer stream and of each stream.
    pub(crate) ends: Vec<End>,
    pub(crate) events: Vec<Event>,
    /// The place of the file of each row.
    pub(crate) rows: Vec<usize>,
    pub(crate) outer: Outer,
}

/// The names of the streams behind that of the outer one.
pub fn names_of(alloc: Global, count: usize) -> Result<Vec<String>, AllocError> {
    let mut names = vec![in alloc; String::from_str(alloc, "outer")?]?;
    for k in 0..count {
        names.push(format!(in alloc; "{k}")?)?;
    }
    Ok(names)
}

impl<'a> Run<'a> {
    pub(crate) fn count(&self) -> usize {
        self.plan.streams.len().saturating_add(self.listed.len())
    }

    /// A stream, whether it is described or of the list.
    pub(crate) fn stream(&self, k: usize) -> Option<&Stream> {
        let described = self.plan.streams.len();
        match k.checked_sub(described) {
            None => self.plan.streams.get(k),
            Some(line) => self.listed.get(line),
        }
    }

    /// The scope of the outer stream that is leased for a stream.
    pub(crate) fn scope_of(&self, k: usize) -> usize {
        let groups = &self.plan.groups;
        let place = groups.iter().position(|group| k < group.streams.1);
        if k < self.plan.top_streams() {
            return 0;
        }
        place.unwrap_or(groups.len()).saturating_add(1)
    }

    pub(crate) fn outer_end(&self) -> End {
        self.ends.first().copied().unwrap_or(End::Cut)
    }

    pub(crate) fn end_of(&self, k: usize) -> End {
        let end = self.ends.get(k.saturating_add(1));
        end.copied().unwrap_or(End::Cut)
    }

    /// The file of a row.
    pub(crate) fn file_of(&self, row: usize) -> Option<&'a File> {
        self.files.get(*self.rows.get(row)?)
    }

    /// Whether a stream noted something.
    pub(crate) fn has_begun(&self, k: usize) -> bool {
        self.events.iter().any(|event| event.by == Some(k))
    }

    /// Where the first event of a stream stands that is this.
    pub(crate) fn place_of(&self, by: Who, what: What) -> Option<usize> {
        let event = Event { by, what };
        self.events.iter().position(|other| *other == event)
    }

    /// Where the stream's own Cancel stands.
    pub(crate) fn cancel_of(&self, k: usize) -> Option<usize> {
        let is_so = |event: &Event| event.by == Some(k) && matches!(event.what, What::Cancel(..));
        self.events.iter().position(|event| is_so(event))
    }

    /// Where the lease for a stream was cancelled, by whomever, or else the place behind all.
    pub(crate) fn over_at(&self, k: usize) -> usize {
        let is_so = |event: &Event| matches!(event.what, What::Cancel(other, _) if other == k);
        let place = self.events.iter().position(|event| is_so(event));
        place.unwrap_or(usize::MAX)
    }

    pub(crate) fn has_fault(&self) -> bool {
        self.ends.iter().any(|end| end.is_fault())
    }

    /// Whether as many frames were printed as may be.
    pub(crate) fn is_full(&self) -> bool {
        self.plan.take == Some(self.frames.len())
    }

    /// All that a stream may print, or write.
    pub(crate) fn texts(&self, stream: &Stream) -> Result<Vec<Text>, AllocError> {
        let alloc = self.alloc;
        let can_write = |to: usize| self.files.get(to).is_some_and(|file| file.can_open(true));
        if stream.to.is_some_and(|to| !can_write(to)) {
            let end = End::Fault(Fault::Open);
            let text = Text::of(alloc, stream.kind, &Given::nothing(alloc, end), end)?;
            return Ok(vec![in alloc; text]?);
        }
        let left = self.read(stream.path)?;
        let right = match stream.second {
            Some((_, second)) => Some(self.read(second)?),
            None => None,
        };
        texts_of(alloc, stream, &self.outer.tables, left, right)
    }

    fn read(&self, place: usize) -> Result<Given, AllocError> {
        match self.files.get(place) {
            Some(file) => read_of(self.alloc, file, self.plan.piece()),
            None => Ok(Given::nothing(self.alloc, End::Fault(Fault::Open))),
        }
    }

    /// Whether a row's close was to be good.
    pub(crate) fn is_good(&self, row: usize) -> bool {
        self.file_of(row)
            .is_some_and(|file| !file.fails_to(Act::Close))
    }
}
