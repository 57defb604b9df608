//! What a description says.
use crate::steps::{Kind, Step};
use std::alloc::{AllocError, Global};

/// What is made of two files.
#[derive(Clone, Copy, PartialEq, Eq)]
pub enum Join {
    Append,
    Zip,
    Merge,
}

impl Join {
    pub fn text(self) -> &'static str {
        match self {
            Join::Append => "append",
            Join::Zip => "zip",
            Join::Merge => "merge",
        }
    }
}

/// A text in place of a fault: as TOML has it, and its bytes.
pub type StandIn = (&'static str, &'static [u8]);

/// A stream. Its files are told by their places in the list of all.
#[derive(Drop)]
pub struct Stream {
    pub path: usize,
    pub steps: Vec<Step>,
    pub second: Option<(Join, usize)>,
    pub after: Vec<Step>,
    pub on_fault: Option<StandIn>,
    pub to: Option<usize>,
    pub until: Option<usize>,
    /// The kind of what its steps and its join give.
    pub kind: Kind,
}

impl Stream {
    /// Its files in the order of its rows.
    pub fn places(&self, alloc: Global) -> Result<Vec<usize>, AllocError> {
        let mut places = Vec::new(alloc);
        if let Some(to) = self.to {
            places.push(to)?;
        }
        places.push(self.path)?;
        if let Some((_, second)) = self.second {
            places.push(second)?;
        }
        Ok(places)
    }
}

/// Tables and streams that belong together: the number of the first of each, and that behind the last.
#[derive(Clone, Copy)]
pub struct Group {
    pub tables: (usize, usize),
    pub streams: (usize, usize),
}

/// A file whose lines are paths, and what is done with the file of each.
#[derive(Drop)]
pub struct Listing {
    pub path: usize,
    pub steps: Vec<Step>,
    pub on_fault: Option<StandIn>,
    pub max: Option<usize>,
    pub kind: Kind,
}

impl Listing {
    /// The stream of a line, whose file has this place.
    pub fn stream(&self, alloc: Global, path: usize) -> Result<Stream, AllocError> {
        Ok(Stream {
            path,
            steps: Vec::from_slice(alloc, &self.steps)?,
            second: None,
            after: Vec::new(alloc),
            on_fault: self.on_fault,
            to: None,
            until: None,
            kind: self.kind,
        })
    }

    /// How many lines are given streams at most.
    pub fn most(&self) -> usize {
        self.max.unwrap_or(64)
    }
}

/// A description.
#[derive(Drop)]
pub struct Plan {
    /// Whether it is of the second version.
    pub is_second: bool,
    pub max_open: Option<usize>,
    pub queue: Option<usize>,
    pub chunk: Option<usize>,
    pub take: Option<usize>,
    /// How many streams may be open at a time where the words of the call tell it.
    pub told_open: Option<usize>,
    /// The tables and the streams of the top, and then those of each group.
    pub tables: Vec<usize>,
    pub streams: Vec<Stream>,
    pub groups: Vec<Group>,
    pub list: Option<Listing>,
}

impl Plan {
    /// How many streams may be open at a time.
    pub fn width(&self) -> usize {
        self.told_open.or(self.max_open).unwrap_or(4)
    }

    /// The most bytes of one read.
    pub fn piece(&self) -> usize {
        self.chunk.unwrap_or(4_096)
    }

    /// How many tables the top has.
    pub fn top_tables(&self) -> usize {
        let first = self.groups.first();
        first.map_or(self.tables.len(), |group| group.tables.0)
    }

    /// How many streams the top has.
    pub fn top_streams(&self) -> usize {
        let first = self.groups.first();
        first.map_or(self.streams.len(), |group| group.streams.0)
    }

    /// How many lines of a list are given streams at most.
    pub fn most_listed(&self) -> usize {
        self.list.as_ref().map_or(0, |list| list.most())
    }

    /// The row behind those of the tables and of the list.
    pub fn first_row(&self) -> usize {
        let lists = usize::from(self.list.is_some());
        self.tables.len().saturating_add(lists)
    }

    /// The file of each row, where these streams are of the list.
    pub fn rows(&self, alloc: Global, listed: &[Stream]) -> Result<Vec<usize>, AllocError> {
        let mut rows = Vec::from_slice(alloc, &self.tables)?;
        if let Some(list) = &self.list {
            rows.push(list.path)?;
        }
        for stream in self.streams.iter().chain(listed) {
            rows.extend_from_slice(&stream.places(alloc)?)?;
        }
        Ok(rows)
    }
}
